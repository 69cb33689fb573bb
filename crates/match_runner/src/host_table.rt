//! The table at which a host's engines play.

ghost use Rattle.std.specs.Prelude.{[]};
ghost use Rattle.byte_devices.specs.Devices.{Sends};
ghost use Rattle.chess_match.specs.Played.{PlayedNoting};
ghost use Rattle.chess_match.specs.Run.{engines_of};
ghost use Rattle.pgn_writer.specs.GameText.{pgn};
ghost use Rattle.match_runner.specs.Games.{LogsGame};
ghost use Rattle.match_runner.specs.Log.{log_seen};

use crate::fault::GamesFault;
use crate::host::{Engines, Host};
use crate::log::{Log, run_match_logged};
use crate::table::GamesTable;
use byte_devices::{Input, Output, WriteFault};
use chess_base::{ByColour, Colour};
use chess_bits::Bits;
use chess_game::Game;
use chess_match::{Ends, MatchEnd, Moments, Setup, run_match};
use pgn_writer::{Tags, write_pgn};

/// What the games of a match are played with, one after another: the clock, the game, and a board on which its moves
/// are made again.
#[derive(Drop)]
pub(crate) struct Seat<'t, C> {
    pub clock: C,
    pub game: Game<Bits<'t>>,
    pub scratch: Bits<'t>,
}

/// The host that starts the engines of a match, and what its games are played with.
#[derive(Drop)]
pub(crate) struct HostTable<'t, 'h, 'c, 'g, 's, H: Host> {
    pub host: &'h mut H,
    pub clock: &'c mut H::Clock,
    pub game: &'g mut Game<Bits<'t>>,
    pub scratch: &'s mut Bits<'t>,
}

// Plays one game between two engines, whose pipes are `ends`, and logs it if `first`, the side of the engine of
// `--white`, is given.
fn relay<'t, R: Input, D: Output, M: Moments, E: Output>(
    ends: &mut ByColour<Ends<R, D>>,
    moments: &mut M,
    setup: &Setup,
    game: &mut Game<Bits<'t>>,
    first: Option<Colour>,
    log: &mut Log<E>,
) -> MatchEnd
    ensures ran { PlayedNoting (λ notes. LogsGame first (log_seen (E.seen log.old.output) log.old.broken)
        (log_seen (E.seen log.new.output) log.new.broken) notes) setup.now result
        (record {
          engines = engines_of R.seen D.seen ends.old.white ends.old.black;
          coming = M.coming moments.old;
          game = game.old;
        })
        (record {
          engines = engines_of R.seen D.seen ends.new.white ends.new.black;
          coming = M.coming moments.new;
          game = game.new;
        }) }
{
    let Some(first) = first else {
        return run_match(&mut ends.white, &mut ends.black, moments, setup, game);
    };
    run_match_logged(ends, moments, setup, game, first, log)
}

// Writes a game's PGN to the output, and flushes; `scratch` is a board on which its moves are made again.
fn send_game<'t, W: Output>(
    game: &Game<Bits<'t>>,
    scratch: &mut Bits<'t>,
    tags: &Tags,
    output: &mut W,
) -> Result<(), WriteFault>
    ensures { Sends (W.seen output.old) (W.seen output.new) result (pgn [] tags.now game.now.state) }
{
    write_pgn(game, scratch, tags, b"", output)?;
    output.flush()
}

impl<'t, H: Host> GamesTable for HostTable<'t, '_, '_, '_, '_, H> {
    ghost use Rattle.chess_match.specs.Run.{engines_of};
    ghost use Rattle.match_runner.specs.ties.AtHost.{MarkedBy};

    type Engines = Engines<H::Running, H::Reader, H::Writer>;

    // Steps may come at the table if those of them that are the host's may come at the host (`MarkedBy`). The reference
    // to the host stays the same.
    ghost to_come = { λ t. MarkedBy (H.to_come t.host.now) t.host.ghost_name };

    ghost game = { λ t. t.game.now };

    ghost coming = { λ t. H.Clock.coming t.clock.now };

    ghost devices = { λ e. engines_of H.Reader.seen H.Writer.seen e.ends.white e.ends.black };

    // Has the host start both engines.
    fn start<'a>(
        &mut self,
        white: &'a str,
        black: &'a str,
        limit: Option<u64>,
    ) -> Result<Engines<H::Running, H::Reader, H::Writer>, GamesFault<'a>> {
        self.host.start(white, black, limit)
    }

    // Plays the game over the engines' pipes.
    fn play<E: Output>(
        &mut self,
        engines: &mut Engines<H::Running, H::Reader, H::Writer>,
        setup: &Setup,
        first: Option<Colour>,
        log: &mut Log<E>,
    ) -> MatchEnd {
        relay(&mut engines.ends, self.clock, setup, self.game, first, log)
    }

    // Writes the game's PGN; its moves are made again on the scratch board.
    fn write_game<W: Output>(&mut self, tags: &Tags, output: &mut W) -> Result<(), WriteFault> {
        send_game(self.game, self.scratch, tags, output)
    }

    // Has the host close both engines' inputs and wait for their ends.
    fn finish(
        &mut self,
        engines: Engines<H::Running, H::Reader, H::Writer>,
        limit: Option<u64>,
    ) -> ByColour<bool> {
        self.host.finish(engines, limit)
    }
}
