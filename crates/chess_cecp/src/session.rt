//! A session: one game, and the answers to lines.

ghost use Rattle.std.specs.Prelude.{◌≡◌, ◌≢◌, ◌≤◌, [], if◌then◌else◌, Some, IfOk, false, length, codes};
ghost use Rattle.byte_devices.specs.Devices.{Sends};
ghost use Rattle.chess_base.specs.Initial.{initial_setup};
ghost use Rattle.chess_base.specs.MoveList.{moves};
ghost use Rattle.chess_fen.specs.Reading.{fen_reading_as};
ghost use Rattle.chess_fen.specs.Writing.{fen};
ghost use Rattle.chess_game.specs.Game.{current, from_start, is_over, refusal_now, IsPlayable};
ghost use Rattle.chess_cecp.specs.Held.{opened_session, game_held};
ghost use Rattle.pgn_writer.specs.GameText.{pgn};
ghost use Rattle.chess_game.specs.Results.{cut_comment};
ghost use Rattle.chess_text.specs.Moves.{reading, has_shape, shape, IsLegalReading};
ghost use Rattle.chess_text.specs.San.{is_fischerandom};
ghost use Rattle.text_lines.specs.Words.{argument_of};
ghost use Rattle.chess_cecp.specs.Declaring.{read_result};
ghost use Rattle.chess_cecp.specs.Serving.{becomes};
ghost use Rattle.chess_cecp.specs.Session.{row, move_row, take_back_row, result_row, declares, claim_row, setboard_row, variant_row, session_response, IsRefusal};
ghost use Rattle.chess_cecp.specs.ties.Replies.{joined_line, moves_line, after_row, unnamed_command, reply_of, reply_to, shows_moves, shows_pgn, asks_for_moves, asks_for_pgn};
ghost use Rattle.chess_game.specs.declared.game.TheConstants.{MOST_MOVES};
ghost use Rattle.chess_cecp.specs.declared.session.TheConstants.{COMMAND_LEN};

use crate::answer::{
    Answer, MovesAnswer, write_features, write_illegal_position, write_line, write_moves,
    write_pong, write_result, write_state, write_verdict,
};
use crate::command::{Command, named_command};
use crate::result_command::read_result;
use byte_devices::{Output, WriteFault, send};
use chess_base::{Position, Variant};
use chess_fen::{read_fen_as, write_fen};
use chess_game::{Comment, Game, Outcome, PlayRefusal};
use chess_moves::Board;
use chess_text::{Reading, read_move};
use pgn_writer::{Tags, write_pgn};
use std::alloc::{AllocError, Global};
use std::marker::Model;
use text_lines::{Line, split_word};

/// The most bytes of a line that a session reads; a longer one is refused.
pub const COMMAND_LEN: usize = 1024;

/// Whether a session continues after a line, or ends.
#[derive(Clone, Copy, Debug, PartialEq, Eq)]
pub enum Go {
    On,
    Quit,
}

// How a line is answered once it has been obeyed.
enum Reply {
    // By the text that was put together, and whether the session continues after it.
    Text(Go),
    // By the legal moves (`showmoves`).
    Moves,
    // By the game's PGN (`showpgn`).
    Pgn,
}

/// A session over one game. In contracts it is the state of this game (its start, its current moves and what was
/// declared), the number of half-moves that it may have, and the tags with which games are written.
#[derive(Drop)]
pub struct Session<B: Board> {
    game: Game<B>,
    // A second board, on which `showpgn` plays the game again to write its moves.
    scratch: B,
    tags: Tags,
}

impl<B: Board> Model for Session<B> {
    ghost use Rattle.chess_cecp.specs.Held.{SessionSeen};

    ghost Value = { SessionSeen };

    ghost view = { λ s. record { tags = s.tags; limit = s.game.limit; state = s.game.state } };
}

impl<B: Board + Drop> Session<B> {
    /// A session as it is after `new`: the initial position of normal chess, no moves, nothing declared. `board` and
    /// `scratch` may be at any position; `showpgn` writes the game with these tags, and plays it again on `scratch`.
    /// All memory, for `limit` half-moves, is allocated here.
    ///
    /// # Errors
    /// If memory runs out; what was allocated is freed, and the boards and the tags are dropped.
    pub fn open(
        alloc: Global,
        board: B,
        scratch: B,
        tags: Tags,
        limit: u32,
    ) -> Result<Self, AllocError>
        requires some { 1 ≤ limit }
        requires few { limit ≤ MOST_MOVES }
        ensures { IfOk result (λ s. s ≡ opened_session tags limit) }
    {
        Ok(Session {
            game: Game::open(alloc, board, limit)?,
            scratch,
            tags,
        })
    }
}

impl<B: Board> Session<B> {
    /// The current position of the game.
    pub fn position(&self) -> Position
        ensures value { result ≡ current self.now.state }
        ensures playable { IsPlayable (game_held self.now) }
    {
        self.game.position()
    }

    // What a text denotes in the current position: a legal move, or why it is none.
    fn read(&self, text: &[u8]) -> Reading
        ensures value { result ≡ reading (current self.now.state) text.now }
        ensures legal { IsLegalReading (current self.now.state) result }
        ensures shape { has_shape result ≡ shape text.now }
    {
        read_move(self.game.board(), text)
    }

    // Why no move can be played in the game now: it is over, or has as many half-moves as its limit; `None` if one can.
    // `read`, the reading of some text, only saves work: if it is a legal move, none has to be looked for.
    fn refusal(&self, read: &Reading) -> Option<PlayRefusal>
        requires { IsLegalReading (current self.now.state) read.now }
        ensures value { result ≡ refusal_now (game_held self.now) }
        ensures possible { result ≢ Some PlayRefusal.Illegal }
    {
        match read {
            Reading::Move(m) => self.game.refusal_of_moving(m),
            Reading::Ambiguous | Reading::NoSuch | Reading::NotAMove => self.game.refusal(),
        }
    }

    // Plays the move that `text` denotes (`read` is what `text` was read as), and answers with the board's verdict, if
    // there is one; or refuses the text, if it denotes no legal move or no move can be played now.
    fn play(&mut self, read: Reading, text: &[u8], answer: &mut Answer)
        requires read { read ≡ reading (current self.old.state) text.now }
        requires legal { IsLegalReading (current self.old.state) read }
        requires short { length text.now ≤ COMMAND_LEN }
        requires empty { answer.old.items ≡ [] }
        ensures next { self.new ≡ after_row self.old (move_row self.old.limit self.old.state text.now) }
        ensures text { answer.new.items ≡ (move_row self.old.limit self.old.state text.now).text }
    {
        match self.refusal(&read) {
            Some(PlayRefusal::Over) => {
                return write_line(answer, b"Illegal move (game over): ", text);
            }
            Some(PlayRefusal::TooLong) => {
                return write_line(answer, b"Error (game too long): ", text);
            }
            // A move that was read is legal, so `refusal` never returns this.
            Some(PlayRefusal::Illegal) => unreachable!(),
            None => {}
        }
        match read {
            Reading::Move(m) => {
                self.game.play_legal(m);
                write_verdict(answer, self.game.verdict());
            }
            Reading::Ambiguous => write_line(answer, b"Error (ambiguous move): ", text),
            Reading::NoSuch | Reading::NotAMove => write_line(answer, b"Illegal move: ", text),
        }
    }

    // Plays the move that a text denotes in the current position, and answers with the board's verdict, if there is
    // one; or refuses the text.
    fn play_text(&mut self, text: &[u8], answer: &mut Answer)
        requires short { length text.now ≤ COMMAND_LEN }
        requires empty { answer.old.items ≡ [] }
        ensures next { self.new ≡ after_row self.old (move_row self.old.limit self.old.state text.now) }
        ensures text { answer.new.items ≡ (move_row self.old.limit self.old.state text.now).text }
    {
        let read = self.read(text);
        self.play(read, text, answer);
    }

    // Obeys `setboard`: starts the game anew from the position that a FEN denotes, and answers with the board's
    // verdict, if there is one; or refuses the FEN.
    fn set_board(&mut self, fen: &[u8], answer: &mut Answer)
        requires { answer.old.items ≡ [] }
        ensures next { self.new
            ≡ after_row self.old (setboard_row self.old.state (fen_reading_as self.old.state.start.variant fen.now)) }
        ensures text { answer.new.items
            ≡ (setboard_row self.old.state (fen_reading_as self.old.state.start.variant fen.now)).text }
    {
        match read_fen_as(self.game.variant(), fen) {
            Ok(start) => {
                self.game.restart(&start);
                write_verdict(answer, self.game.verdict());
            }
            Err(fault) => write_illegal_position(answer, fault),
        }
    }

    // Obeys `variant` by its argument: `fischerandom` starts the game anew in Chess960, `normal` in normal chess unless
    // it is of normal chess already, and any other name is refused. `text` is the whole line.
    fn change_variant(&mut self, text: &[u8], argument: &[u8], answer: &mut Answer)
        requires short { length text.now ≤ COMMAND_LEN }
        requires empty { answer.old.items ≡ [] }
        ensures next { self.new ≡ after_row self.old (variant_row self.old.state text.now argument.now) }
        ensures text { answer.new.items ≡ (variant_row self.old.state text.now argument.now).text }
    {
        if argument == b"fischerandom".as_slice() {
            self.game
                .restart(&Position::initial_of(Variant::Fischerandom));
            return;
        }
        if argument == b"normal".as_slice() {
            self.leave_chess960();
            return;
        }
        write_line(answer, b"Error (unsupported variant): ", text);
    }

    // Obeys `variant normal`: a game of Chess960 starts anew as one of normal chess, and one of normal chess stays as
    // it is.
    fn leave_chess960(&mut self)
        ensures { self.new ≡ after_row self.old (becomes
            (if is_fischerandom self.old.state.start.variant then from_start initial_setup else self.old.state)) }
    {
        match self.game.variant() {
            Variant::Normal => {}
            Variant::Fischerandom => self.game.restart(&Position::initial()),
        }
    }

    // Obeys `undo`: takes one half-move back, or refuses if there is none.
    fn undo(&mut self, answer: &mut Answer)
        requires { answer.old.items ≡ [] }
        ensures next { self.new ≡ after_row self.old (take_back_row 1 (codes "undo") self.old.state) }
        ensures text { answer.new.items ≡ (take_back_row 1 (codes "undo") self.old.state).text }
    {
        if self.game.take_back().is_err() {
            write_line(answer, b"Error (command not legal now): ", b"undo");
        }
    }

    // Obeys `remove`: takes two half-moves back, or refuses if there are fewer.
    fn remove(&mut self, answer: &mut Answer)
        requires { answer.old.items ≡ [] }
        ensures next { self.new ≡ after_row self.old (take_back_row 2 (codes "remove") self.old.state) }
        ensures text { answer.new.items ≡ (take_back_row 2 (codes "remove") self.old.state).text }
    {
        if self.game.ply() < 2 {
            write_line(answer, b"Error (command not legal now): ", b"remove");
            return;
        }
        let _last = self.game.take_back();
        let _before = self.game.take_back();
    }

    // Obeys `result`: declares the result that its argument denotes; refuses the whole line `text` if it denotes none,
    // or the board has a verdict with another outcome.
    fn declare(&mut self, text: &[u8], argument: &[u8], answer: &mut Answer)
        requires short { length text.now ≤ COMMAND_LEN }
        requires empty { answer.old.items ≡ [] }
        ensures next { self.new ≡ after_row self.old (result_row self.old.state text.now (read_result argument.now)) }
        ensures text { answer.new.items ≡ (result_row self.old.state text.now (read_result argument.now)).text }
    {
        let Some(declared) = read_result(argument) else {
            write_line(answer, b"Error (bad result): ", text);
            return;
        };
        if self
            .game
            .declare(declared.outcome, declared.comment)
            .is_err()
        {
            write_line(answer, b"Error (the board says otherwise): ", text);
        }
    }

    // Declares a draw with this comment, and answers it, as `1/2-1/2 {50-move rule}`.
    fn draw(&mut self, comment: &[u8], answer: &mut Answer)
        requires open_game { is_over self.old.state ≡ false }
        requires clean { cut_comment comment.now ≡ comment.now }
        requires short { length comment.now ≤ 60 }
        requires empty { answer.old.items ≡ [] }
        ensures next { self.new ≡ after_row self.old
            (declares self.old.state (record { outcome = Outcome.Draw; comment = comment.now })) }
        ensures text { answer.new.items
            ≡ (declares self.old.state (record { outcome = Outcome.Draw; comment = comment.now })).text }
    {
        self.game.declare_open(Outcome::Draw, Comment::cut(comment));
        write_result(answer, Outcome::Draw, comment);
    }

    // Obeys `claim`: declares a draw, if the game is not over and one can be claimed in the current position; otherwise
    // refuses.
    #[tactic(auto, using(crate::proofs::Comments::kept_whole))]
    fn claim(&mut self, answer: &mut Answer)
        requires { answer.old.items ≡ [] }
        ensures next { self.new ≡ after_row self.old (claim_row self.old.state) }
        ensures text { answer.new.items ≡ (claim_row self.old.state).text }
    {
        if self.game.is_over() {
            write_line(answer, b"Error (command not legal now): ", b"claim");
            return;
        }
        match self.game.claims().draw_claim() {
            Some(claim) => self.draw(claim.comment(), answer),
            None => write_line(answer, b"Error (no claim): ", b"claim"),
        }
    }

    // Puts the answer to `showfen` together: the line of `# fen ` and the FEN of the current position.
    fn show_fen(&self, answer: &mut Answer)
        requires { answer.old.items ≡ [] }
        ensures { answer.new.items ≡ joined_line (codes "# fen ") (fen (current self.now.state)) }
    {
        let fen = write_fen(&self.game.position());
        write_line(answer, b"# fen ", fen.as_slice());
    }

    // Obeys a command: changes the game, and puts the answer together, except for those to `showmoves` and `showpgn`,
    // which are written later. `text` is the whole line, `argument` what follows its first word.
    fn obey(&mut self, command: Command, text: &[u8], argument: &[u8], answer: &mut Answer)
        requires short { length text.now ≤ COMMAND_LEN }
        requires short_argument { length argument.now ≤ COMMAND_LEN }
        requires empty { answer.old.items ≡ [] }
        ensures next { self.new
            ≡ after_row self.old (row self.old.tags self.old.limit self.old.state text.now argument.now command) }
        ensures text { shows_moves command ≡ false → shows_pgn command ≡ false → answer.new.items
            ≡ (row self.old.tags self.old.limit self.old.state text.now argument.now command).text }
    {
        match command {
            Command::New => self.game.restart(&Position::initial()),
            Command::SetBoard => self.set_board(argument, answer),
            Command::UserMove => self.play_text(argument, answer),
            Command::BareMove => self.play_text(text, answer),
            Command::Undo => self.undo(answer),
            Command::Remove => self.remove(answer),
            Command::Declare => self.declare(text, argument, answer),
            Command::Claim => self.claim(answer),
            Command::Ping(number) => write_pong(answer, number),
            Command::Protover(version) => {
                if version >= 2 {
                    write_features(answer);
                }
            }
            Command::Variant => self.change_variant(text, argument, answer),
            Command::Go => write_line(answer, b"Error (the arbiter plays no side): ", b"go"),
            Command::ShowFen => self.show_fen(answer),
            Command::ShowState => write_state(answer, &self.game),
            Command::ShowMoves | Command::ShowPgn | Command::Quit | Command::Silent => {}
            Command::BadNumber => write_line(answer, b"Error (bad number): ", text),
            Command::Unknown => write_line(answer, b"Error (unknown command): ", text),
        }
    }

    // Obeys a line whose first word is no command's name: plays it as a move, if it has the form of one; otherwise
    // refuses it as an unknown command. `read_command` and `obey` would do the same, but would take the text apart
    // twice: once for its form, and once to read the move.
    fn obey_unnamed(&mut self, text: &[u8], answer: &mut Answer)
        requires short { length text.now ≤ COMMAND_LEN }
        requires empty { answer.old.items ≡ [] }
        ensures next { self.new
            ≡ after_row self.old
            (row self.old.tags self.old.limit self.old.state text.now (argument_of text.now)
            (unnamed_command text.now)) }
        ensures text { answer.new.items
            ≡ (row self.old.tags self.old.limit self.old.state text.now (argument_of text.now)
            (unnamed_command text.now)).text }
    {
        let read = self.read(text);
        match read {
            Reading::NotAMove => write_line(answer, b"Error (unknown command): ", text),
            Reading::Move(_) | Reading::Ambiguous | Reading::NoSuch => {
                self.play(read, text, answer);
            }
        }
    }

    // Obeys a line: changes the game, puts the answer together, except for those to `showmoves` and `showpgn`, and
    // returns how the line is then answered: by that text, by the legal moves or by the game's PGN.
    #[tactic(auto, unfolding(crate::specs::Session::session_response, crate::specs::ties::Replies::is_quit, crate::specs::ties::Replies::asks_for_moves, crate::specs::ties::Replies::asks_for_pgn, crate::specs::Commands::command_of))]
    fn obey_line(&mut self, line: &Line<COMMAND_LEN>, answer: &mut Answer) -> Reply
        requires { answer.old.items ≡ [] }
        ensures next { self.new ≡ (session_response self.old line.now).state }
        ensures text { asks_for_moves line.now ≡ false → asks_for_pgn line.now ≡ false
            → answer.new.items ≡ (session_response self.old line.now).text }
        ensures reply { result ≡ reply_to line.now }
    {
        let text = line.text();
        if line.is_too_long() {
            write_line(answer, b"Error (line too long): ", text);
            return Reply::Text(Go::On);
        }
        let (word, argument) = split_word(text);
        let Some(command) = named_command(word, argument) else {
            self.obey_unnamed(text, answer);
            return Reply::Text(Go::On);
        };
        self.obey(command, text, argument, answer);
        reply_of(command)
    }

    // Answers `showmoves`: writes the legal moves, and flushes the writer. Their list and its text are large, so they
    // are kept out of the stack frames of other commands.
    #[inline(never)]
    fn send_moves<W: Output>(&self, writer: &mut W) -> Result<(), WriteFault>
        ensures { Sends (W.seen writer.old) (W.seen writer.new) result
            (moves_line (current self.now.state) (moves (current self.now.state))) }
    {
        let mut answer = MovesAnswer::new();
        let moves = self.game.board().legal_moves();
        write_moves(&mut answer, &self.game.position(), moves.as_slice());
        send(writer, answer.as_slice())
    }

    // Answers `showpgn`: writes the game's PGN to the writer, each line after `# `, and flushes.
    fn send_pgn<W: Output>(&mut self, writer: &mut W) -> Result<(), WriteFault>
        ensures same { self.new ≡ self.old }
        ensures written { Sends (W.seen writer.old) (W.seen writer.new) result
            (pgn (codes "# ") self.old.tags self.old.state) }
    {
        write_pgn(&self.game, &mut self.scratch, &self.tags, b"# ", writer)?;
        writer.flush()
    }

    /// Answers a line: changes the game, writes the answer (with one call, except for a game's text), and flushes the
    /// writer. Returns whether the session continues; only `quit` ends it.
    ///
    /// # Errors
    /// If a write or the flush fails. The change is kept; of the answer nothing, a beginning or all was written.
    pub fn answer<W: Output>(
        &mut self,
        line: &Line<COMMAND_LEN>,
        writer: &mut W,
    ) -> Result<Go, WriteFault>
        ensures next { self.new ≡ (session_response self.old line.now).state }
        ensures written { Sends (W.seen writer.old) (W.seen writer.new) result
            (session_response self.old line.now).text }
        ensures go { IfOk result
            (λ go. go ≡ (if (session_response self.old line.now).ends then Go.Quit else Go.On)) }

        // Two facts that follow from the table of commands: a refusal changes nothing, and tags and limit never change.
        ensures refused { IsRefusal (session_response self.old line.now).text → self.new ≡ self.old }
        ensures kept { (self.new.tags ≡ self.old.tags) × (self.new.limit ≡ self.old.limit) }
    {
        let mut answer = Answer::new();
        match self.obey_line(line, &mut answer) {
            Reply::Text(go) => {
                send(writer, answer.as_slice())?;
                Ok(go)
            }
            Reply::Moves => {
                self.send_moves(writer)?;
                Ok(Go::On)
            }
            Reply::Pgn => {
                self.send_pgn(writer)?;
                Ok(Go::On)
            }
        }
    }
}

// How a command is answered: `showmoves` by the legal moves, `showpgn` by the game's PGN, all others by the text put
// together; and whether the session continues, which it does unless the command is `quit`.
fn reply_of(command: Command) -> Reply
    ensures { result ≡ reply_of command }
{
    match command {
        Command::ShowMoves => Reply::Moves,
        Command::ShowPgn => Reply::Pgn,
        Command::Quit => Reply::Text(Go::Quit),
        _ => Reply::Text(Go::On),
    }
}
