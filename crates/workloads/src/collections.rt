//! Collections of games that are verified.

use crate::digest::Digest;
use crate::random::Random;
use crate::texts::{Record, add_annotated, add_clocks, add_plain, add_tags};
use crate::walk::{Style, Texts, walk_back, walk_on};
use byte_devices::Counted;
use chess_base::Position;
use chess_bits::{AttackTables, Bits};
use chess_game::{Game, MOST_MOVES, Outcome};
use pgn_verifier::{LENIENT, STRICT_FAULTS, Verified, VerifyOptions, verify_collection};
use std::alloc::{AllocError, Global};

// What a game's record may have as its outcome if the game isn't over.
const OUTCOMES: [&[u8]; 4] = [b"1-0", b"0-1", b"1/2-1/2", b"*"];

/// The outcome that a game's record names: the board's, or a random one if the game isn't over.
pub fn outcome_text(game: &Game<Bits<'_>>, random: &mut Random) -> &'static [u8] {
    match game.outcome() {
        Outcome::Unfinished => random.one_of(&OUTCOMES),
        outcome => outcome.text(),
    }
}

/// Makes the next game of a collection by random moves. Every third game begins anew; the others keep half to five
/// sixths of the game before, as if both had the same opening. `texts` are the moves as SAN.
///
/// # Errors
/// If memory runs out.
pub fn next_game(
    game: &mut Game<Bits<'_>>,
    number: usize,
    random: &mut Random,
    texts: &mut Texts,
) -> Result<(), AllocError> {
    if number % 3 == 0 {
        game.restart(&Position::initial());
        texts.clear();
        return walk_on(game, Style::Lively, 60 + random.below(90), random, texts);
    }
    let kept = game.ply() / 2 + random.below(game.ply() / 3);
    walk_back(game, kept, texts);
    walk_on(game, Style::Lively, 10 + random.below(40), random, texts)
}

/// Verifies a collection, piece by piece, and adds all that was written to the digest.
///
/// # Errors
/// If memory runs out.
pub fn verify_text(
    alloc: Global,
    options: VerifyOptions,
    text: &[u8],
    digest: &mut Digest,
) -> Result<(), AllocError> {
    let mut input = Counted::reading(text);
    let mut output = Counted::writing(Vec::<u8>::new(alloc));
    match verify_collection(alloc, options, &mut input, &mut output) {
        Ok(Verified::EachGame) => digest.add(1),
        Ok(Verified::FaultReported) => digest.add(2),
        Err(_) => return Err(AllocError),
    }
    digest.add_bytes(output.writer().as_slice());
    Ok(())
}

/// Options by which only faults are reported.
pub const QUIET: VerifyOptions = VerifyOptions {
    quiet: true,
    strict: LENIENT,
    spans: false,
    names: false,
    explain: false,
};
/// Options of a quality check: results are compared, and faults explained.
pub const CAREFUL: VerifyOptions = VerifyOptions {
    quiet: false,
    strict: STRICT_FAULTS,
    spans: false,
    names: false,
    explain: true,
};

// One collection written in three forms.
#[derive(Drop)]
struct Forms {
    plain: Vec<u8>,
    clocks: Vec<u8>,
    annotated: Vec<u8>,
}

impl Forms {
    // Three empty collections.
    fn new(alloc: Global) -> Self {
        Forms {
            plain: Vec::new(alloc),
            clocks: Vec::new(alloc),
            annotated: Vec::new(alloc),
        }
    }

    // Adds the game to each of the three texts.
    fn add_game(&mut self, record: &Record<'_>, random: &mut Random) -> Result<(), AllocError> {
        add_tags(&mut self.plain, record.number, record.outcome, random)?;
        add_plain(&mut self.plain, record, random)?;
        add_tags(&mut self.clocks, record.number, record.outcome, random)?;
        add_clocks(&mut self.clocks, record, random)?;
        add_tags(&mut self.annotated, record.number, record.outcome, random)?;
        add_annotated(&mut self.annotated, record, random)
    }
}

// Makes a collection of `games` games by random moves, and writes it in its three forms; once in 1,000 games one move
// is written wrong.
fn make_forms(alloc: Global, games: usize, random: &mut Random) -> Result<Forms, AllocError> {
    let tables = AttackTables::open(alloc)?;
    let mut game = Game::open(alloc, Bits::new(&tables), MOST_MOVES)?;
    let mut texts = Vec::new(alloc);
    let mut forms = Forms::new(alloc);
    for number in 0..games {
        next_game(&mut game, number, random, &mut texts)?;
        let outcome = outcome_text(&game, random);
        let record = Record {
            number,
            texts: &texts,
            outcome,
            has_fault: random.once_in(1000),
        };
        forms.add_game(&record, random)?;
    }
    Ok(forms)
}

/// Makes a collection of `games` games, and verifies it in three forms: as moves alone; with an evaluation and a
/// clock's time after each half-move; and annotated, with all that a quality check asks for. Adds the reports to the
/// digest.
///
/// # Errors
/// If memory runs out.
pub fn verify_collections(
    alloc: Global,
    games: usize,
    random: &mut Random,
    digest: &mut Digest,
) -> Result<(), AllocError> {
    let forms = make_forms(alloc, games, random)?;
    verify_text(alloc, QUIET, forms.plain.as_slice(), digest)?;
    verify_text(alloc, QUIET, forms.clocks.as_slice(), digest)?;
    verify_text(alloc, CAREFUL, forms.annotated.as_slice(), digest)
}
