//! Games of chess, driven step by step on three boards: ends, claims and declared results; how moves are kept and taken
//! back; and how often a game calls its board.

use chess_base::{Colour, Kind, Move, Position, Saved, Setup, Square, Variant};
use chess_bits::{AttackTables, Bits};
use chess_fen::{read_fen, read_fen_as, write_fen};
use chess_game::{
    BoardSaysOtherwise, Claims, Comment, Game, MOST_MOVES, NoMove, Outcome, PlayRefusal, Verdict,
};
use chess_moves::{Board, MoveList, Plain, SquareSet};
use std::alloc::Global;
use std::cell::Cell;
use std::fmt::Debug;
use std::process::Abort;
use std::test::Fail;

/// How often each call of a board was made that changes it, and how often its hash (`word`) was asked for.
#[derive(Drop)]
struct Calls {
    set: Cell<u32>,
    make: Cell<u32>,
    take_back: Cell<u32>,
    word: Cell<u32>,
}

impl Calls {
    // Counts of a board that was not called yet.
    fn none() -> Self {
        Calls {
            set: Cell::new(0),
            make: Cell::new(0),
            take_back: Cell::new(0),
            word: Cell::new(0),
        }
    }

    // How often `set`, `make` and `take_back` were called since the last time that this was called.
    fn since(&self) -> (u32, u32, u32) {
        (
            self.set.replace(0),
            self.make.replace(0),
            self.take_back.replace(0),
        )
    }

    // How often the hash was asked for since the last time that this was called.
    fn hashes_since(&self) -> u32 {
        self.word.replace(0)
    }
}

// Counts one more call.
fn count_up(count: &Cell<u32>) {
    count.set(count.get().wrapping_add(1));
}

/// The plain board with 0 as the hash of each position. A game then has to compare positions to find whether they
/// differ. It counts the calls that change it, and those that ask for its hash.
#[derive(Drop)]
struct ZeroHashBoard<'a> {
    plain: Plain,
    calls: &'a Calls,
}

impl Board for ZeroHashBoard<'_> {
    ghost position = { λ b. b.plain };

    ghost word_of = { λ _ _ _. 0 };

    fn set(&mut self, to: &Position) {
        count_up(&self.calls.set);
        self.plain.set(to);
    }

    fn position(&self) -> Position {
        self.plain.position()
    }

    fn setup(&self) -> &Setup {
        self.plain.setup()
    }

    fn legal_moves(&self) -> MoveList {
        self.plain.legal_moves()
    }

    fn legal_move_count(&self) -> usize {
        self.plain.legal_move_count()
    }

    fn has_legal_move(&self) -> bool {
        self.plain.has_legal_move()
    }

    fn is_legal(&self, m: &Move) -> bool {
        self.plain.is_legal(m)
    }

    fn origins(&self, kind: Kind, to: Square) -> SquareSet {
        self.plain.origins(kind, to)
    }

    fn men_of(&self, colour: Colour, kind: Kind) -> SquareSet {
        self.plain.men_of(colour, kind)
    }

    fn legal_starts(&self, kind: Kind, to: Square) -> SquareSet {
        self.plain.legal_starts(kind, to)
    }

    fn in_check(&self) -> bool {
        self.plain.in_check()
    }

    fn word(&self) -> u64 {
        count_up(&self.calls.word);
        0
    }

    fn make(&mut self, m: Move) -> Saved {
        count_up(&self.calls.make);
        self.plain.make(m)
    }

    fn take_back(&mut self, m: Move, saved: Saved) {
        count_up(&self.calls.take_back);
        self.plain.take_back(m, saved);
    }
}

// Such a board at the initial position, which counts its calls here.
fn zero_hash_board(calls: &Calls) -> ZeroHashBoard<'_> {
    ZeroHashBoard {
        plain: Plain::new(),
        calls,
    }
}

// The square with this letter and digit, such as `e` and `4`.
fn square(file: u8, rank: u8) -> Square {
    Square::new(rank.wrapping_sub(b'1') % 8 * 8 + file.wrapping_sub(b'a') % 8)
}

// A move by its squares, as `e2e4`.
fn by_squares(squares: &[u8; 4]) -> Move {
    let [from_file, from_rank, to_file, to_rank] = *squares;
    Move {
        from: square(from_file, from_rank),
        to: square(to_file, to_rank),
        promotion: None,
    }
}

// The calls of a game whose contracts are big, each in a function without clauses: the tests that call it then have no
// such facts to carry, and compare values. The loops and comparisons below have functions of their own for the same
// reason: a long body costs much to prove.

// Opens a game of at most `limit` half-moves on this board.
fn opened<B: Board + Drop>(
    rt: &impl Abort,
    alloc: Global,
    board: B,
    limit: u32,
) -> Result<Game<B>, Fail> {
    assert!(rt; 0 < limit && limit <= MOST_MOVES);
    Ok(Game::open(alloc, board, limit)?)
}

// Begins anew from the position of a FEN of normal chess.
fn restart<B: Board>(game: &mut Game<B>, fen: &[u8]) -> Result<(), Fail> {
    game.restart(&read_fen(fen)?);
    Ok(())
}

// The same of Chess960.
fn restart_960<B: Board>(game: &mut Game<B>, fen: &[u8]) -> Result<(), Fail> {
    game.restart(&read_fen_as(Variant::Fischerandom, fen)?);
    Ok(())
}

// The same from the initial position.
fn restart_initial<B: Board>(game: &mut Game<B>) {
    game.restart(&Position::initial());
}

// Takes a declared result away.
fn clear_declared<B: Board>(game: &mut Game<B>) {
    game.clear_declared();
}

// Plays a move given by its squares, or is refused.
fn play<B: Board>(game: &mut Game<B>, squares: &[u8; 4]) -> Result<(), PlayRefusal> {
    game.play(by_squares(squares))
}

// Takes the last move back and returns it, if there is one.
fn take_back<B: Board>(game: &mut Game<B>) -> Result<Move, NoMove> {
    game.take_back()
}

// Declares a result, or is refused since the board has another verdict.
fn declare<B: Board>(
    game: &mut Game<B>,
    outcome: Outcome,
    comment: &[u8],
) -> Result<(), BoardSaysOtherwise> {
    game.declare(outcome, Comment::cut(comment))
}

// Declares a result of a game without a verdict, by the call that requires this; with a verdict, does nothing.
fn declare_open<B: Board>(game: &mut Game<B>, outcome: Outcome, comment: &[u8]) {
    if game.verdict().is_none() {
        game.declare_open(outcome, Comment::cut(comment));
    }
}

// Plays the move whose squares are the first four bytes; the fifth is a blank, if there is one.
fn play_first<B: Board>(game: &mut Game<B>, moves: &[u8]) -> Result<(), Fail> {
    let [from_file, from_rank, to_file, to_rank, ..] = *moves else {
        return Err("no move".into());
    };
    play(game, &[from_file, from_rank, to_file, to_rank])?;
    Ok(())
}

// Plays moves written as `e2e4 e7e5`, one for each five bytes. That one is refused is an error.
fn play_all<B: Board>(game: &mut Game<B>, moves: &[u8]) -> Result<(), Fail> {
    for word in moves.chunks(5) {
        play_first(game, word)?;
    }
    Ok(())
}

// What was declared, if anything: the outcome and the comment.
fn said<B: Board>(game: &Game<B>) -> Option<(Outcome, &[u8])> {
    let declared = game.declared()?;
    Some((declared.outcome, declared.comment.as_bytes()))
}

// Assert that two values are equal. Functions for all types, since an assertion for each costs much to prove.

fn is_equal<T: PartialEq + Debug>(rt: &impl Abort, found: &T, wanted: &T) {
    assert_eq!(rt; *found, *wanted);
}

fn is_equal_at<T: PartialEq + Debug>(rt: &impl Abort, place: &[u8], found: &T, wanted: &T) {
    assert_eq!(rt; *found, *wanted, "at {place:?}");
}

// Below, each function makes a call of a game and asserts its answer, or asserts one thing that is returned of the
// game.

fn is_played<B: Board>(rt: &impl Abort, game: &mut Game<B>, squares: &[u8; 4]) {
    is_equal_at(rt, squares, &play(game, squares), &Ok(()));
}

fn is_refused<B: Board>(
    rt: &impl Abort,
    game: &mut Game<B>,
    squares: &[u8; 4],
    refusal: PlayRefusal,
) {
    is_equal_at(rt, squares, &play(game, squares), &Err(refusal));
}

fn is_taken_back<B: Board>(rt: &impl Abort, game: &mut Game<B>, squares: &[u8; 4]) {
    is_equal(rt, &take_back(game), &Ok(by_squares(squares)));
}

fn has_no_move<B: Board>(rt: &impl Abort, game: &mut Game<B>) {
    is_equal(rt, &take_back(game), &Err(NoMove));
}

fn is_declared<B: Board>(rt: &impl Abort, game: &mut Game<B>, outcome: Outcome, comment: &[u8]) {
    is_equal_at(rt, comment, &declare(game, outcome, comment), &Ok(()));
}

fn says<B: Board>(rt: &impl Abort, game: &Game<B>, outcome: Outcome, comment: &[u8]) {
    is_equal(rt, &said(game), &Some((outcome, comment)));
}

fn says_nothing<B: Board>(rt: &impl Abort, game: &Game<B>) {
    assert!(rt; game.declared().is_none());
}

// The verdict, by the call that is given a legal move and so needn't look for one; without a legal move, by `verdict`.
fn verdict_of_moving<B: Board>(game: &Game<B>) -> Option<Verdict> {
    let board = game.board();
    let moves = board.legal_moves();
    let Some(m) = moves.as_slice().first() else {
        return game.verdict();
    };
    if !board.is_legal(m) {
        return game.verdict();
    }
    game.verdict_of_moving(m)
}

// Asserts the verdict, found in both ways.
fn has_verdict<B: Board>(rt: &impl Abort, game: &Game<B>, verdict: Option<Verdict>) {
    is_equal(rt, &game.verdict(), &verdict);
    is_equal(rt, &verdict_of_moving(game), &verdict);
}

fn has_outcome<B: Board>(rt: &impl Abort, game: &Game<B>, outcome: Outcome) {
    is_equal(rt, &game.outcome(), &outcome);
}

fn has_ply<B: Board>(rt: &impl Abort, game: &Game<B>, ply: usize) {
    is_equal(rt, &game.ply(), &ply);
}

fn has_repetitions<B: Board>(rt: &impl Abort, game: &Game<B>, repetitions: u32) {
    is_equal(rt, &game.repetitions(), &repetitions);
}

fn has_clock<B: Board>(rt: &impl Abort, game: &Game<B>, halfmove: u32) {
    is_equal(rt, &game.position().setup().halfmove, &halfmove);
}

fn has_claims<B: Board>(rt: &impl Abort, game: &Game<B>, claims: Claims) {
    is_equal(rt, &game.claims(), &claims);
}

fn is_over<B: Board>(rt: &impl Abort, game: &Game<B>) {
    assert!(rt; game.is_over());
}

fn goes_on<B: Board>(rt: &impl Abort, game: &Game<B>) {
    assert!(rt; !game.is_over());
}

fn is_full<B: Board>(rt: &impl Abort, game: &Game<B>) {
    assert!(rt; game.is_full());
}

fn has_room<B: Board>(rt: &impl Abort, game: &Game<B>) {
    assert!(rt; !game.is_full());
}

fn has_fen(rt: &impl Abort, position: &Position, fen: &[u8]) {
    is_equal(rt, &write_fen(position).as_slice(), &fen);
}

fn starts_at<B: Board>(rt: &impl Abort, game: &Game<B>, fen: &[u8]) {
    has_fen(rt, &game.start(), fen);
}

fn starts_in<B: Board>(rt: &impl Abort, game: &Game<B>, variant: Variant, side: Colour) {
    is_equal(rt, &(game.variant(), game.start_side()), &(variant, side));
}

fn is_at<B: Board>(rt: &impl Abort, game: &Game<B>, fen: &[u8]) {
    has_fen(rt, &game.position(), fen);
}

fn board_is_at<B: Board>(rt: &impl Abort, game: &Game<B>, fen: &[u8]) {
    has_fen(rt, &game.board().position(), fen);
}

fn is_position_at<B: Board>(rt: &impl Abort, game: &Game<B>, ply: usize, fen: &[u8]) {
    assert!(rt; ply <= game.ply());
    has_fen(rt, &game.position_at(ply), fen);
}

fn is_move_at<B: Board>(rt: &impl Abort, game: &Game<B>, ply: usize, squares: &[u8; 4]) {
    assert!(rt; ply < game.ply());
    is_equal(rt, &game.move_at(ply), &by_squares(squares));
}

// Asserts that this outcome can't be declared, since the board says otherwise, and that nothing is declared then.
fn is_not_declared<B: Board>(rt: &impl Abort, game: &mut Game<B>, outcome: Outcome) {
    is_equal(rt, &declare(game, outcome, b"x"), &Err(BoardSaysOtherwise));
    says_nothing(rt, game);
}

fn is_promoted_to_a_knight<B: Board>(rt: &impl Abort, game: &mut Game<B>, squares: &[u8; 4]) {
    let promotion = Move {
        promotion: Some(Kind::Knight),
        ..by_squares(squares)
    };
    is_equal(rt, &game.play(promotion), &Ok(()));
}

/// A thing that is returned of a game, and what it is to be. FENs are of the start, of the position of game and board,
/// and of the position after so many half-moves.
#[derive(Clone, Copy)]
enum State {
    Says(Outcome, &'static [u8]),
    SaysNothing,
    HasVerdict(Option<Verdict>),
    HasOutcome(Outcome),
    HasPly(usize),
    HasRepetitions(u32),
    HasClock(u32),
    HasClaims(Claims),
    IsOver,
    GoesOn,
    IsFull,
    HasRoom,
    StartsAt(&'static [u8]),
    // The variant and the side that moves first.
    StartsIn(Variant, Colour),
    IsAt(&'static [u8]),
    BoardIsAt(&'static [u8]),
    PositionAt(usize, &'static [u8]),
    MoveAt(usize, &'static [u8; 4]),
}

// Asserts that a game has this state.
fn is_so<B: Board>(rt: &impl Abort, game: &Game<B>, state: State) {
    match state {
        State::Says(outcome, comment) => says(rt, game, outcome, comment),
        State::SaysNothing => says_nothing(rt, game),
        State::HasVerdict(verdict) => has_verdict(rt, game, verdict),
        State::HasOutcome(outcome) => has_outcome(rt, game, outcome),
        State::HasPly(ply) => has_ply(rt, game, ply),
        State::HasRepetitions(repetitions) => has_repetitions(rt, game, repetitions),
        State::HasClock(halfmove) => has_clock(rt, game, halfmove),
        State::HasClaims(claims) => has_claims(rt, game, claims),
        State::IsOver => is_over(rt, game),
        State::GoesOn => goes_on(rt, game),
        State::IsFull => is_full(rt, game),
        State::HasRoom => has_room(rt, game),
        State::StartsAt(fen) => starts_at(rt, game, fen),
        State::StartsIn(variant, side) => starts_in(rt, game, variant, side),
        State::IsAt(fen) => is_at(rt, game, fen),
        State::BoardIsAt(fen) => board_is_at(rt, game, fen),
        State::PositionAt(ply, fen) => is_position_at(rt, game, ply, fen),
        State::MoveAt(ply, squares) => is_move_at(rt, game, ply, squares),
    }
}

/// A call of a game with the answer that it is to have, or something that the game must return then.
#[derive(Clone, Copy)]
enum Step {
    Restarts(&'static [u8]),
    Restarts960(&'static [u8]),
    RestartsInitial,
    // Moves, none of which is refused.
    PlaysAll(&'static [u8]),
    IsPlayed(&'static [u8; 4]),
    IsPromotedToAKnight(&'static [u8; 4]),
    IsRefused(&'static [u8; 4], PlayRefusal),
    IsTakenBack(&'static [u8; 4]),
    HasNoMove,
    IsDeclared(Outcome, &'static [u8]),
    IsNotDeclared(Outcome),
    DeclaresOpen(Outcome, &'static [u8]),
    ClearsDeclared,
    Is(State),
}

// Takes one step.
fn goes<B: Board>(rt: &impl Abort, game: &mut Game<B>, step: Step) -> Result<(), Fail> {
    match step {
        Step::Restarts(fen) => return restart(game, fen),
        Step::Restarts960(fen) => return restart_960(game, fen),
        Step::RestartsInitial => restart_initial(game),
        Step::PlaysAll(moves) => return play_all(game, moves),
        Step::IsPlayed(squares) => is_played(rt, game, squares),
        Step::IsPromotedToAKnight(squares) => is_promoted_to_a_knight(rt, game, squares),
        Step::IsRefused(squares, refusal) => is_refused(rt, game, squares, refusal),
        Step::IsTakenBack(squares) => is_taken_back(rt, game, squares),
        Step::HasNoMove => has_no_move(rt, game),
        Step::IsDeclared(outcome, comment) => is_declared(rt, game, outcome, comment),
        Step::IsNotDeclared(outcome) => is_not_declared(rt, game, outcome),
        Step::DeclaresOpen(outcome, comment) => declare_open(game, outcome, comment),
        Step::ClearsDeclared => clear_declared(game),
        Step::Is(state) => is_so(rt, game, state),
    }
    Ok(())
}

// Takes the steps in order.
fn all_go<B: Board>(rt: &impl Abort, game: &mut Game<B>, steps: &[Step]) -> Result<(), Fail> {
    for step in steps {
        goes(rt, game, *step)?;
    }
    Ok(())
}

// Opens a game of at most so many half-moves on a board, and takes these steps.
fn game_goes_on<B: Board + Drop>(
    rt: &impl Abort,
    alloc: Global,
    board: B,
    limit: u32,
    steps: &[Step],
) -> Result<(), Fail> {
    let mut game = opened(rt, alloc, board, limit)?;
    all_go(rt, &mut game, steps)
}

// The same in a game on the plain board, on the board of bit sets, and on the one whose hashes are all 0.
fn game_goes(rt: &impl Abort, alloc: Global, limit: u32, steps: &[Step]) -> Result<(), Fail> {
    game_goes_on(rt, alloc, Plain::new(), limit, steps)?;
    let tables = AttackTables::open(alloc)?;
    game_goes_on(rt, alloc, Bits::new(&tables), limit, steps)?;
    game_goes_on(rt, alloc, zero_hash_board(&Calls::none()), limit, steps)
}

// The FEN of the initial position.
const INITIAL: &[u8] = b"rnbqkbnr/pppppppp/8/8/8/8/PPPPPPPP/RNBQKBNR w KQkq - 0 1";

// Starts, and the verdict on each.
const STARTS: [(&[u8], Option<Verdict>); 24] = [
    // The order: mate and stalemate before the rest, bare material before 75 moves.
    (b"7k/6Q1/6K1/8/8/8/8/8 b - - 0 1", Some(Verdict::WhiteMates)),
    (b"8/8/8/8/8/6k1/6q1/7K w - - 0 1", Some(Verdict::BlackMates)),
    (
        b"R6k/8/6K1/8/8/8/8/8 b - - 150 200",
        Some(Verdict::WhiteMates),
    ),
    (b"7k/5Q2/6K1/8/8/8/8/8 b - - 0 1", Some(Verdict::Stalemate)),
    (
        b"7k/5Q2/6K1/8/8/8/8/8 b - - 150 200",
        Some(Verdict::Stalemate),
    ),
    (b"k7/8/1K1B4/8/8/8/8/8 b - - 0 1", Some(Verdict::Stalemate)),
    (
        b"4k3/8/8/8/8/8/8/4K3 w - - 150 100",
        Some(Verdict::InsufficientMaterial),
    ),
    (
        b"4k3/8/8/8/8/8/8/R3K3 w - - 150 100",
        Some(Verdict::SeventyFiveMoves),
    ),
    (b"4k3/8/8/8/8/8/8/R3K3 w - - 149 100", None),
    // No piece; one bishop or knight; bishops on squares of one colour.
    (
        b"4k3/8/8/8/8/8/8/4K3 w - - 0 1",
        Some(Verdict::InsufficientMaterial),
    ),
    (
        b"8/8/4k3/8/8/3BK3/8/8 w - - 0 1",
        Some(Verdict::InsufficientMaterial),
    ),
    (
        b"8/8/4k3/8/8/3NK3/8/8 w - - 0 1",
        Some(Verdict::InsufficientMaterial),
    ),
    (
        b"8/8/3nk3/8/8/4K3/8/8 w - - 0 1",
        Some(Verdict::InsufficientMaterial),
    ),
    (
        b"4kb2/8/8/8/8/8/8/2B1K3 w - - 0 1",
        Some(Verdict::InsufficientMaterial),
    ),
    (
        b"4k3/8/8/8/8/4B3/8/2B1K3 w - - 0 1",
        Some(Verdict::InsufficientMaterial),
    ),
    (
        b"4kb2/8/8/8/8/4B3/8/2B1K3 w - - 0 1",
        Some(Verdict::InsufficientMaterial),
    ),
    // Bishops on squares of both colours, two knights, a knight and a bishop; a pawn, a rook, a queen.
    (b"2b1k3/8/8/8/8/8/8/2B1K3 w - - 0 1", None),
    (b"4k3/8/8/8/8/8/8/2B1KB2 w - - 0 1", None),
    (b"4k3/8/8/8/8/8/8/1N2K1N1 w - - 0 1", None),
    (b"1n2k3/8/8/8/8/8/8/1N2K3 w - - 0 1", None),
    (b"1n2k3/8/8/8/8/8/8/2B1K3 w - - 0 1", None),
    (b"4k3/8/8/8/8/8/4P3/4K3 w - - 0 1", None),
    (b"4k3/8/8/8/8/8/8/R3K3 w - - 0 1", None),
    (b"4k3/8/8/8/8/8/8/Q3K3 w - - 0 1", None),
];

// What may be claimed: nothing, one of the two draws, or both.
const NONE: Claims = Claims {
    threefold: false,
    fifty_moves: false,
};

const THREEFOLD: Claims = Claims {
    threefold: true,
    fifty_moves: false,
};

const FIFTY_MOVES: Claims = Claims {
    threefold: false,
    fifty_moves: true,
};

const BOTH: Claims = Claims {
    threefold: true,
    fifty_moves: true,
};

/// A start, moves from there, and what the game returns after them: the verdict, how often the position has occurred,
/// the halfmove clock, and what may be claimed.
struct PlayedLine {
    start: &'static [u8],
    moves: &'static [u8],
    verdict: Option<Verdict>,
    repetitions: u32,
    halfmove: u32,
    claims: Claims,
}

// Lines that lead to repetitions, to 50 and 75 moves and to mate, or nearly.
const LINES: [PlayedLine; 27] = [
    // The third, the fourth and the fifth time.
    PlayedLine {
        start: b"rnbqkbnr/pppppppp/8/8/8/8/PPPPPPPP/RNBQKBNR w KQkq - 0 1",
        moves: b"g1f3 g8f6 f3g1 f6g8 g1f3 g8f6 f3g1 f6g8",
        verdict: None,
        repetitions: 3,
        halfmove: 8,
        claims: THREEFOLD,
    },
    PlayedLine {
        start: b"rnbqkbnr/pppppppp/8/8/8/8/PPPPPPPP/RNBQKBNR w KQkq - 0 1",
        moves: b"g1f3 g8f6 f3g1 f6g8 g1f3 g8f6 f3g1 f6g8 g1f3 g8f6 f3g1 f6g8",
        verdict: None,
        repetitions: 4,
        halfmove: 12,
        claims: THREEFOLD,
    },
    PlayedLine {
        start: b"rnbqkbnr/pppppppp/8/8/8/8/PPPPPPPP/RNBQKBNR w KQkq - 0 1",
        moves: b"g1f3 g8f6 f3g1 f6g8 g1f3 g8f6 f3g1 f6g8 g1f3 g8f6 f3g1 f6g8 g1f3 g8f6 f3g1",
        verdict: None,
        repetitions: 4,
        halfmove: 15,
        claims: THREEFOLD,
    },
    PlayedLine {
        start: b"rnbqkbnr/pppppppp/8/8/8/8/PPPPPPPP/RNBQKBNR w KQkq - 0 1",
        moves: b"g1f3 g8f6 f3g1 f6g8 g1f3 g8f6 f3g1 f6g8 g1f3 g8f6 f3g1 f6g8 g1f3 g8f6 f3g1 f6g8",
        verdict: Some(Verdict::FivefoldRepetition),
        repetitions: 5,
        halfmove: 16,
        claims: THREEFOLD,
    },
    // The clock goes on from the start's; the fifth time before 75 moves, and the fourth.
    PlayedLine {
        start: b"rnbqkbnr/pppppppp/8/8/8/8/PPPPPPPP/RNBQKBNR w KQkq - 92 50",
        moves: b"g1f3 g8f6 f3g1 f6g8 g1f3 g8f6 f3g1 f6g8",
        verdict: None,
        repetitions: 3,
        halfmove: 100,
        claims: BOTH,
    },
    PlayedLine {
        start: b"rnbqkbnr/pppppppp/8/8/8/8/PPPPPPPP/RNBQKBNR w KQkq - 134 80",
        moves: b"g1f3 g8f6 f3g1 f6g8 g1f3 g8f6 f3g1 f6g8 g1f3 g8f6 f3g1 f6g8 g1f3 g8f6 f3g1 f6g8",
        verdict: Some(Verdict::FivefoldRepetition),
        repetitions: 5,
        halfmove: 150,
        claims: BOTH,
    },
    PlayedLine {
        start: b"rnbqkbnr/pppppppp/8/8/8/8/PPPPPPPP/RNBQKBNR w KQkq - 135 80",
        moves: b"g1f3 g8f6 f3g1 f6g8 g1f3 g8f6 f3g1 f6g8 g1f3 g8f6 f3g1 f6g8 g1f3 g8f6 f3g1",
        verdict: Some(Verdict::SeventyFiveMoves),
        repetitions: 4,
        halfmove: 150,
        claims: BOTH,
    },
    // A target on which nobody may capture makes no difference: no pawn is beside it, also after a move that set it; a
    // pin.
    PlayedLine {
        start: b"rnbqkbnr/pppppppp/8/8/4P3/8/PPPP1PPP/RNBQKBNR b KQkq e3 0 1",
        moves: b"g8f6 g1f3 f6g8 f3g1",
        verdict: None,
        repetitions: 2,
        halfmove: 4,
        claims: NONE,
    },
    PlayedLine {
        start: b"rnbqkbnr/pppppppp/8/8/8/8/PPPPPPPP/RNBQKBNR w KQkq - 0 1",
        moves: b"e2e4 g8f6 g1f3 f6g8 f3g1",
        verdict: None,
        repetitions: 2,
        halfmove: 4,
        claims: NONE,
    },
    PlayedLine {
        start: b"3k4/8/8/8/3pP3/8/8/3RK3 b - e3 0 1",
        moves: b"d8c8 e1e2 c8d8 e2e1",
        verdict: None,
        repetitions: 2,
        halfmove: 4,
        claims: NONE,
    },
    // Games on which programs differ: the third time counts the position after a double advance that nobody could
    // answer en passant; the capturing pawn would uncover its king along the rank.
    PlayedLine {
        start: b"rnbqkbnr/pppppppp/8/8/8/8/PPPPPPPP/RNBQKBNR w KQkq - 0 1",
        moves: b"a2a4 b7b5 h2h3 g8h6 b1c3 h6g8 e2e3 g8h6 d2d4 g7g6 a4a5 e7e5 d1f3 b8a6 f3d1 a6b8 d1f3 h6f5 f3d1 f5h6",
        verdict: None,
        repetitions: 3,
        halfmove: 8,
        claims: THREEFOLD,
    },
    PlayedLine {
        start: b"7k/8/8/K2pP2r/8/8/8/8 w - d6 0 1",
        moves: b"a5a4 h8g8 a4a5 g8h8 a5a4 h8g8 a4a5 g8h8",
        verdict: None,
        repetitions: 3,
        halfmove: 8,
        claims: THREEFOLD,
    },
    // A capture on the target was possible once, and never again.
    PlayedLine {
        start: b"4k3/8/8/8/3pP3/8/8/4K3 b - e3 0 1",
        moves: b"e8d8 e1d1 d8e8 d1e1",
        verdict: None,
        repetitions: 1,
        halfmove: 4,
        claims: NONE,
    },
    PlayedLine {
        start: b"4k3/8/8/8/3pP3/8/8/4K3 b - e3 0 1",
        moves: b"e8d8 e1d1 d8e8 d1e1 e8d8 e1d1 d8e8 d1e1",
        verdict: None,
        repetitions: 2,
        halfmove: 8,
        claims: NONE,
    },
    // A right that is lost makes another position.
    PlayedLine {
        start: b"4k3/8/8/8/8/8/8/R3K3 w Q - 0 1",
        moves: b"a1a2 e8e7 a2a1 e7e8",
        verdict: None,
        repetitions: 1,
        halfmove: 4,
        claims: NONE,
    },
    PlayedLine {
        start: b"4k3/8/8/8/8/8/8/R3K3 w Q - 0 1",
        moves: b"a1a2 e8e7 a2a1 e7e8 a1a2 e8e7 a2a1 e7e8",
        verdict: None,
        repetitions: 2,
        halfmove: 8,
        claims: NONE,
    },
    // The same pieces with the other side on move are another position; like pieces on each other's squares are not.
    PlayedLine {
        start: b"4k3/8/8/8/8/8/8/R3K3 w - - 0 1",
        moves: b"e1d1 e8d8 d1d2 d8e8 d2e1",
        verdict: None,
        repetitions: 1,
        halfmove: 5,
        claims: NONE,
    },
    PlayedLine {
        start: b"4k3/8/8/8/8/8/8/RR2K3 w - - 0 1",
        moves: b"a1a2 e8e7 b1a1 e7e8 a2b2 e8e7 b2b1 e7e8",
        verdict: None,
        repetitions: 2,
        halfmove: 8,
        claims: NONE,
    },
    // 50 and 75 moves; mate comes first, a pawn move and a capture begin anew.
    PlayedLine {
        start: b"4k3/8/8/8/8/8/8/R3K3 w - - 99 80",
        moves: b"",
        verdict: None,
        repetitions: 1,
        halfmove: 99,
        claims: NONE,
    },
    PlayedLine {
        start: b"4k3/8/8/8/8/8/8/R3K3 w - - 99 80",
        moves: b"a1a2",
        verdict: None,
        repetitions: 1,
        halfmove: 100,
        claims: FIFTY_MOVES,
    },
    PlayedLine {
        start: b"4k3/8/8/8/8/8/8/R3K3 w - - 148 80",
        moves: b"a1a2",
        verdict: None,
        repetitions: 1,
        halfmove: 149,
        claims: FIFTY_MOVES,
    },
    PlayedLine {
        start: b"4k3/8/8/8/8/8/8/R3K3 w - - 149 80",
        moves: b"a1a2",
        verdict: Some(Verdict::SeventyFiveMoves),
        repetitions: 1,
        halfmove: 150,
        claims: FIFTY_MOVES,
    },
    PlayedLine {
        start: b"7k/8/6K1/8/8/8/8/R7 w - - 149 200",
        moves: b"a1a8",
        verdict: Some(Verdict::WhiteMates),
        repetitions: 1,
        halfmove: 150,
        claims: FIFTY_MOVES,
    },
    PlayedLine {
        start: b"4k3/8/8/8/8/8/4P3/4K3 w - - 149 80",
        moves: b"e2e3",
        verdict: None,
        repetitions: 1,
        halfmove: 0,
        claims: NONE,
    },
    PlayedLine {
        start: b"4k3/8/8/8/8/8/4p3/4K3 w - - 149 80",
        moves: b"e1e2",
        verdict: Some(Verdict::InsufficientMaterial),
        repetitions: 1,
        halfmove: 0,
        claims: NONE,
    },
    // Mate by Black, and by White: 1. e4 e5 2. Bc4 Nc6 3. Qh5 Nf6 4. Qxf7#.
    PlayedLine {
        start: b"rnbqkbnr/pppppppp/8/8/8/8/PPPPPPPP/RNBQKBNR w KQkq - 0 1",
        moves: b"f2f3 e7e5 g2g4 d8h4",
        verdict: Some(Verdict::BlackMates),
        repetitions: 1,
        halfmove: 1,
        claims: NONE,
    },
    PlayedLine {
        start: b"rnbqkbnr/pppppppp/8/8/8/8/PPPPPPPP/RNBQKBNR w KQkq - 0 1",
        moves: b"e2e4 e7e5 f1c4 b8c6 d1h5 g8f6 h5f7",
        verdict: Some(Verdict::WhiteMates),
        repetitions: 1,
        halfmove: 0,
        claims: NONE,
    },
];

// The outcome that this verdict, or none, gives where nothing was declared.
fn undeclared(verdict: Option<Verdict>) -> Outcome {
    match verdict {
        None => Outcome::Unfinished,
        Some(Verdict::WhiteMates) => Outcome::WhiteWins,
        Some(Verdict::BlackMates) => Outcome::BlackWins,
        Some(_) => Outcome::Draw,
    }
}

// Why a game is over, its outcome, whether it is over, and how often its position has occurred.
fn ending<B: Board>(game: &Game<B>) -> (Option<Verdict>, Outcome, bool, u32) {
    (
        game.verdict(),
        game.outcome(),
        game.is_over(),
        game.repetitions(),
    )
}

// Asserts how a game without a declared result ends, by this verdict or not at all, and how often its position has
// occurred. `place`, the start or the moves, is shown if that fails.
fn ends_by<B: Board>(
    rt: &impl Abort,
    game: &Game<B>,
    place: &[u8],
    verdict: Option<Verdict>,
    repetitions: u32,
) {
    is_equal_at(rt, place, &verdict_of_moving(game), &verdict);
    is_equal_at(
        rt,
        place,
        &ending(game),
        &(verdict, undeclared(verdict), verdict.is_some(), repetitions),
    );
}

// Begins at a start, and asserts the verdict there.
fn check_start<B: Board>(
    rt: &impl Abort,
    game: &mut Game<B>,
    start: &[u8],
    verdict: Option<Verdict>,
) -> Result<(), Fail> {
    restart(game, start)?;
    ends_by(rt, game, start, verdict, 1);
    Ok(())
}

// Asserts the halfmove clock and what may be claimed; a failure shows the moves.
fn may_claim<B: Board>(
    rt: &impl Abort,
    game: &Game<B>,
    moves: &[u8],
    halfmove: u32,
    claims: Claims,
) {
    is_equal_at(
        rt,
        moves,
        &(game.position().setup().halfmove, game.claims()),
        &(halfmove, claims),
    );
}

// Plays a line, and asserts all that it has.
fn check_line<B: Board>(
    rt: &impl Abort,
    game: &mut Game<B>,
    line: &PlayedLine,
) -> Result<(), Fail> {
    restart(game, line.start)?;
    play_all(game, line.moves)?;
    ends_by(rt, game, line.moves, line.verdict, line.repetitions);
    may_claim(rt, game, line.moves, line.halfmove, line.claims);
    Ok(())
}

// Checks each start.
fn check_starts<B: Board>(
    rt: &impl Abort,
    game: &mut Game<B>,
    starts: &[(&[u8], Option<Verdict>)],
) -> Result<(), Fail> {
    for start in starts {
        check_start(rt, game, start.0, start.1)?;
    }
    Ok(())
}

// Checks each line.
fn check_lines<B: Board>(
    rt: &impl Abort,
    game: &mut Game<B>,
    lines: &[PlayedLine],
) -> Result<(), Fail> {
    for line in lines {
        check_line(rt, game, line)?;
    }
    Ok(())
}

// Checks all starts and lines in one game on this board.
fn check_ends<B: Board + Drop>(rt: &impl Abort, alloc: Global, board: B) -> Result<(), Fail> {
    let mut game = opened(rt, alloc, board, 100)?;
    check_starts(rt, &mut game, &STARTS)?;
    check_lines(rt, &mut game, &LINES)
}

// Verdicts, repetitions, clocks and claims are the same on all three boards.
#[test]
fn ends_and_claims(rt: HostRuntime) -> Result<(), Fail> {
    check_ends(&rt, rt.alloc(), Plain::new())?;
    let tables = AttackTables::open(rt.alloc())?;
    check_ends(&rt, rt.alloc(), Bits::new(&tables))?;
    check_ends(&rt, rt.alloc(), zero_hash_board(&Calls::none()))
}

// Fool's mate, then what is refused and what may be declared, and the last move taken back.
const MATE: &[Step] = &[
    Step::PlaysAll(b"f2f3 e7e5 g2g4 d8h4"),
    Step::IsRefused(b"a2a3", PlayRefusal::Over),
    Step::IsNotDeclared(Outcome::WhiteWins),
    Step::IsNotDeclared(Outcome::Draw),
    Step::IsNotDeclared(Outcome::Unfinished),
    Step::IsDeclared(Outcome::BlackWins, b"mate"),
    Step::Is(State::Says(Outcome::BlackWins, b"mate")),
    Step::ClearsDeclared,
    Step::Is(State::SaysNothing),
    Step::Is(State::IsOver),
    Step::Is(State::HasOutcome(Outcome::BlackWins)),
    Step::Is(State::HasPly(4)),
    Step::IsTakenBack(b"d8h4"),
    Step::Is(State::HasVerdict(None)),
    Step::Is(State::HasOutcome(Outcome::Unfinished)),
    Step::IsPlayed(b"d8e7"),
];

// 1. f3 e5 2. g4 Qh4#. The game is over until its last move is taken back, whatever is declared.
#[test]
fn mate_overrules_declared_results(rt: HostRuntime) -> Result<(), Fail> {
    game_goes(&rt, rt.alloc(), 100, MATE)
}

// A result is declared and ends the game; others take its place, and it is cleared.
const RESULTS: &[Step] = &[
    Step::IsDeclared(Outcome::Draw, b"a{b}c"),
    Step::Is(State::Says(Outcome::Draw, b"a?b?c")),
    Step::Is(State::HasVerdict(None)),
    Step::Is(State::HasOutcome(Outcome::Draw)),
    Step::IsRefused(b"e2e4", PlayRefusal::Over),
    // What is declared anew takes its place. A game that was given up is over too.
    Step::IsDeclared(Outcome::Unfinished, b""),
    Step::Is(State::Says(Outcome::Unfinished, b"")),
    Step::Is(State::HasOutcome(Outcome::Unfinished)),
    Step::Is(State::IsOver),
    Step::IsRefused(b"e2e4", PlayRefusal::Over),
    // No move is current that could be taken back, so the result stays.
    Step::HasNoMove,
    Step::Is(State::Says(Outcome::Unfinished, b"")),
    Step::ClearsDeclared,
    Step::Is(State::GoesOn),
    Step::IsPlayed(b"e2e4"),
    // A move that is taken back, and a new start, clear the result.
    Step::IsDeclared(Outcome::WhiteWins, b"Black resigns"),
    Step::IsTakenBack(b"e2e4"),
    Step::Is(State::SaysNothing),
    Step::DeclaresOpen(Outcome::BlackWins, b"White resigns"),
    Step::Is(State::Says(Outcome::BlackWins, b"White resigns")),
    Step::RestartsInitial,
    Step::Is(State::SaysNothing),
    Step::Is(State::HasOutcome(Outcome::Unfinished)),
];

#[test]
fn declared_results_end_the_game(rt: HostRuntime) -> Result<(), Fail> {
    game_goes(&rt, rt.alloc(), 100, RESULTS)
}

// The knights go out and back until the position is there for the third time, and then for the fifth.
const FIVE_TIMES: &[Step] = &[
    Step::PlaysAll(b"g1f3 g8f6 f3g1 f6g8 g1f3 g8f6 f3g1 f6g8"),
    Step::Is(State::HasClaims(THREEFOLD)),
    Step::IsDeclared(Outcome::Draw, b"Threefold repetition"),
    Step::IsRefused(b"g1f3", PlayRefusal::Over),
    Step::ClearsDeclared,
    Step::PlaysAll(b"g1f3 g8f6 f3g1 f6g8 g1f3 g8f6 f3g1 f6g8"),
    Step::Is(State::HasVerdict(Some(Verdict::FivefoldRepetition))),
    Step::IsRefused(b"e2e4", PlayRefusal::Over),
    Step::IsTakenBack(b"f6g8"),
    Step::Is(State::HasPly(15)),
    Step::Is(State::HasVerdict(None)),
    Step::Is(State::HasRepetitions(4)),
    Step::Is(State::HasClock(15)),
    Step::Is(State::HasClaims(THREEFOLD)),
];

// A draw claimed at the third time ends the game; without the claim it goes on to the fifth time, which is a verdict
// until the last move is taken back.
#[test]
fn fifth_time_is_taken_back(rt: HostRuntime) -> Result<(), Fail> {
    game_goes(&rt, rt.alloc(), 100, FIVE_TIMES)
}

// Repetitions in a game that begins anew. On the board whose hashes are all 0, all positions are in one bucket of the
// game's table.
const RESTARTED: &[Step] = &[
    Step::PlaysAll(b"g1f3 g8f6 f3g1 f6g8 g1f3 g8f6 f3g1 f6g8"),
    Step::Is(State::HasRepetitions(3)),
    // Nothing is left of the positions of a game that begins anew, at the same start or at another.
    Step::RestartsInitial,
    Step::Is(State::HasRepetitions(1)),
    Step::PlaysAll(b"g1f3 g8f6"),
    Step::Is(State::HasRepetitions(1)),
    Step::PlaysAll(b"f3g1 f6g8"),
    Step::Is(State::HasRepetitions(2)),
    Step::Restarts(AFTER_NG1),
    Step::Is(State::HasRepetitions(1)),
    Step::PlaysAll(b"g8f6 g1f3 f6g8"),
    Step::Is(State::HasRepetitions(1)),
    // What is taken back is counted no more.
    Step::PlaysAll(b"f3g1"),
    Step::Is(State::HasRepetitions(2)),
    Step::IsTakenBack(b"f3g1"),
    Step::Is(State::HasRepetitions(1)),
    Step::PlaysAll(b"f3g1 g8f6"),
    Step::Is(State::HasRepetitions(2)),
    Step::IsTakenBack(b"g8f6"),
    Step::IsTakenBack(b"f3g1"),
    Step::IsTakenBack(b"f6g8"),
    Step::IsTakenBack(b"g1f3"),
    Step::Is(State::HasRepetitions(1)),
    Step::PlaysAll(b"g1f3 f6g8 f3g1"),
    Step::Is(State::HasRepetitions(2)),
];

// What occurred before a new start, or was taken back, isn't counted.
#[test]
fn a_game_that_begins_anew_counts_anew(rt: HostRuntime) -> Result<(), Fail> {
    game_goes(&rt, rt.alloc(), 100, RESTARTED)
}

// A game of at most three half-moves, and what it refuses when it is full.
const THREE_MOVES: &[Step] = &[
    Step::IsRefused(b"e2e5", PlayRefusal::Illegal),
    Step::PlaysAll(b"e2e4 e7e5"),
    Step::Is(State::HasRoom),
    Step::IsPlayed(b"g1f3"),
    Step::Is(State::IsFull),
    Step::Is(State::GoesOn),
    Step::IsRefused(b"b8c6", PlayRefusal::TooLong),
    Step::IsRefused(b"a1a1", PlayRefusal::TooLong),
    Step::IsDeclared(Outcome::Unfinished, b"Game too long"),
    Step::IsRefused(b"b8c6", PlayRefusal::Over),
    Step::IsTakenBack(b"g1f3"),
    Step::IsPlayed(b"g1e2"),
    Step::IsRefused(b"b8c6", PlayRefusal::TooLong),
    Step::RestartsInitial,
    Step::Is(State::HasRoom),
];

// Of the reasons to refuse a move, that the game is over comes first, then that it is full, and then that the move is
// illegal.
#[test]
fn no_more_moves_than_the_limit(rt: HostRuntime) -> Result<(), Fail> {
    game_goes(&rt, rt.alloc(), 3, THREE_MOVES)
}

// The start of the line below, and the position after each of its four half-moves.
const AFTER_E4: &[u8] = b"rnbqkbnr/pppppppp/8/8/4P3/8/PPPP1PPP/RNBQKBNR b KQkq e3 0 1";

const AFTER_NF6: &[u8] = b"rnbqkb1r/pppppppp/5n2/8/4P3/8/PPPP1PPP/RNBQKBNR w KQkq - 1 2";

const AFTER_NF3: &[u8] = b"rnbqkb1r/pppppppp/5n2/8/4P3/5N2/PPPP1PPP/RNBQKB1R b KQkq - 2 2";

const AFTER_NG8: &[u8] = b"rnbqkbnr/pppppppp/8/8/4P3/5N2/PPPP1PPP/RNBQKB1R w KQkq - 3 3";

const AFTER_NG1: &[u8] = b"rnbqkbnr/pppppppp/8/8/4P3/8/PPPP1PPP/RNBQKBNR b KQkq - 4 3";

// The line, and what its positions and moves are by their numbers.
const LINE: &[Step] = &[
    Step::HasNoMove,
    Step::Restarts(AFTER_E4),
    Step::PlaysAll(b"g8f6 g1f3 f6g8 f3g1"),
    Step::Is(State::HasPly(4)),
    Step::Is(State::PositionAt(0, AFTER_E4)),
    Step::Is(State::PositionAt(1, AFTER_NF6)),
    Step::Is(State::PositionAt(2, AFTER_NF3)),
    Step::Is(State::PositionAt(3, AFTER_NG8)),
    Step::Is(State::PositionAt(4, AFTER_NG1)),
    Step::Is(State::MoveAt(0, b"g8f6")),
    Step::Is(State::MoveAt(3, b"f3g1")),
    Step::Is(State::StartsAt(AFTER_E4)),
    Step::Is(State::IsAt(AFTER_NG1)),
    Step::Is(State::BoardIsAt(AFTER_NG1)),
    Step::IsTakenBack(b"f3g1"),
    Step::Is(State::IsAt(AFTER_NG8)),
];

// A game gives the position after each half-move, and each move.
#[test]
fn positions_of_a_line(rt: HostRuntime) -> Result<(), Fail> {
    game_goes(&rt, rt.alloc(), 100, LINE)
}

// Positions of Chess960 with White and with Black on move.
const WHITE_IN_960: &[u8] = b"bqnb1rkr/pp3ppp/3ppn2/2p5/5P2/P2P4/NPP1P1PP/BQ1BNRKR w HFhf - 2 9";

const BLACK_IN_960: &[u8] = b"bqnb1rkr/pp3ppp/3ppn2/2p5/5P2/P2P3P/NPP1P1P1/BQ1BNRKR b HFhf - 0 9";

// Starts of both variants with each side on move, and moves from there.
const FIRST_SIDES: &[Step] = &[
    Step::Is(State::StartsIn(Variant::Normal, Colour::White)),
    Step::IsPlayed(b"e2e4"),
    Step::Is(State::StartsIn(Variant::Normal, Colour::White)),
    Step::Restarts(AFTER_E4),
    Step::Is(State::StartsIn(Variant::Normal, Colour::Black)),
    Step::Restarts960(WHITE_IN_960),
    Step::IsPlayed(b"h2h3"),
    Step::Is(State::StartsIn(Variant::Fischerandom, Colour::White)),
    Step::Restarts960(BLACK_IN_960),
    Step::Is(State::StartsIn(Variant::Fischerandom, Colour::Black)),
    Step::RestartsInitial,
    Step::Is(State::StartsIn(Variant::Normal, Colour::White)),
];

// The variant and the side that moves first are those of the start, whoever is on move.
#[test]
fn variant_and_first_side_of_a_start(rt: HostRuntime) -> Result<(), Fail> {
    game_goes(&rt, rt.alloc(), 100, FIRST_SIDES)
}

// What a game is to return when it has just been opened.
const AT_FIRST: &[Step] = &[
    Step::Is(State::IsAt(INITIAL)),
    Step::Is(State::StartsAt(INITIAL)),
    Step::Is(State::HasPly(0)),
    Step::Is(State::HasVerdict(None)),
    Step::Is(State::SaysNothing),
    Step::Is(State::HasRoom),
];

// Opens a game on a board that is at another position, and asserts that it is at the initial one.
fn game_opens<B: Board + Drop>(rt: &impl Abort, alloc: Global, mut board: B) -> Result<(), Fail> {
    board.set(&read_fen(b"4k3/8/8/8/8/8/8/R3K3 w - - 99 80")?);
    game_goes_on(rt, alloc, board, 20_000, AT_FIRST)
}

// A board that was elsewhere is at the initial position once a game has it.
#[test]
fn game_opens_at_the_initial_position(rt: HostRuntime) -> Result<(), Fail> {
    game_opens(&rt, rt.alloc(), Plain::new())?;
    let tables = AttackTables::open(rt.alloc())?;
    game_opens(&rt, rt.alloc(), Bits::new(&tables))
}

// A pawn must be promoted, here to a knight, which leaves too few pieces to mate.
const PROMOTION: &[Step] = &[
    Step::Restarts(b"8/4P3/8/8/8/2k5/8/4K3 w - - 0 1"),
    Step::IsRefused(b"e7e8", PlayRefusal::Illegal),
    Step::IsPromotedToAKnight(b"e7e8"),
    Step::Is(State::HasVerdict(Some(Verdict::InsufficientMaterial))),
];

// King and knight against a king are a draw.
#[test]
fn promotion_to_a_knight_leaves_too_few_pieces(rt: HostRuntime) -> Result<(), Fail> {
    game_goes(&rt, rt.alloc(), 100, PROMOTION)
}

// Asserts how often `set`, `make` and `take_back` were called since the last time.
fn were_called(rt: &impl Abort, calls: &Calls, times: (u32, u32, u32)) {
    is_equal(rt, &calls.since(), &times);
}

// Asserts that a move is refused.
fn is_refused_again<B: Board>(rt: &impl Abort, game: &mut Game<B>, squares: &[u8; 4]) {
    assert!(rt; play(game, squares).is_err());
}

// A move is played by one `make` of the board. Asked for at once again it is refused, and the board isn't changed.
fn is_made_once(
    rt: &impl Abort,
    game: &mut Game<ZeroHashBoard<'_>>,
    calls: &Calls,
    squares: &[u8; 4],
) {
    is_played(rt, game, squares);
    were_called(rt, calls, (0, 1, 0));
    is_refused_again(rt, game, squares);
    were_called(rt, calls, (0, 0, 0));
}

// A move is taken back by one `take_back` of the board.
fn is_taken_back_once(
    rt: &impl Abort,
    game: &mut Game<ZeroHashBoard<'_>>,
    calls: &Calls,
    squares: &[u8; 4],
) {
    is_taken_back(rt, game, squares);
    were_called(rt, calls, (0, 0, 1));
}

// Plays these moves so.
fn are_made_once(
    rt: &impl Abort,
    game: &mut Game<ZeroHashBoard<'_>>,
    calls: &Calls,
    moves: &[&[u8; 4]],
) {
    for squares in moves {
        is_made_once(rt, game, calls, squares);
    }
}

// Takes these moves back so, the last one first.
fn are_taken_back_once(
    rt: &impl Abort,
    game: &mut Game<ZeroHashBoard<'_>>,
    calls: &Calls,
    moves: &[&[u8; 4]],
) {
    for squares in moves.iter().rev() {
        is_taken_back_once(rt, game, calls, squares);
    }
}

// What is asked of a game after MOVES: none of it calls `set`, `make` or `take_back`.
const ASKED: &[Step] = &[
    Step::Is(State::HasRepetitions(1)),
    Step::Is(State::HasPly(9)),
    Step::Is(State::PositionAt(
        8,
        b"rnbqkbnr/pppppppp/8/8/8/8/PPPPPPPP/RNBQKBNR w KQkq - 8 5",
    )),
    Step::IsDeclared(Outcome::Draw, b"x"),
    Step::IsRefused(b"e7e5", PlayRefusal::Over),
];

// The knights go out and back twice, and then the pawn to e4.
const MOVES: [&[u8; 4]; 9] = [
    b"g1f3", b"g8f6", b"f3g1", b"f6g8", b"g1f3", b"g8f6", b"f3g1", b"f6g8", b"e2e4",
];

// A game sets its board when it opens and begins anew, and then makes and takes back each move once: nothing is
// replayed.
#[test]
fn each_move_is_made_once(rt: HostRuntime) -> Result<(), Fail> {
    let calls = Calls::none();
    let mut game = opened(&rt, rt.alloc(), zero_hash_board(&calls), 9)?;
    were_called(&rt, &calls, (1, 0, 0));
    restart(&mut game, INITIAL)?;
    were_called(&rt, &calls, (1, 0, 0));
    are_made_once(&rt, &mut game, &calls, &MOVES);
    all_go(&rt, &mut game, ASKED)?;
    were_called(&rt, &calls, (0, 0, 0));
    are_taken_back_once(&rt, &mut game, &calls, &MOVES);
    has_no_move(&rt, &mut game);
    were_called(&rt, &calls, (0, 0, 0));
    Ok(())
}

// Asserts how often the hash was asked for since the last time.
fn was_asked(rt: &impl Abort, calls: &Calls, times: u32) {
    is_equal(rt, &calls.hashes_since(), &times);
}

// A game asks its board for the hash once where a move is played, and not where one is refused.
fn is_asked_for_its_hash_once(
    rt: &impl Abort,
    game: &mut Game<ZeroHashBoard<'_>>,
    calls: &Calls,
    squares: &[u8; 4],
) {
    is_played(rt, game, squares);
    was_asked(rt, calls, 1);
    is_refused_again(rt, game, squares);
    was_asked(rt, calls, 0);
}

// Plays these moves so.
fn are_asked_for_their_hashes_once(
    rt: &impl Abort,
    game: &mut Game<ZeroHashBoard<'_>>,
    calls: &Calls,
    moves: &[&[u8; 4]],
) {
    for squares in moves {
        is_asked_for_its_hash_once(rt, game, calls, squares);
    }
}

// Takes these moves back, the last one first.
fn are_taken_back<B: Board>(rt: &impl Abort, game: &mut Game<B>, moves: &[&[u8; 4]]) {
    for squares in moves.iter().rev() {
        is_taken_back(rt, game, squares);
    }
}

// What is asked of a game after eight of MOVES: none of it asks for a hash.
const NOT_ASKED: &[Step] = &[
    Step::Is(State::HasRepetitions(3)),
    Step::Is(State::HasClaims(THREEFOLD)),
    Step::Is(State::HasVerdict(None)),
    Step::Is(State::GoesOn),
];

// A game keeps the hashes of its positions: it asks for each once, when the position is reached, and not when moves are
// taken back.
#[test]
fn each_position_is_asked_for_its_hash_once(rt: HostRuntime) -> Result<(), Fail> {
    let calls = Calls::none();
    let mut game = opened(&rt, rt.alloc(), zero_hash_board(&calls), 9)?;
    was_asked(&rt, &calls, 1);
    restart(&mut game, INITIAL)?;
    was_asked(&rt, &calls, 1);
    let there_and_back = &MOVES[..8];
    are_asked_for_their_hashes_once(&rt, &mut game, &calls, there_and_back);
    all_go(&rt, &mut game, NOT_ASKED)?;
    are_taken_back(&rt, &mut game, there_and_back);
    has_repetitions(&rt, &game, 1);
    was_asked(&rt, &calls, 0);
    Ok(())
}

// Outcomes and their texts.
const OUTCOMES: [(Outcome, &[u8]); 4] = [
    (Outcome::WhiteWins, b"1-0"),
    (Outcome::BlackWins, b"0-1"),
    (Outcome::Draw, b"1/2-1/2"),
    (Outcome::Unfinished, b"*"),
];

// Verdicts, the text of the outcome of each, and its comment.
const VERDICTS: [(Verdict, &[u8], &[u8]); 6] = [
    (Verdict::WhiteMates, b"1-0", b"White mates"),
    (Verdict::BlackMates, b"0-1", b"Black mates"),
    (Verdict::Stalemate, b"1/2-1/2", b"Stalemate"),
    (
        Verdict::InsufficientMaterial,
        b"1/2-1/2",
        b"Insufficient material",
    ),
    (
        Verdict::FivefoldRepetition,
        b"1/2-1/2",
        b"Fivefold repetition",
    ),
    (Verdict::SeventyFiveMoves, b"1/2-1/2", b"75-move rule"),
];

// Asserts an outcome's text.
fn outcome_is_written(rt: &impl Abort, outcome: Outcome, text: &[u8]) {
    is_equal(rt, &outcome.text(), &text);
}

// Does so for each row.
fn outcomes_are_written(rt: &impl Abort, outcomes: &[(Outcome, &[u8])]) {
    for row in outcomes {
        outcome_is_written(rt, row.0, row.1);
    }
}

// Asserts a verdict's comment.
fn verdict_is_written(rt: &impl Abort, verdict: Verdict, comment: &[u8]) {
    is_equal(rt, &verdict.comment(), &comment);
}

// Asserts, for each row, the text of the verdict's outcome, and its comment.
fn verdicts_are_written(rt: &impl Abort, verdicts: &[(Verdict, &[u8], &[u8])]) {
    for row in verdicts {
        outcome_is_written(rt, row.0.outcome(), row.1);
        verdict_is_written(rt, row.0, row.2);
    }
}

// All outcomes and verdicts have their texts.
#[test]
fn results_are_written(rt: HostRuntime) {
    outcomes_are_written(&rt, &OUTCOMES);
    verdicts_are_written(&rt, &VERDICTS);
}

// An outcome, and a verdict in braces, as they are shown.
fn shown_result(alloc: Global) -> Result<String, Fail> {
    Ok(format!(in alloc; "{} {{{}}}", Outcome::WhiteWins, Verdict::WhiteMates)?)
}

// A refused move and a missing one, as they are shown.
fn shown_refusals(alloc: Global) -> Result<String, Fail> {
    Ok(format!(in alloc; "{}, {}", PlayRefusal::Illegal, NoMove)?)
}

// Outcomes and verdicts are shown by their texts, refusals in words.
#[test]
fn results_are_shown(rt: HostRuntime) -> Result<(), Fail> {
    let shown = shown_result(rt.alloc())?;
    is_equal(&rt, &shown.as_str(), &"1-0 {White mates}");
    let shown = shown_refusals(rt.alloc())?;
    is_equal(
        &rt,
        &shown.as_str(),
        &"the move is not legal, there is no move to take back",
    );
    Ok(())
}

// A text of 61 bytes, one more than a comment has, and its first 60.
const LONGER: &[u8] = b"zzzzzzzzzzzzzzzzzzzzzzzzzzzzzzzzzzzzzzzzzzzzzzzzzzzzzzzzzzzzy";

const SIXTY: &[u8] = b"zzzzzzzzzzzzzzzzzzzzzzzzzzzzzzzzzzzzzzzzzzzzzzzzzzzzzzzzzzzz";

// Texts, and the comment that `Comment::cut` makes of each: the first 60 bytes, with `?` for each brace and each byte
// that isn't printable ASCII.
const CUT: [(&[u8], &[u8]); 6] = [
    (b"", b""),
    (b"Black resigns", b"Black resigns"),
    (b"a{b}c", b"a?b?c"),
    (b"\x1f ~\x7f\x80\xc8\xff\0\n", b"? ~??????"),
    (SIXTY, SIXTY),
    (LONGER, SIXTY),
];

// Asserts that the comment made of `text` is `cut`.
fn is_cut(rt: &impl Abort, text: &[u8], cut: &[u8]) {
    is_equal_at(rt, text, &Comment::cut(text).as_bytes(), &cut);
}

// Asserts the comment of each row.
fn are_cut(rt: &impl Abort, texts: &[(&[u8], &[u8])]) {
    for text in texts {
        is_cut(rt, text.0, text.1);
    }
}

// Makes a comment of each text.
#[test]
fn comments_are_cut(rt: HostRuntime) {
    are_cut(&rt, &CUT);
}
