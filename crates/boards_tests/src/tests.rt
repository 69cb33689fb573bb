//! Both boards, Plain and Bits: lines counted by making and taking back, hashes, check and mate, and sets of squares.

ghost use Rattle.std.specs.Prelude.{◌≡◌, OnOk};

use chess_base::{Colour, Kind, Move, Position, Square, Variant};
use chess_bits::{AttackTables, Bits};
use chess_fen::{read_fen, read_fen_as};
use chess_moves::{Board, Plain, SquareSet, legal_moves, make_then_take_back};
use perft_positions::{FISCHERANDOM, KIWIPETE, NORMAL, Perft};
use std::fmt::Debug;
use std::process::Abort;
use std::test::Fail;

// Asserts that two values are equal. One function for all types, since an assertion for each costs much to prove.
fn is_equal<T: PartialEq + Debug>(rt: &impl Abort, found: &T, wanted: &T) {
    assert_eq!(rt; *found, *wanted);
}

// The fault of `lines` where a board is elsewhere once a move was made and taken back.
const LEFT_ELSEWHERE: &str = "taking back left another position";

/// How many lines of `depth` legal moves there are (perft). Moves are made and taken back, but for the last ones, which
/// are only counted; after each `take_back` the board must be at its position again.
fn lines<B: Board>(board: &mut B, depth: u32) -> Result<u64, &'static str>
    ensures { OnOk result (B.position board.new ≡ B.position board.old) }
{
    if depth <= 1 {
        return Ok(board.legal_move_count() as u64);
    }
    let before = board.position();
    let moves = board.legal_moves();
    let mut count: u64 = 0;
    for m in moves.as_slice() {
        let saved = board.make(*m);
        count = count.saturating_add(lines(board, depth - 1)?);
        board.take_back(*m, saved);
        if board.position() != before {
            return Err(LEFT_ELSEWHERE);
        }
    }
    Ok(count)
}

/// Counts the lines of 1 to `most` moves from the position of each row, which is read in this variant, and compares
/// them with the row's counts.
fn count<B: Board>(
    rt: &impl Abort,
    board: &mut B,
    variant: Variant,
    rows: &[Perft],
    most: u32,
) -> Result<(), Fail> {
    for row in rows {
        let start = read_fen_as(variant, row.fen).ok().ok_or("sound")?;
        board.set(&start);
        for (depth, wanted) in (1..=most).zip(row.lines) {
            is_equal(rt, &lines(board, depth)?, &wanted);
        }
        assert!(rt; board.position() == start);
    }
    Ok(())
}

// The plain board, of 64 squares, begins at the initial position, and counts all lines of up to three moves.
#[test]
fn plain_counts_lines_of_normal_chess(rt: HostRuntime) -> Result<(), Fail> {
    let mut board = Plain::new();
    assert!(rt; board.position() == Position::initial());
    count(&rt, &mut board, Variant::Normal, NORMAL.as_slice(), 3)
}

// The same in Chess960.
#[test]
fn plain_counts_lines_of_chess960(rt: HostRuntime) -> Result<(), Fail> {
    count(
        &rt,
        &mut Plain::new(),
        Variant::Fischerandom,
        FISCHERANDOM.as_slice(),
        3,
    )
}

// The board of bit sets begins at the initial position too, and counts all lines of up to four moves.
#[test]
fn bits_count_lines_of_normal_chess(rt: HostRuntime) -> Result<(), Fail> {
    let tables = AttackTables::open(rt.alloc()).ok().ok_or("memory")?;
    let mut board = Bits::new(&tables);
    assert!(rt; board.position() == Position::initial());
    count(&rt, &mut board, Variant::Normal, NORMAL.as_slice(), 4)
}

// The same in Chess960.
#[test]
fn bits_count_lines_of_chess960(rt: HostRuntime) -> Result<(), Fail> {
    let tables = AttackTables::open(rt.alloc()).ok().ok_or("memory")?;
    let mut board = Bits::new(&tables);
    count(
        &rt,
        &mut board,
        Variant::Fischerandom,
        FISCHERANDOM.as_slice(),
        4,
    )
}

// Each legal move of a position, made on a board, leads to what `Position::after` gives, and taking it back leads back.
#[test]
fn what_is_made_is_the_position_after(rt: HostRuntime) -> Result<(), Fail> {
    let kiwipete = read_fen(KIWIPETE).ok().ok_or("sound")?;
    let mut board = Plain::new();
    board.set(&kiwipete);
    let moves = board.legal_moves();
    for m in moves.as_slice() {
        assert!(rt; make_then_take_back(&mut board, *m) == kiwipete.after(*m));
    }
    assert!(rt; board.position() == kiwipete);
    Ok(())
}

// Positions and their hashes (a board's `word`), as another program gives them: all kinds of piece, either side on
// move, all rights, one and none. En passant target and counters are not in the hash.
const WORDS: [(&[u8], u64); 6] = [
    (
        b"rnbqkbnr/pppppppp/8/8/8/8/PPPPPPPP/RNBQKBNR w KQkq - 0 1",
        0xC530_A1B3_397D_F9C7,
    ),
    (
        b"rnbqkbnr/pppppppp/8/8/4P3/8/PPPP1PPP/RNBQKBNR b KQkq e3 0 1",
        0xFD99_E6A1_5C39_8DE6,
    ),
    (
        b"rnbqkbnr/pppppppp/8/8/4P3/8/PPPP1PPP/RNBQKBNR b KQkq - 7 9",
        0xFD99_E6A1_5C39_8DE6,
    ),
    (KIWIPETE, 0xA182_29D1_6000_F21F),
    (b"4k3/8/8/8/8/8/8/R3K3 b Q - 99 80", 0x4E61_D8CB_523A_68A0),
    (b"4k3/8/8/8/8/8/8/4K3 w - - 0 1", 0xD933_5A52_334C_2F4E),
];

/// Sets a board to each of these positions, and compares its hash.
fn tells_words<B: Board>(rt: &impl Abort, board: &mut B) -> Result<(), Fail> {
    for (fen, word) in &WORDS {
        board.set(&read_fen(fen).ok().ok_or("sound")?);
        assert_eq!(rt; board.word(), *word, "at {fen:?}");
    }
    Ok(())
}

/// Compares a board's hash after 1. e4 was made, and after it was taken back: the first two rows of WORDS.
fn tells_words_on_the_way<B: Board>(rt: &impl Abort, board: &mut B) -> Result<(), Fail> {
    board.set(&Position::initial());
    let m = Move {
        from: Square::new(12),
        to: Square::new(28),
        promotion: None,
    };
    // The prover wants a variable for each: the move is lent, given to be made, and given to be taken back.
    let judged = m;
    let again = m;
    if !board.is_legal(&judged) {
        return Err("e4 is legal".into());
    }
    let saved = board.make(m);
    is_equal(rt, &board.word(), &WORDS[1].1);
    board.take_back(again, saved);
    is_equal(rt, &board.word(), &WORDS[0].1);
    Ok(())
}

// Both boards have the hashes of WORDS, at positions that are set and at one that is reached by a move.
#[test]
fn hashes_are_those_counted_apart(rt: HostRuntime) -> Result<(), Fail> {
    tells_words(&rt, &mut Plain::new())?;
    tells_words_on_the_way(&rt, &mut Plain::new())?;
    let tables = AttackTables::open(rt.alloc()).ok().ok_or("memory")?;
    let mut bits = Bits::new(&tables);
    tells_words(&rt, &mut bits)?;
    tells_words_on_the_way(&rt, &mut bits)
}

// At the initial position there is no check, but a move; at fool's mate check and no move; at a stalemate neither.
#[test]
fn mate_is_check_without_a_move(rt: HostRuntime) -> Result<(), Fail> {
    let mate = b"rnb1kbnr/pppp1ppp/8/4p3/6Pq/5P2/PPPPP2P/RNBQKBNR w KQkq - 1 3".as_slice();
    let stalemate = b"7k/5Q2/6K1/8/8/8/8/8 b - - 0 1".as_slice();
    let mut board = Plain::new();
    assert!(rt; !board.in_check());
    assert!(rt; board.has_legal_move());
    board.set(&read_fen(mate).ok().ok_or("sound")?);
    assert!(rt; board.in_check());
    assert!(rt; !board.has_legal_move());
    board.set(&read_fen(stalemate).ok().ok_or("sound")?);
    assert!(rt; !board.in_check());
    assert!(rt; !board.has_legal_move());
    Ok(())
}

// The example at the head of chess_moves, which makes and takes back each legal move; it returns how many were made.
fn forward_and_back(position: &Position) -> usize {
    let mut board = Plain::new();
    board.set(position);
    let moves = board.legal_moves();
    let mut made: usize = 0;
    for m in moves.as_slice() {
        if board.is_legal(m) {
            let saved = board.make(*m);
            made = made.saturating_add(1);
            board.take_back(*m, saved);
        }
    }
    made
}

// The initial position has 20 legal moves, by the list that needs no board and by making each on one.
#[test]
fn moves_are_listed_without_a_board(rt: HostRuntime) {
    let start = Position::initial();
    assert!(rt; legal_moves(&start).len() == 20);
    assert!(rt; forward_and_back(&start) == 20);
}

// A loop over the set of all knights gives b1, g1, b8 and g8 in this order: their numbers are 1, 6, 57 and 62, and are
// compared as the digits of one number to the base 64.
#[test]
fn a_set_is_looped_over(rt: HostRuntime) {
    let board = Plain::new();
    let white = board.men_of(Colour::White, Kind::Knight);
    let black = board.men_of(Colour::Black, Kind::Knight);
    let mut numbers: u32 = 0;
    for square in white | black {
        numbers = numbers
            .saturating_mul(64)
            .saturating_add(u32::from(square.number()));
    }
    assert!(rt; numbers == ((1 * 64 + 6) * 64 + 57) * 64 + 62);
    assert!(rt; (white & black).is_empty() && white != black);
}

// The debug text of a set lists its squares; that of its iterator, those that are left.
#[test]
fn sets_are_debugged_by_their_squares(rt: HostRuntime) -> Result<(), Fail> {
    let set = SquareSet::single(Square::E4) | SquareSet::single(Square::B1);
    assert!(rt;
        format!(in rt.alloc(); "{set:?}")?.as_str()
            == "{Square { number: 1 }, Square { number: 28 }}"
    );
    let mut squares = set.into_iter();
    let _first = squares.next();
    assert!(rt; format!(in rt.alloc(); "{squares:?}")?.as_str() == "[Square { number: 28 }]");
    Ok(())
}
