//! Texts of moves: which move each denotes at a position, if any, and how moves are written.

use chess_base::{Kind, Move, Position, Square, Variant};
use chess_bits::{AttackTables, Bits};
use chess_fen::{read_fen_as, write_fen};
use chess_moves::{Board, Plain};
use chess_text::{
    Reading, San, coordinate, has_move_shape, move_text, read_move, read_moves_are_legal, san,
    san_is_a_word,
};
use chess_text_laws::{
    coordinate_denotes_its_move, move_text_denotes_its_move, normal_is_kept, san_denotes_its_move,
    texts_have_parts,
};
use std::alloc::Global;
use std::process::Abort;
use std::test::Fail;

// What a text is to denote: the move with this coordinate text, several legal moves, no legal move, or no move at all.
#[derive(Clone, Copy)]
enum Wanted {
    Move(&'static [u8]),
    Ambiguous,
    NoSuch,
    NotAMove,
}

// Sets a board to the position of a FEN.
fn set<B: Board>(board: &mut B, variant: Variant, fen: &[u8]) -> Result<(), Fail> {
    board.set(&read_fen_as(variant, fen).ok().ok_or("sound")?);
    Ok(())
}

// Whether what a text was read as is what was wanted.
fn is_wanted(found: Reading, wanted: Wanted) -> bool {
    match (found, wanted) {
        (Reading::Move(m), Wanted::Move(name)) => coordinate(m).as_slice() == name,
        (Reading::Ambiguous, Wanted::Ambiguous)
        | (Reading::NoSuch, Wanted::NoSuch)
        | (Reading::NotAMove, Wanted::NotAMove) => true,
        _ => false,
    }
}

// Reads a text at the board's position, and asserts what it denotes. It has the shape of a move unless it is no move at
// all.
fn check<B: Board>(rt: &impl Abort, board: &B, text: &[u8], wanted: Wanted) {
    let found = read_move(board, text);
    assert!(rt; is_wanted(found, wanted), "{text:?} is {found:?}");
    assert_eq!(rt;
        has_move_shape(text),
        found != Reading::NotAMove,
        "at {text:?}"
    );
}

// Reads each text at the position of a FEN on this board.
fn check_on<B: Board>(
    rt: &impl Abort,
    board: &mut B,
    fen: &[u8],
    rows: &[(&[u8], Wanted)],
) -> Result<(), Fail> {
    set(board, Variant::Normal, fen)?;
    for (text, wanted) in rows {
        check(rt, board, text, *wanted);
    }
    Ok(())
}

// The same on both boards.
fn check_all(
    rt: &impl Abort,
    alloc: Global,
    fen: &[u8],
    rows: &[(&[u8], Wanted)],
) -> Result<(), Fail> {
    check_on(rt, &mut Plain::new(), fen, rows)?;
    let tables = AttackTables::open(alloc)?;
    check_on(rt, &mut Bits::new(&tables), fen, rows)
}

// A position where White may castle on both sides and capture en passant; its knight on c3 is pinned, that on f3 may
// move.
const MIDDLE_GAME: &[u8] = b"r3k2r/ppp2ppp/2n2n2/3pP3/1b6/2N2N2/PPP2PPP/R3K2R w KQkq d6 0 8";

// Texts of pawn moves there, and what they denote.
const PAWN_TEXTS: &[(&[u8], Wanted)] = &[
    (b"e6", Wanted::Move(b"e5e6")),
    (b"e5e6", Wanted::Move(b"e5e6")),
    (b"ee6", Wanted::Move(b"e5e6")),
    (b"e5-e6", Wanted::NotAMove),
    (b"e5xe6", Wanted::NoSuch),
    (b"exe6", Wanted::NoSuch),
    (b"e6+#!?", Wanted::Move(b"e5e6")),
    (b"e6??", Wanted::Move(b"e5e6")),
    (b"e6!x", Wanted::NotAMove),
    (b"++e6", Wanted::NotAMove),
    (b"e6 ", Wanted::NotAMove),
    (b"e6=", Wanted::NotAMove),
    (b"e6e", Wanted::NotAMove),
    (b"e5e6q", Wanted::NoSuch),
    (b"Pe6", Wanted::NotAMove),
    (b"exd6", Wanted::Move(b"e5d6")),
    (b"ed6", Wanted::Move(b"e5d6")),
    (b"e5d6", Wanted::Move(b"e5d6")),
    (b"e5xd6", Wanted::Move(b"e5d6")),
    (b"d6", Wanted::NoSuch),
    (b"exd6e.p.", Wanted::NotAMove),
    (b"exf6", Wanted::Move(b"e5f6")),
    (b"dxe6", Wanted::NoSuch),
    (b"xe6", Wanted::NotAMove),
    (b"xd6", Wanted::NotAMove),
    (b"4e5", Wanted::NotAMove),
];

// Reads each text of the table.
#[test]
fn pawn_moves_in_a_middle_game(rt: HostRuntime) -> Result<(), Fail> {
    check_all(&rt, rt.alloc(), MIDDLE_GAME, PAWN_TEXTS)
}

// Texts of castling and other king moves there.
const KING_TEXTS: &[(&[u8], Wanted)] = &[
    (b"O-O", Wanted::Move(b"e1g1")),
    (b"0-0", Wanted::Move(b"e1g1")),
    (b"O-O-O", Wanted::Move(b"e1c1")),
    (b"0-0-0", Wanted::Move(b"e1c1")),
    (b"O-O+", Wanted::Move(b"e1g1")),
    (b"O-O-O!?", Wanted::Move(b"e1c1")),
    (b"0-0#", Wanted::Move(b"e1g1")),
    (b"0-0-0-0", Wanted::NotAMove),
    (b"O-O-O-O", Wanted::NotAMove),
    (b"o-o", Wanted::NotAMove),
    (b"OO", Wanted::NotAMove),
    (b"O-0", Wanted::NotAMove),
    (b"e1g1", Wanted::Move(b"e1g1")),
    (b"e1c1", Wanted::Move(b"e1c1")),
    (b"e1g1+", Wanted::Move(b"e1g1")),
    (b"Kg1", Wanted::NoSuch),
    (b"Ke1g1", Wanted::NoSuch),
    (b"Kc1", Wanted::NoSuch),
    (b"Kf1", Wanted::Move(b"e1f1")),
    (b"Kxf1", Wanted::NoSuch),
    (b"KE2", Wanted::NotAMove),
    (b"ke2", Wanted::NotAMove),
    (b"Ke2", Wanted::Move(b"e1e2")),
];

// Reads each text of the table.
#[test]
fn king_moves_in_a_middle_game(rt: HostRuntime) -> Result<(), Fail> {
    check_all(&rt, rt.alloc(), MIDDLE_GAME, KING_TEXTS)
}

// Texts of knight moves there, of which the pinned knight has none.
const KNIGHT_TEXTS: &[(&[u8], Wanted)] = &[
    (b"Nd2", Wanted::Move(b"f3d2")),
    (b"Nd4", Wanted::Move(b"f3d4")),
    (b"Nd4+", Wanted::Move(b"f3d4")),
    (b"Nxd5", Wanted::NoSuch),
    (b"Ne4", Wanted::NoSuch),
    (b"Ng5", Wanted::Move(b"f3g5")),
    (b"Nfg5", Wanted::Move(b"f3g5")),
    (b"N3g5", Wanted::Move(b"f3g5")),
    (b"Nf3g5", Wanted::Move(b"f3g5")),
    (b"Ncg5", Wanted::NoSuch),
    (b"N5g5", Wanted::NoSuch),
    (b"Nf3xg5", Wanted::NoSuch),
    (b"nd4", Wanted::NotAMove),
    (b"Nf3=Q", Wanted::NotAMove),
    (b"Nf3", Wanted::NoSuch),
    (b"f3g5", Wanted::Move(b"f3g5")),
    (b"f3g5n", Wanted::NoSuch),
    (b"N", Wanted::NotAMove),
    (b"Nf", Wanted::NotAMove),
    (b"N5", Wanted::NotAMove),
];

// Reads each text of the table.
#[test]
fn knight_moves_in_a_middle_game(rt: HostRuntime) -> Result<(), Fail> {
    check_all(&rt, rt.alloc(), MIDDLE_GAME, KNIGHT_TEXTS)
}

// Texts of rook moves and others there.
const OTHER_TEXTS: &[(&[u8], Wanted)] = &[
    (b"Rd1", Wanted::Move(b"a1d1")),
    (b"Rad1", Wanted::Move(b"a1d1")),
    (b"R1d1", Wanted::Move(b"a1d1")),
    (b"Rhd1", Wanted::NoSuch),
    (b"Rf1", Wanted::Move(b"h1f1")),
    (b"R1f1", Wanted::Move(b"h1f1")),
    (b"a4", Wanted::Move(b"a2a4")),
    (b"aa4", Wanted::Move(b"a2a4")),
    (b"a2a4q", Wanted::NoSuch),
    (b"a4=Q", Wanted::NoSuch),
    (b"a5", Wanted::NoSuch),
    (b"b4", Wanted::NoSuch),
    (b"bb3", Wanted::Move(b"b2b3")),
    (b"bxc3", Wanted::NoSuch),
    (b"Bxc3", Wanted::NoSuch),
    (b"bc3", Wanted::NoSuch),
    (b"cc3", Wanted::NoSuch),
    (b"c2c3", Wanted::NoSuch),
    (b"e6!", Wanted::Move(b"e5e6")),
    (b"exd6+", Wanted::Move(b"e5d6")),
    (b"exd6+#", Wanted::Move(b"e5d6")),
    (b"cxd6", Wanted::NoSuch),
    (b"Rad1#", Wanted::Move(b"a1d1")),
    (b"Nfg5?", Wanted::Move(b"f3g5")),
    (b"Ncd5", Wanted::NoSuch),
    (b"Bd2", Wanted::NoSuch),
    (b"Qxd5", Wanted::NoSuch),
];

// Reads each text of the table.
#[test]
fn other_moves_in_a_middle_game(rt: HostRuntime) -> Result<(), Fail> {
    check_all(&rt, rt.alloc(), MIDDLE_GAME, OTHER_TEXTS)
}

// Texts of which most don't have the form of a move.
const BROKEN_TEXTS: &[(&[u8], Wanted)] = &[
    (b"", Wanted::NotAMove),
    (b"+", Wanted::NotAMove),
    (b"!?", Wanted::NotAMove),
    (b"e", Wanted::NotAMove),
    (b"h9", Wanted::NotAMove),
    (b"i4", Wanted::NotAMove),
    (b"e0", Wanted::NotAMove),
    (b"e7e8k", Wanted::NotAMove),
    (b"e7e8", Wanted::NoSuch),
    (b"e7e8q", Wanted::NoSuch),
    (b"\xe2\x99\x98d4", Wanted::NotAMove),
    (b"\xe2\x99\x9ee5", Wanted::NotAMove),
    (b"\0e4", Wanted::NotAMove),
    (b"--", Wanted::NotAMove),
    (b"Z0", Wanted::NotAMove),
    (b"@@@@", Wanted::NotAMove),
    (b"e+", Wanted::NotAMove),
    (b"e+6", Wanted::NotAMove),
    (b"ixd6", Wanted::NotAMove),
    (b"xxd6", Wanted::NotAMove),
    (b"Nid4", Wanted::NotAMove),
    (b"Nxd0", Wanted::NotAMove),
    (b"Pxd6", Wanted::NotAMove),
];

// Reads each text of the table.
#[test]
fn broken_texts_in_a_middle_game(rt: HostRuntime) -> Result<(), Fail> {
    check_all(&rt, rt.alloc(), MIDDLE_GAME, BROKEN_TEXTS)
}

// A position where a pawn on e7 may be promoted straight on or by a capture on either side.
const PROMOTION: &[u8] = b"3r1n1k/4P3/8/8/8/8/8/4K3 w - - 0 1";

// Texts of the promotion on e8.
const PROMOTION_TEXTS: &[(&[u8], Wanted)] = &[
    (b"e8=Q", Wanted::Move(b"e7e8q")),
    (b"e8Q", Wanted::Move(b"e7e8q")),
    (b"e8q", Wanted::Move(b"e7e8q")),
    (b"e8=q", Wanted::Move(b"e7e8q")),
    (b"e8", Wanted::NoSuch),
    (b"e7e8", Wanted::NoSuch),
    (b"e7e8q", Wanted::Move(b"e7e8q")),
    (b"e7e8Q", Wanted::Move(b"e7e8q")),
    (b"e7e8=Q", Wanted::Move(b"e7e8q")),
    (b"e8=R", Wanted::Move(b"e7e8r")),
    (b"e8=B", Wanted::Move(b"e7e8b")),
    (b"e8=N!?", Wanted::Move(b"e7e8n")),
    (b"e8b", Wanted::Move(b"e7e8b")),
    (b"e8=K", Wanted::NotAMove),
    (b"e8=P", Wanted::NotAMove),
    (b"e8k", Wanted::NotAMove),
    (b"e7e8k", Wanted::NotAMove),
    (b"e8==Q", Wanted::NotAMove),
    (b"e8=QQ", Wanted::NotAMove),
    (b"e8=", Wanted::NotAMove),
    (b"e8=Q=", Wanted::NotAMove),
];

// Reads each text of the table.
#[test]
fn texts_of_promotions(rt: HostRuntime) -> Result<(), Fail> {
    check_all(&rt, rt.alloc(), PROMOTION, PROMOTION_TEXTS)
}

// Texts of the promotions by a capture.
const PROMOTING_CAPTURE_TEXTS: &[(&[u8], Wanted)] = &[
    (b"exd8=N+", Wanted::Move(b"e7d8n")),
    (b"ed8=N", Wanted::Move(b"e7d8n")),
    (b"ed8n", Wanted::Move(b"e7d8n")),
    (b"e7d8n", Wanted::Move(b"e7d8n")),
    (b"e7xd8=R", Wanted::Move(b"e7d8r")),
    (b"exd8", Wanted::NoSuch),
    (b"d8=Q", Wanted::NoSuch),
    (b"exf8=B#", Wanted::Move(b"e7f8b")),
    (b"fxe8=Q", Wanted::NoSuch),
    (b"exe8=Q", Wanted::NoSuch),
    (b"ee8=Q", Wanted::Move(b"e7e8q")),
    (b"xe8=Q", Wanted::NotAMove),
    (b"Ke2", Wanted::Move(b"e1e2")),
    (b"Kd1", Wanted::NoSuch),
    (b"Kxe2", Wanted::NoSuch),
    (b"Ke2=Q", Wanted::NotAMove),
    (b"O-O", Wanted::NoSuch),
    (b"e1f2", Wanted::Move(b"e1f2")),
    (b"e1f2q", Wanted::NoSuch),
    (b"Qe8", Wanted::NoSuch),
    (b"8=Q", Wanted::NotAMove),
];

// Reads each text of the table.
#[test]
fn texts_of_promoting_captures(rt: HostRuntime) -> Result<(), Fail> {
    check_all(&rt, rt.alloc(), PROMOTION, PROMOTING_CAPTURE_TEXTS)
}

// A position where three queens may move to e1.
const QUEENS: &[u8] = b"8/k7/8/8/4Q2Q/8/K7/7Q w - - 0 1";

// Texts that name the queen by nothing, by its file, its rank or both.
const QUEENS_TEXTS: &[(&[u8], Wanted)] = &[
    (b"Qe1", Wanted::Ambiguous),
    (b"Qee1", Wanted::Move(b"e4e1")),
    (b"Q4e1", Wanted::Ambiguous),
    (b"Q1e1", Wanted::Move(b"h1e1")),
    (b"Qhe1", Wanted::Ambiguous),
    (b"Qh4e1", Wanted::Move(b"h4e1")),
    (b"Qh1e1", Wanted::Move(b"h1e1")),
    (b"Qe4e1", Wanted::Move(b"e4e1")),
    (b"h4e1", Wanted::Move(b"h4e1")),
    (b"Qxe1", Wanted::NoSuch),
    (b"Qh4xe1", Wanted::NoSuch),
    (b"Qe1+", Wanted::Ambiguous),
    (b"Qd5", Wanted::Move(b"e4d5")),
    (b"Qh3", Wanted::Ambiguous),
    (b"Q4h3", Wanted::Move(b"h4h3")),
    (b"Q1h3", Wanted::Move(b"h1h3")),
    (b"Qhh3", Wanted::Ambiguous),
    (b"Ka1", Wanted::Move(b"a2a1")),
    (b"he1", Wanted::NoSuch),
    (b"a7a8", Wanted::NoSuch),
    (b"e1", Wanted::NoSuch),
    (b"QE1", Wanted::NotAMove),
    (b"qe1", Wanted::NotAMove),
];

// Reads each text of the table.
#[test]
fn texts_of_three_queens(rt: HostRuntime) -> Result<(), Fail> {
    check_all(&rt, rt.alloc(), QUEENS, QUEENS_TEXTS)
}

// Reads 1,024 bytes at the initial position: marks alone are no move, after a move they are passed over, and with a
// digit at their end they are no move.
fn check_runs<B: Board>(rt: &impl Abort, board: &B) {
    let mut text = [b'+'; 1024];
    check(rt, board, &text, Wanted::NotAMove);
    text[0] = b'e';
    text[1] = b'4';
    check(rt, board, &text, Wanted::Move(b"e2e4"));
    text[1023] = b'4';
    check(rt, board, &text, Wanted::NotAMove);
}

// Does so on both boards.
#[test]
fn long_runs_of_marks(rt: HostRuntime) -> Result<(), Fail> {
    check_runs(&rt, &Plain::new());
    let tables = AttackTables::open(rt.alloc())?;
    check_runs(&rt, &Bits::new(&tables));
    Ok(())
}

// Asserts the SAN of the move that a text denotes.
fn is_written<B: Board>(
    rt: &impl Abort,
    board: &mut B,
    name: &[u8],
    wanted: &[u8],
) -> Result<(), Fail> {
    let Reading::Move(m) = read_move(board, name) else {
        return Err("a legal move".into());
    };
    assert_eq!(rt; san(board, m).as_slice(), wanted);
    Ok(())
}

// Makes the move that a text denotes.
fn make<B: Board>(board: &mut B, text: &[u8]) -> Result<(), Fail> {
    let Reading::Move(m) = read_move(board, text) else {
        return Err("a legal move".into());
    };
    let _saved = board.make(m);
    Ok(())
}

// Asserts the FEN of a board's position.
fn is_at<B: Board>(rt: &impl Abort, board: &B, fen: &[u8]) {
    assert_eq!(rt; write_fen(&board.position()).as_slice(), fen);
}

// Asserts the SAN of a move at the position of a FEN, at which the board still is after that.
fn is_written_from<B: Board>(
    rt: &impl Abort,
    board: &mut B,
    fen: &[u8],
    name: &[u8],
    wanted: &[u8],
) -> Result<(), Fail> {
    set(board, Variant::Normal, fen)?;
    is_written(rt, board, name, wanted)?;
    is_at(rt, board, fen);
    Ok(())
}

// A position, a move by its coordinates, and its SAN.
const WRITTEN: [(&[u8], &[u8], &[u8]); 24] = [
    (
        b"rnbqkbnr/pppppppp/8/8/8/8/PPPPPPPP/RNBQKBNR w KQkq - 0 1",
        b"g1f3",
        b"Nf3",
    ),
    (
        b"r3k2r/ppp2ppp/2n2n2/3pP3/1b6/2N2N2/PPP2PPP/R3K2R w KQkq d6 0 8",
        b"e5d6",
        b"exd6",
    ),
    (
        b"r3k2r/ppp2ppp/2n2n2/3pP3/1b6/2N2N2/PPP2PPP/R3K2R w KQkq d6 0 8",
        b"e1g1",
        b"O-O",
    ),
    (
        b"r3k2r/ppp2ppp/2n2n2/3pP3/1b6/2N2N2/PPP2PPP/R3K2R w KQkq d6 0 8",
        b"e1c1",
        b"O-O-O",
    ),
    (b"3r1n1k/4P3/8/8/8/8/8/4K3 w - - 0 1", b"e7e8q", b"e8=Q"),
    (b"3r1n1k/4P3/8/8/8/8/8/4K3 w - - 0 1", b"e7d8n", b"exd8=N"),
    (b"3r1n1k/4P3/8/8/8/8/8/4K3 w - - 0 1", b"e7f8q", b"exf8=Q+"),
    (b"3r1n1k/4P3/8/8/8/8/8/4K3 w - - 0 1", b"e7f8b", b"exf8=B"),
    (b"4k3/8/8/8/8/8/4p3/K7 b - - 0 1", b"e2e1q", b"e1=Q+"),
    (b"8/k7/8/8/4Q2Q/8/K7/7Q w - - 0 1", b"h4e1", b"Qh4e1"),
    (b"8/k7/8/8/4Q2Q/8/K7/7Q w - - 0 1", b"e4e1", b"Qee1"),
    (b"8/k7/8/8/4Q2Q/8/K7/7Q w - - 0 1", b"h1e1", b"Q1e1"),
    (b"8/k7/8/8/4Q2Q/8/K7/7Q w - - 0 1", b"e4d5", b"Qd5"),
    (b"8/8/8/k7/4Q2Q/8/K7/4n2Q w - - 0 1", b"h4e1", b"Qh4xe1+"),
    (b"4k3/8/8/8/1b6/2N5/8/4K1N1 w - - 0 1", b"g1e2", b"Ne2"),
    (b"4k3/8/8/R7/8/8/8/R3K3 w - - 0 1", b"a1a3", b"R1a3"),
    (b"4k3/8/8/8/8/8/4K3/R6R w - - 0 1", b"a1d1", b"Rad1"),
    (b"4k3/8/8/8/8/5N2/8/1N2K3 w - - 0 1", b"b1d2", b"Nbd2"),
    (b"4k3/8/8/3p4/2P1P3/8/8/4K3 w - - 0 1", b"c4d5", b"cxd5"),
    (b"5k2/8/8/8/8/8/8/4K2R w K - 0 1", b"e1g1", b"O-O+"),
    (b"3k4/8/8/8/8/8/8/R3K3 w Q - 0 1", b"e1c1", b"O-O-O+"),
    (
        b"rnbqkbnr/pppp1ppp/8/4p3/6P1/5P2/PPPPP2P/RNBQKBNR b KQkq g3 0 2",
        b"d8h4",
        b"Qh4#",
    ),
    (
        b"r1bqkb1r/pppp1ppp/2n2n2/4p2Q/2B1P3/8/PPPP1PPP/RNB1K1NR w KQkq - 4 4",
        b"h5f7",
        b"Qxf7#",
    ),
    (b"7k/8/6K1/8/8/8/8/5Q2 w - - 0 1", b"f1f7", b"Qf7"),
];

// Does so for each row.
fn are_written<B: Board>(
    rt: &impl Abort,
    board: &mut B,
    rows: &[(&[u8], &[u8], &[u8])],
) -> Result<(), Fail> {
    for (fen, name, wanted) in rows {
        is_written_from(rt, board, fen, name, wanted)?;
    }
    Ok(())
}

// Writes the move of each row on both boards.
#[test]
fn san_of_moves(rt: HostRuntime) -> Result<(), Fail> {
    are_written(&rt, &mut Plain::new(), &WRITTEN)?;
    let tables = AttackTables::open(rt.alloc())?;
    are_written(&rt, &mut Bits::new(&tables), &WRITTEN)
}

// Morphy against the Duke of Brunswick and Count Isouard, Paris 1858.
const OPERA_GAME: [&[u8]; 33] = [
    b"e4", b"e5", b"Nf3", b"d6", b"d4", b"Bg4", b"dxe5", b"Bxf3", b"Qxf3", b"dxe5", b"Bc4", b"Nf6",
    b"Qb3", b"Qe7", b"Nc3", b"c6", b"Bg5", b"b5", b"Nxb5", b"cxb5", b"Bxb5+", b"Nbd7", b"O-O-O",
    b"Rd8", b"Rxd7", b"Rxd7", b"Rd1", b"Qe6", b"Bxd7+", b"Nxd7", b"Qb8+", b"Nxb8", b"Rd8#",
];

// Reads a SAN, asserts that its move is written so, and makes it.
fn is_read_and_written<B: Board>(rt: &impl Abort, board: &mut B, text: &[u8]) -> Result<(), Fail> {
    is_written(rt, board, text, text)?;
    make(board, text)
}

// Reads, writes and makes these moves, and asserts the position after them.
fn are_read_and_written<B: Board>(
    rt: &impl Abort,
    board: &mut B,
    moves: &[&[u8]],
    fen: &[u8],
) -> Result<(), Fail> {
    for text in moves {
        is_read_and_written(rt, board, text)?;
    }
    is_at(rt, board, fen);
    Ok(())
}

// The position at its end.
const AFTER_THE_OPERA: &[u8] = b"1n1Rkb1r/p4ppp/4q3/4p1B1/4P3/8/PPP2PPP/2K5 b k - 1 17";

// Reads and writes that game on both boards.
#[test]
fn a_game_is_read_and_written(rt: HostRuntime) -> Result<(), Fail> {
    are_read_and_written(&rt, &mut Plain::new(), &OPERA_GAME, AFTER_THE_OPERA)?;
    let tables = AttackTables::open(rt.alloc())?;
    are_read_and_written(&rt, &mut Bits::new(&tables), &OPERA_GAME, AFTER_THE_OPERA)
}

// Texts that denote no legal move at the initial position.
const INITIAL_TEXTS: &[(&[u8], Wanted)] = &[(b"bc3", Wanted::NoSuch), (b"O-O", Wanted::NoSuch)];

// A few moves from there, not all in the form of SAN.
const FIRST_MOVES: [&[u8]; 3] = [b"e4!?", b"e5", b"Nge2"];

// Makes these moves, and asserts the position after them.
fn make_all<B: Board>(
    rt: &impl Abort,
    board: &mut B,
    moves: &[&[u8]],
    fen: &[u8],
) -> Result<(), Fail> {
    for text in moves {
        make(board, text)?;
    }
    is_at(rt, board, fen);
    Ok(())
}

// The position after them.
const AFTER_NGE2: &[u8] = b"rnbqkbnr/pppp1ppp/8/4p3/4P3/8/PPPPNPPP/RNBQKB1R b KQkq - 1 2";

// Reads these texts, and makes these moves, on both boards.
#[test]
fn moves_from_the_initial_position(rt: HostRuntime) -> Result<(), Fail> {
    let initial = write_fen(&Position::initial());
    check_all(&rt, rt.alloc(), initial.as_slice(), INITIAL_TEXTS)?;
    make_all(&rt, &mut Plain::new(), &FIRST_MOVES, AFTER_NGE2)?;
    let tables = AttackTables::open(rt.alloc())?;
    make_all(&rt, &mut Bits::new(&tables), &FIRST_MOVES, AFTER_NGE2)
}

// Texts of a promotion, without and with the piece.
const PAWN_ON_E7: &[(&[u8], Wanted)] = &[
    (b"e8", Wanted::NoSuch),
    (b"e8=N!?", Wanted::Move(b"e7e8n")),
];

// Reads these, and asserts how a promotion is written by its coordinates.
#[test]
fn a_pawn_becomes_what_is_named(rt: HostRuntime) -> Result<(), Fail> {
    check_all(
        &rt,
        rt.alloc(),
        b"8/4P3/8/8/8/2k5/8/4K3 w - - 0 1",
        PAWN_ON_E7,
    )?;
    let m = Move {
        from: Square::new(52),
        to: Square::new(60),
        promotion: Some(Kind::Knight),
    };
    assert_eq!(rt; coordinate(m).as_slice(), b"e7e8n".as_slice());
    Ok(())
}

// Asserts how `move_text` shows the move that a text denotes.
fn is_shown<B: Board>(rt: &impl Abort, board: &B, name: &[u8], wanted: &[u8]) -> Result<(), Fail> {
    let Reading::Move(m) = read_move(board, name) else {
        return Err("a legal move".into());
    };
    assert_eq!(rt; move_text(&board.position(), m).as_slice(), wanted);
    Ok(())
}

// In Chess960, with the king on b1 and rooks on a1 and h1: the text of a move, and how the move is shown.
const SHOWN: [(&[u8], &[u8]); 5] = [
    (b"b1a1", b"O-O-O"),
    (b"b1h1", b"O-O"),
    (b"O-O", b"O-O"),
    (b"Kc1", b"b1c1"),
    (b"h1g1", b"h1g1"),
];

// In normal chess castling is shown by the king's squares.
const SHOWN_IN_NORMAL_CHESS: [(&[u8], &[u8]); 1] = [(b"O-O", b"e1g1")];

// Asserts how the moves of these texts are shown, at the position of a FEN of this variant.
fn are_shown<B: Board>(
    rt: &impl Abort,
    board: &mut B,
    variant: Variant,
    fen: &[u8],
    rows: &[(&[u8], &[u8])],
) -> Result<(), Fail> {
    set(board, variant, fen)?;
    for (name, wanted) in rows {
        is_shown(rt, board, name, wanted)?;
    }
    Ok(())
}

// Does so for both tables on this board.
fn castlings_are_shown<B: Board>(rt: &impl Abort, board: &mut B) -> Result<(), Fail> {
    let fen = b"4k3/8/8/8/8/8/8/RK5R w KQ - 0 1";
    are_shown(rt, board, Variant::Fischerandom, fen, &SHOWN)?;
    let fen = b"5k2/8/8/8/8/8/8/4K2R w K - 0 1";
    are_shown(rt, board, Variant::Normal, fen, &SHOWN_IN_NORMAL_CHESS)
}

// Does so on both boards.
#[test]
fn castling_is_shown_by_its_variant(rt: HostRuntime) -> Result<(), Fail> {
    castlings_are_shown(&rt, &mut Plain::new())?;
    let tables = AttackTables::open(rt.alloc())?;
    castlings_are_shown(&rt, &mut Bits::new(&tables))
}

// Each law of chess_text and chess_text_laws can be called, without a condition.
#[test]
fn laws_do_nothing(_rt: HostRuntime) {
    san_denotes_its_move();
    san_is_a_word();
    coordinate_denotes_its_move();
    move_text_denotes_its_move();
    read_moves_are_legal();
    texts_have_parts();
    normal_is_kept();
}

// The SAN of the move that a text denotes, shown and debugged.
fn shown_san<B: Board>(alloc: Global, board: &mut B, text: &[u8]) -> Result<String, Fail> {
    let Reading::Move(m) = read_move(board, text) else {
        return Err("no move".into());
    };
    let san = San::of(board, m);
    Ok(format!(in alloc; "{san} {san:?}")?)
}

// Castling with check is shown as it is written, and debugged in quotes.
#[test]
fn a_san_is_shown(rt: HostRuntime) -> Result<(), Fail> {
    let mut board = Plain::new();
    set(
        &mut board,
        Variant::Normal,
        b"3k4/8/8/8/8/8/8/R3K3 w Q - 0 1",
    )?;
    let shown = shown_san(rt.alloc(), &mut board, b"e1c1")?;
    assert_eq!(rt; shown.as_str(), "O-O-O+ San(\"O-O-O+\")");
    Ok(())
}
