//! FENs of normal chess: what is written of their positions, or their faults.

use crate::judging::{Wanted, check, check_all};
use chess_base::{FenFault, Position, Variant};
use chess_fen::write_fen;

// Below are positions of well-known test suites and games, and some that each change one of them. Each table has a
// test of its own, since a check's length grows with the square of the rows that one function names.

// The usual positions that move generators are tested on.
const USUAL: &[(&[u8], Wanted)] = &[
    (
        b"rnbqkbnr/pppppppp/8/8/8/8/PPPPPPPP/RNBQKBNR w KQkq - 0 1",
        Wanted::Same,
    ),
    (
        b"r3k2r/p1ppqpb1/bn2pnp1/3PN3/1p2P3/2N2Q1p/PPPBBPPP/R3K2R w KQkq - 0 1",
        Wanted::Same,
    ),
    (b"8/2p5/3p4/KP5r/1R3p1k/8/4P1P1/8 w - - 0 1", Wanted::Same),
    (
        b"r3k2r/Pppp1ppp/1b3nbN/nP6/BBP1P3/q4N2/Pp1P2PP/R2Q1RK1 w kq - 0 1",
        Wanted::Same,
    ),
    (
        b"r2q1rk1/pP1p2pp/Q4n2/bbp1p3/Np6/1B3NBn/pPPP1PPP/R3K2R b KQ - 0 1",
        Wanted::Same,
    ),
    (
        b"rnbq1k1r/pp1Pbppp/2p5/8/2B5/8/PPP1NnPP/RNBQK2R w KQ - 1 8",
        Wanted::Same,
    ),
    (
        b"r4rk1/1pp1qppp/p1np1n2/2b1p1B1/2B1P1b1/P1NP1N2/1PP1QPPP/R4RK1 w - - 0 10",
        Wanted::Same,
    ),
    (b"r6r/1b2k1bq/8/8/7B/8/8/R3K2R b KQ - 3 2", Wanted::Same),
    (
        b"2kr3r/p1ppqpb1/bn2Qnp1/3PN3/1p2P3/2N5/PPPBBPPP/R3K2R b KQ - 3 2",
        Wanted::Same,
    ),
    (
        b"rnb2k1r/pp1Pbppp/2p5/q7/2B5/8/PPPQNnPP/RNB1K2R w KQ - 3 9",
        Wanted::Same,
    ),
    (
        b"R6R/3Q4/1Q4Q1/4Q3/2Q4Q/Q4Q2/pp1Q4/kBNN1KB1 w - - 0 1",
        Wanted::Same,
    ),
    (b"r3k2r/8/3Q4/8/8/5q2/8/R3K2R b KQkq - 0 1", Wanted::Same),
    (b"r3k2r/1b4bq/8/8/8/8/7B/R3K2R w KQkq - 0 1", Wanted::Same),
    (b"2K2r2/4P3/8/8/8/8/8/3k4 w - - 0 1", Wanted::Same),
    (b"8/8/1P2K3/8/2n5/1q6/8/5k2 b - - 0 1", Wanted::Same),
    (b"8/8/2k5/5q2/5n2/8/5K2/8 b - - 0 1", Wanted::Same),
];

// Reads each FEN of the table.
#[test]
fn usual_positions_are_judged(rt: HostRuntime) {
    check_all(&rt, Variant::Normal, USUAL);
}

// Positions around en passant and castling.
const SPECIAL: &[(&[u8], Wanted)] = &[
    (b"8/8/1k6/2b5/2pP4/8/5K2/8 b - d3 0 1", Wanted::Same),
    (b"8/8/8/2k5/2pP4/8/B7/4K3 b - d3 0 3", Wanted::Same),
    (b"7k/8/8/K2pP2r/8/8/8/8 w - d6 0 1", Wanted::Same),
    (b"8/8/8/8/k2Pp2Q/8/8/3K4 b - d3 0 1", Wanted::Same),
    (b"8/6bb/8/8/R1pP2k1/4P3/P7/K7 b - d3 0 1", Wanted::Same),
    (
        b"rnbqkbnr/pppppppp/8/8/4P3/8/PPPP1PPP/RNBQKBNR b KQkq e3 0 1",
        Wanted::Same,
    ),
    (
        b"rnbqkbnr/pp1ppppp/8/2p5/4P3/8/PPPP1PPP/RNBQKBNR w KQkq c6 0 2",
        Wanted::Same,
    ),
    (
        b"rnbqkb1r/ppp1pppp/5n2/3pP3/8/8/PPPP1PPP/RNBQKBNR w KQkq d6 0 3",
        Wanted::Same,
    ),
    (b"5k2/8/8/8/8/8/8/4K2R w K - 0 1", Wanted::Same),
    (b"3k4/8/8/8/8/8/8/R3K3 w Q - 0 1", Wanted::Same),
    (b"4k3/8/8/8/8/8/1r6/R3K3 w Q - 0 1", Wanted::Same),
    (b"r3k3/1R6/8/8/8/8/8/4K3 b q - 0 1", Wanted::Same),
];

// Reads each FEN of the table.
#[test]
fn positions_of_special_moves_are_judged(rt: HostRuntime) {
    check_all(&rt, Variant::Normal, SPECIAL);
}

// Endgames, mates and stalemates; then positions of the suites Win at Chess and Bratko-Kopec, which have only four
// fields.
const LATE: &[(&[u8], Wanted)] = &[
    (b"1K1k4/1P6/8/8/8/8/r7/2R5 w - - 0 1", Wanted::Same),
    (b"4k3/1R6/r7/3KP3/8/8/8/8 w - - 0 1", Wanted::Same),
    (b"8/8/1KP5/3r4/8/8/8/k7 w - - 0 1", Wanted::Same),
    (b"7K/8/k1P5/7p/8/8/8/8 w - - 0 1", Wanted::Same),
    (b"8/k7/3p4/p2P1p2/P2P1P2/8/8/K7 w - - 0 1", Wanted::Same),
    (b"8/8/8/3k4/8/8/8/KBN5 w - - 0 1", Wanted::Same),
    (b"7k/5Q2/6K1/8/8/8/8/8 b - - 0 1", Wanted::Same),
    (
        b"rnb1kbnr/pppp1ppp/8/4p3/6Pq/5P2/PPPPP2P/RNBQKBNR w KQkq - 1 3",
        Wanted::Same,
    ),
    (
        b"r1bqkb1r/pppp1Qpp/2n2n2/4p3/2B1P3/8/PPPP1PPP/RNB1K1NR b KQkq - 0 4",
        Wanted::Same,
    ),
    (
        b"1n1Rkb1r/p4ppp/4q3/4p1B1/4P3/8/PPP2PPP/2K5 b k - 1 17",
        Wanted::Same,
    ),
    (b"k7/8/8/QQQQQQQQ/QQQQQQQ1/8/8/7K b - - 0 1", Wanted::Same),
    (
        b"2rr3k/pp3pp1/1nnqbN1p/3pN3/2pP4/2P3Q1/PPB4P/R4RK1 w - -",
        Wanted::Written(b"2rr3k/pp3pp1/1nnqbN1p/3pN3/2pP4/2P3Q1/PPB4P/R4RK1 w - - 0 1"),
    ),
    (
        b"8/7p/5k2/5p2/p1p2P2/Pr1pPK2/1P1R3P/8 b - -",
        Wanted::Written(b"8/7p/5k2/5p2/p1p2P2/Pr1pPK2/1P1R3P/8 b - - 0 1"),
    ),
    (
        b"1k1r4/pp1b1R2/3q2pp/4p3/2B5/4Q3/PPP2B2/2K5 b - -",
        Wanted::Written(b"1k1r4/pp1b1R2/3q2pp/4p3/2B5/4Q3/PPP2B2/2K5 b - - 0 1"),
    ),
    (
        b"3r1k2/4npp1/1ppr3p/p6P/P2PPPP1/1NR5/5K2/2R5 w - -",
        Wanted::Written(b"3r1k2/4npp1/1ppr3p/p6P/P2PPPP1/1NR5/5K2/2R5 w - - 0 1"),
    ),
];

// Reads each FEN of the table.
#[test]
fn late_positions_are_judged(rt: HostRuntime) {
    check_all(&rt, Variant::Normal, LATE);
}

// FENs that are each one change away from one of those above.
const CHANGED: &[(&[u8], Wanted)] = &[
    (
        b"r3k2r/p1ppqpb1/bn2pnp1/3PN3/1p2P3/2N2Q1p/PPPBBPPP/R3K1R1 w KQkq - 0 1",
        Wanted::Refused(FenFault::Castling),
    ),
    (
        b"r4k1r/p1ppqpb1/bn2pnp1/3PN3/1p2P3/2N2Q1p/PPPBBPPP/R3K2R w KQkq - 0 1",
        Wanted::Refused(FenFault::Castling),
    ),
    (
        b"r3k2r/p1ppqpb1/bn2pnp1/3PN3/1p2P3/2N2Q1p/PPPBBPPP/R3K2R w HAha - 0 1",
        Wanted::Refused(FenFault::Castling),
    ),
    (
        b"r3k2r/p1ppqpb1/bn2pnp1/3PN3/1p2P3/2N2Q1p/PPPBBPP/R3K2R w KQkq - 0 1",
        Wanted::Refused(FenFault::Placement),
    ),
    (
        b"r3k2r/p1ppqpb1/bn2pnp1/3PN3/1p2P3/2N2Q1p/PPPBBPPP w KQkq - 0 1",
        Wanted::Refused(FenFault::Placement),
    ),
    (
        b"8/2p5/3p4/KP5r/1R3p1k/8/4P1P1/8/8 w - - 0 1",
        Wanted::Refused(FenFault::Placement),
    ),
    (
        b"8/2p5/3p4/KP5r/1R3p2/8/4P1P1/8 w - - 0 1",
        Wanted::Refused(FenFault::Kings),
    ),
    (
        b"rnbqkbnr/pppppppp/8/8/8/8/PPPPPPPP/RNBQQBNR w kq - 0 1",
        Wanted::Refused(FenFault::Kings),
    ),
    (
        b"rnbqkbnr/pppppppp/8/8/8/8/PPPPPPPP/RNBQKBNP w Qkq - 0 1",
        Wanted::Refused(FenFault::Pawns),
    ),
    (
        b"rnbqkbnr/pppppppp/8/8/8/P7/PPPPPPPP/RNBQKBNR w KQkq - 0 1",
        Wanted::Refused(FenFault::Men),
    ),
    (
        b"rnbqkbnr/pppppppp/8/8/4P3/8/PPPP1PPP/RNBQKBNR w KQkq e3 0 1",
        Wanted::Refused(FenFault::EnPassant),
    ),
    (
        b"rnbqkbnr/pppppppp/8/8/4P3/8/PPPP1PPP/RNBQKBNR b KQkq e4 0 1",
        Wanted::Refused(FenFault::EnPassant),
    ),
    (
        b"rnbqkbnr/pppppppp/8/8/8/8/PPPPPPPP/RNBQKBNR w KQkq e6 0 1",
        Wanted::Refused(FenFault::EnPassant),
    ),
    (
        b"8/8/1k6/2b5/2pP4/3N4/5K2/8 b - d3 0 1",
        Wanted::Refused(FenFault::EnPassant),
    ),
    (
        b"8/8/1k6/2b5/2pP4/8/3P1K2/8 b - d3 0 1",
        Wanted::Refused(FenFault::EnPassant),
    ),
    (
        b"rnb1kbnr/pppp1ppp/8/4p3/6Pq/5P2/PPPPP2P/RNBQKBNR b KQkq - 1 3",
        Wanted::Refused(FenFault::Check),
    ),
    (
        b"8/8/8/3kK3/8/8/8/8 w - - 0 1",
        Wanted::Refused(FenFault::Check),
    ),
];

// Reads each FEN of the table.
#[test]
fn changed_positions_are_judged(rt: HostRuntime) {
    check_all(&rt, Variant::Normal, CHANGED);
}

// Below are texts in other forms than those that are written, and texts with each fault, and of several the
// first.

// Texts that are read though their positions are written otherwise: with more spaces, other digits, rights in another
// order, zeros before a counter, 0 as the number of the move, or no counters.
const SPELLINGS: &[(&[u8], Wanted)] = &[
    (
        b"4k3/8/8/8/8/8/8/4K2R  w  K -",
        Wanted::Written(b"4k3/8/8/8/8/8/8/4K2R w K - 0 1"),
    ),
    (
        b"4k3/44/8/8/8/8/4P3/4K3 b - - 0 0",
        Wanted::Written(b"4k3/8/8/8/8/8/4P3/4K3 b - - 0 1"),
    ),
    (
        b"r3k2r/8/8/8/8/8/8/R3K2R w qkQK - 3 7",
        Wanted::Written(b"r3k2r/8/8/8/8/8/8/R3K2R w KQkq - 3 7"),
    ),
    (
        b"  4k3/8/8/8/8/8/8/4K3 w - - 007 000009  ",
        Wanted::Written(b"4k3/8/8/8/8/8/8/4K3 w - - 7 9"),
    ),
    (
        b"4k3/11111111/8/8/8/8/8/4K3 w - - 999999 999999",
        Wanted::Written(b"4k3/8/8/8/8/8/8/4K3 w - - 999999 999999"),
    ),
];

// Reads each text of the table.
#[test]
fn other_denotations_are_read(rt: HostRuntime) {
    check_all(&rt, Variant::Normal, SPELLINGS);
}

// Texts of which a field is at fault, and the fault; of several faults it is the first.
const FIELDS: &[(&[u8], Wanted)] = &[
    (b"", Wanted::Refused(FenFault::Fields)),
    (b"   ", Wanted::Refused(FenFault::Fields)),
    (
        b"4k3/8/8/8/8/8/8/K3K3 x - - 0",
        Wanted::Refused(FenFault::Fields),
    ),
    (
        b"4k3/8/8/8/8/8/8/4K3 w -",
        Wanted::Refused(FenFault::Fields),
    ),
    (
        b"4k3/8/8/8/8/8/8/4K3 w - - 0 1 2",
        Wanted::Refused(FenFault::Fields),
    ),
    (
        b"4k3/9/8/8/8/8/8/4K3 w - - 0 1",
        Wanted::Refused(FenFault::Placement),
    ),
    (
        b"4k3/08/8/8/8/8/8/4K3 w - - 0 1",
        Wanted::Refused(FenFault::Placement),
    ),
    (
        b"4k2x/8/8/8/8/8/8/4K3 x - - 0 1",
        Wanted::Refused(FenFault::Placement),
    ),
    (
        b"/4k3/8/8/8/8/8/8/4K3 w - - 0 1",
        Wanted::Refused(FenFault::Placement),
    ),
    (
        b"4k3/8/8/8/8/8/8/4K3\tw - - 0 1 1",
        Wanted::Refused(FenFault::Placement),
    ),
    (
        b"4k3/8/8/8/8/8/8/K3K3 x - - 0 1",
        Wanted::Refused(FenFault::Side),
    ),
    (
        b"4k3/8/8/8/8/8/8/4K3 W KK - 0 1",
        Wanted::Refused(FenFault::Side),
    ),
    (
        b"4k3/8/8/8/8/8/8/4K3 \0 - - 0 1",
        Wanted::Refused(FenFault::Side),
    ),
    (
        b"4k3/8/8/8/8/8/8/4K3 \xff - - 0 1",
        Wanted::Refused(FenFault::Side),
    ),
    (
        b"4k3/8/8/8/8/8/8/4K2R w KK - 0 1",
        Wanted::Refused(FenFault::Castling),
    ),
    (
        b"4k3/8/8/8/8/8/8/4K2R w K- e4 0 1",
        Wanted::Refused(FenFault::Castling),
    ),
    (
        b"4k3/8/8/8/8/8/8/4K3 w - e3 0 1",
        Wanted::Refused(FenFault::EnPassant),
    ),
    (
        b"4k3/8/8/8/8/8/8/4K3 w - i6 1234567 1",
        Wanted::Refused(FenFault::EnPassant),
    ),
    (
        b"4k3/8/8/8/8/8/8/4K3 w - - 1234567 1",
        Wanted::Refused(FenFault::Counters),
    ),
    (
        b"4k3/8/8/8/8/8/8/4K3 w - - 0 0000001",
        Wanted::Refused(FenFault::Counters),
    ),
    (
        b"4k3/8/8/8/8/8/8/4K3 w - - -1 1",
        Wanted::Refused(FenFault::Counters),
    ),
    (
        b"4k3/8/8/8/8/8/8/K3K3 w - - 0 1x",
        Wanted::Refused(FenFault::Counters),
    ),
];

// Reads each text of the table.
#[test]
fn faults_of_fields_are_named(rt: HostRuntime) {
    check_all(&rt, Variant::Normal, FIELDS);
}

// FENs whose fields are in order, but whose position has a fault, of several the first.
const POSITIONS: &[(&[u8], Wanted)] = &[
    (
        b"4k3/8/8/8/8/8/8/K3K3 w - - 0 1",
        Wanted::Refused(FenFault::Kings),
    ),
    (
        b"P3k3/8/8/8/8/8/8/K3K3 w K - 0 1",
        Wanted::Refused(FenFault::Kings),
    ),
    (
        b"P3k3/8/8/8/8/8/8/4K3 w - - 0 1",
        Wanted::Refused(FenFault::Pawns),
    ),
    (
        b"P3k3/8/8/8/8/N7/PPPPPPPP/RNBQKBNR w - - 0 1",
        Wanted::Refused(FenFault::Pawns),
    ),
    (
        b"4k3/8/8/8/8/N7/PPPPPPPP/RNBQKBNR w - - 0 1",
        Wanted::Refused(FenFault::Men),
    ),
    (
        b"4k3/8/8/8/8/N7/PPPPPPPP/RNBQKBNR w kq - 0 1",
        Wanted::Refused(FenFault::Men),
    ),
    (
        b"4k3/8/8/8/8/8/8/4K2R w KQ - 0 1",
        Wanted::Refused(FenFault::Castling),
    ),
    (
        b"4k3/8/8/8/8/8/8/4K3 w K e6 0 1",
        Wanted::Refused(FenFault::Castling),
    ),
    (
        b"4k3/8/8/8/8/8/8/4K3 b - e3 0 1",
        Wanted::Refused(FenFault::EnPassant),
    ),
    (
        b"4k3/8/8/8/8/8/8/4R1K1 w - e6 0 1",
        Wanted::Refused(FenFault::EnPassant),
    ),
    (
        b"4k3/8/8/8/8/8/8/4R1K1 w - - 0 1",
        Wanted::Refused(FenFault::Check),
    ),
];

// Reads each text of the table.
#[test]
fn faults_of_positions_are_named(rt: HostRuntime) {
    check_all(&rt, Variant::Normal, POSITIONS);
}

// Texts of 10,000 bytes, all spaces or all digits, have too few fields.
#[test]
fn long_texts_are_refused(rt: HostRuntime) {
    check(
        &rt,
        Variant::Normal,
        &[b' '; 10_000],
        Wanted::Refused(FenFault::Fields),
    );
    check(
        &rt,
        Variant::Normal,
        &[b'8'; 10_000],
        Wanted::Refused(FenFault::Fields),
    );
}

// A sound position whose FEN is as long as one can be: no two empty squares are side by side.
const LONGEST: &[u8] =
    b"r1b1k1n1/1p1p1p1p/p1p1p1p1/1q1r1b1n/P1P1P1P1/1Q1R1B1N/1P1P1P1P/R1B1K1N1 b Qq e3 999999 999999";

// The initial position has its FEN, and the longest FEN is written as it is read.
#[test]
fn positions_are_written(rt: HostRuntime) {
    assert_eq!(rt;
        write_fen(&Position::initial()).as_slice(),
        b"rnbqkbnr/pppppppp/8/8/8/8/PPPPPPPP/RNBQKBNR w KQkq - 0 1".as_slice()
    );
    check(&rt, Variant::Normal, LONGEST, Wanted::Same);
}
