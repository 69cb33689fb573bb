//! Positions from which other programs have counted the lines of legal moves (chessprogramming.org, Perft Results;
//! Chess960 Perft Results), for tests and measurements.
#![tactic(auto)]

/// A position as a FEN, and how many lines of 1, 2, 3 and 4 legal moves begin there.
pub struct Perft {
    pub fen: &'static [u8],
    pub lines: [u64; 4],
}

/// The second position of the wiki's list, with castling, promotions soon and en passant.
pub const KIWIPETE: &[u8] = b"r3k2r/p1ppqpb1/bn2pnp1/3PN3/1p2P3/2N2Q1p/PPPBBPPP/R3K2R w KQkq - 0 1";

/// The wiki's positions 1 to 5, and one with promotions on both sides.
pub const NORMAL: [Perft; 6] = [
    Perft {
        fen: b"rnbqkbnr/pppppppp/8/8/8/8/PPPPPPPP/RNBQKBNR w KQkq - 0 1",
        lines: [20, 400, 8_902, 197_281],
    },
    Perft {
        fen: KIWIPETE,
        lines: [48, 2_039, 97_862, 4_085_603],
    },
    Perft {
        fen: b"8/2p5/3p4/KP5r/1R3p1k/8/4P1P1/8 w - - 0 1",
        lines: [14, 191, 2_812, 43_238],
    },
    Perft {
        fen: b"r3k2r/Pppp1ppp/1b3nbN/nP6/BBP1P3/q4N2/Pp1P2PP/R2Q1RK1 w kq - 0 1",
        lines: [6, 264, 9_467, 422_333],
    },
    Perft {
        fen: b"rnbq1k1r/pp1Pbppp/2p5/8/2B5/8/PPP1NnPP/RNBQK2R w KQ - 1 8",
        lines: [44, 1_486, 62_379, 2_103_487],
    },
    Perft {
        fen: b"n1n5/PPPk4/8/8/8/8/4Kppp/5N1N b - - 0 1",
        lines: [24, 496, 9_483, 182_838],
    },
];

/// Chess960: a position of the wiki's list, and one where king and rooks are beside each other, so that castling moves
/// one of them alone.
pub const FISCHERANDOM: [Perft; 2] = [
    Perft {
        fen: b"bqnb1rkr/pp3ppp/3ppn2/2p5/5P2/P2P4/NPP1P1PP/BQ1BNRKR w HFhf - 2 9",
        lines: [21, 528, 12_189, 326_672],
    },
    Perft {
        fen: b"2rkr3/8/8/8/8/8/8/2RKR3 w ECec - 0 1",
        lines: [20, 330, 6_753, 135_047],
    },
];
