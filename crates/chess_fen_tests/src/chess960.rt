//! FENs of Chess960, whose castling rights are named by the files of the rooks.

use crate::judging::{Wanted, check_all};
use chess_base::{FenFault, Variant};
use chess_fen::{read_fen, read_fen_as};

// FENs, and what is written of their positions: a right is read as K, Q or a file, and written as a file. The one that
// names two rooks twice is refused.
const RIGHTS: &[(&[u8], Wanted)] = &[
    (
        b"rnbqkbnr/pppppppp/8/8/8/8/PPPPPPPP/RNBQKBNR w KQkq - 0 1",
        Wanted::Written(b"rnbqkbnr/pppppppp/8/8/8/8/PPPPPPPP/RNBQKBNR w HAha - 0 1"),
    ),
    (
        b"rnbqkbnr/pppppppp/8/8/8/8/PPPPPPPP/RNBQKBNR w aqHK - 0 1",
        Wanted::Refused(FenFault::Castling),
    ),
    (
        b"rnbqkbnr/pppppppp/8/8/8/8/PPPPPPPP/RNBQKBNR w ahAK - 0 1",
        Wanted::Written(b"rnbqkbnr/pppppppp/8/8/8/8/PPPPPPPP/RNBQKBNR w HAha - 0 1"),
    ),
    (
        b"4k3/8/8/8/8/8/8/RK5R w KQ - 0 1",
        Wanted::Written(b"4k3/8/8/8/8/8/8/RK5R w HA - 0 1"),
    ),
    (
        b"4k3/8/8/8/8/8/8/RK4RR w K - 0 1",
        Wanted::Written(b"4k3/8/8/8/8/8/8/RK4RR w H - 0 1"),
    ),
    (b"4k3/8/8/8/8/8/8/RK4RR w G - 0 1", Wanted::Same),
    (
        b"rk5r/8/8/8/8/8/8/4K3 b qk - 0 1",
        Wanted::Written(b"rk5r/8/8/8/8/8/8/4K3 b ha - 0 1"),
    ),
    (b"4k3/8/8/8/8/8/8/rRK5 w B - 0 1", Wanted::Same),
];

// Reads each FEN as one of Chess960.
#[test]
fn rights_are_read_and_written_by_files(rt: HostRuntime) {
    check_all(&rt, Variant::Fischerandom, RIGHTS);
}

// FENs whose field of castling rights is at fault: it names no rook, or one right twice, or two rooks on one side of
// the king, or it has another form. The last three have a second fault as well: the side to move is looked at before
// the rights, the kings before the rooks of the rights, and the letters of the rights before the target.
const BAD_RIGHTS: &[(&[u8], Wanted)] = &[
    (
        b"4k3/8/8/8/8/8/8/RK5R w C - 0 1",
        Wanted::Refused(FenFault::Castling),
    ),
    (
        b"4k3/8/8/8/8/8/8/RK5R w B - 0 1",
        Wanted::Refused(FenFault::Castling),
    ),
    (
        b"4k3/8/8/8/8/8/8/RK6 w K - 0 1",
        Wanted::Refused(FenFault::Castling),
    ),
    (
        b"4k3/8/8/8/8/8/8/RK5R w k - 0 1",
        Wanted::Refused(FenFault::Castling),
    ),
    (
        b"4k3/8/8/8/8/8/8/RK5R w h - 0 1",
        Wanted::Refused(FenFault::Castling),
    ),
    (
        b"4k3/8/8/8/8/8/1K6/R6R w HA - 0 1",
        Wanted::Refused(FenFault::Castling),
    ),
    (
        b"4k3/8/8/8/8/8/8/RK5R w HK - 0 1",
        Wanted::Refused(FenFault::Castling),
    ),
    (
        b"4k3/8/8/8/8/8/8/RK4RR w GH - 0 1",
        Wanted::Refused(FenFault::Castling),
    ),
    (
        b"4k3/8/8/8/8/8/8/RK4RR w KG - 0 1",
        Wanted::Refused(FenFault::Castling),
    ),
    (
        b"4k3/8/8/8/8/8/8/RK5R w HH - 0 1",
        Wanted::Refused(FenFault::Castling),
    ),
    (
        b"4k3/8/8/8/8/8/8/RK5R w I - 0 1",
        Wanted::Refused(FenFault::Castling),
    ),
    (
        b"4k3/8/8/8/8/8/8/RK5R w HAhab - 0 1",
        Wanted::Refused(FenFault::Castling),
    ),
    (
        b"4k3/8/8/8/8/8/8/RK5R w H- - 0 1",
        Wanted::Refused(FenFault::Castling),
    ),
    (
        b"4k3/8/8/8/8/8/8/RK5R x HH - 0 1",
        Wanted::Refused(FenFault::Side),
    ),
    (
        b"4k3/8/8/8/8/8/8/RK3K1R w C - 0 1",
        Wanted::Refused(FenFault::Kings),
    ),
    (
        b"4k3/8/8/8/8/8/8/RK5R w HH e4 0 1",
        Wanted::Refused(FenFault::Castling),
    ),
];

// Each is refused with its fault.
#[test]
fn bad_rights_are_refused(rt: HostRuntime) {
    check_all(&rt, Variant::Fischerandom, BAD_RIGHTS);
}

// Rights named by files are refused in a FEN of normal chess, and read in one of Chess960.
#[test]
fn normal_chess_knows_no_letters_of_files(rt: HostRuntime) {
    let text = b"r3k2r/8/8/8/8/8/8/R3K2R w HAha - 0 1".as_slice();
    assert!(rt; read_fen(text).err() == Some(FenFault::Castling));
    assert!(rt; read_fen_as(Variant::Normal, text).err() == Some(FenFault::Castling));
    assert!(rt; read_fen_as(Variant::Fischerandom, text).is_ok());
}
