//! What each byte of a rank's text denotes.

ghost use Rattle.std.specs.Prelude.{◌≡◌, ◌<◌};
ghost use Rattle.chess_fen.specs.Texts.{squares_of};
ghost use Rattle.chess_fen.specs.ties.Runs.{squares_in};

use chess_base::{Colour, Kind, Man};

/// What a byte of a rank's text denotes: this number of squares (`squares`) side by side, the first with the content
/// `first`, the others empty.
#[derive(Clone, Copy)]
pub(crate) struct Run {
    pub first: Option<Man>,
    pub squares: u8,
}

// A run of this many empty squares. This and `piece` are macros, since a constant's value can't call a function.
macro_rules! empty {
    ($squares:literal) => {
        Run {
            first: None,
            squares: $squares,
        }
    };
}

// The run of one square, with a piece of this colour and kind.
macro_rules! piece {
    ($colour:ident, $kind:ident) => {
        Run {
            first: Some(Man {
                colour: Colour::$colour,
                kind: Kind::$kind,
            }),
            squares: 1,
        }
    };
}

// The run of a byte that denotes no squares: more squares than a rank has. So the test for the rank's end (`read_rank`)
// refuses it too, where an `Option` would need a test of its own.
const NO_RUN: Run = empty!(9);

const EMPTY_1: Run = empty!(1);

const EMPTY_2: Run = empty!(2);

const EMPTY_3: Run = empty!(3);

const EMPTY_4: Run = empty!(4);

const EMPTY_5: Run = empty!(5);

const EMPTY_6: Run = empty!(6);

const EMPTY_7: Run = empty!(7);

const EMPTY_8: Run = empty!(8);

const WHITE_PAWN: Run = piece!(White, Pawn);

const WHITE_KNIGHT: Run = piece!(White, Knight);

const WHITE_BISHOP: Run = piece!(White, Bishop);

const WHITE_ROOK: Run = piece!(White, Rook);

const WHITE_QUEEN: Run = piece!(White, Queen);

const WHITE_KING: Run = piece!(White, King);

const BLACK_PAWN: Run = piece!(Black, Pawn);

const BLACK_KNIGHT: Run = piece!(Black, Knight);

const BLACK_BISHOP: Run = piece!(Black, Bishop);

const BLACK_ROOK: Run = piece!(Black, Rook);

const BLACK_QUEEN: Run = piece!(Black, Queen);

const BLACK_KING: Run = piece!(Black, King);

// A list of runs, written without commas so that it is laid out as a table.
macro_rules! runs {
    ($($run:ident)*) => {
        [$($run),*]
    };
}

// What each of the 256 bytes denotes in a rank's text, 8 in a line: `1` is the byte 0x31, `B` 0x42, `b` 0x62. A `match`
// of the same, or `Man::from_letter`, took a sixth more instructions for a FEN: here each byte of its longest field
// costs one look-up, for pieces and empty squares alike.
static RUNS: [Run; 256] = runs! {
    NO_RUN NO_RUN NO_RUN NO_RUN NO_RUN NO_RUN NO_RUN NO_RUN
    NO_RUN NO_RUN NO_RUN NO_RUN NO_RUN NO_RUN NO_RUN NO_RUN
    NO_RUN NO_RUN NO_RUN NO_RUN NO_RUN NO_RUN NO_RUN NO_RUN
    NO_RUN NO_RUN NO_RUN NO_RUN NO_RUN NO_RUN NO_RUN NO_RUN
    NO_RUN NO_RUN NO_RUN NO_RUN NO_RUN NO_RUN NO_RUN NO_RUN
    NO_RUN NO_RUN NO_RUN NO_RUN NO_RUN NO_RUN NO_RUN NO_RUN
    NO_RUN EMPTY_1 EMPTY_2 EMPTY_3 EMPTY_4 EMPTY_5 EMPTY_6 EMPTY_7
    EMPTY_8 NO_RUN NO_RUN NO_RUN NO_RUN NO_RUN NO_RUN NO_RUN
    NO_RUN NO_RUN WHITE_BISHOP NO_RUN NO_RUN NO_RUN NO_RUN NO_RUN
    NO_RUN NO_RUN NO_RUN WHITE_KING NO_RUN NO_RUN WHITE_KNIGHT NO_RUN
    WHITE_PAWN WHITE_QUEEN WHITE_ROOK NO_RUN NO_RUN NO_RUN NO_RUN NO_RUN
    NO_RUN NO_RUN NO_RUN NO_RUN NO_RUN NO_RUN NO_RUN NO_RUN
    NO_RUN NO_RUN BLACK_BISHOP NO_RUN NO_RUN NO_RUN NO_RUN NO_RUN
    NO_RUN NO_RUN NO_RUN BLACK_KING NO_RUN NO_RUN BLACK_KNIGHT NO_RUN
    BLACK_PAWN BLACK_QUEEN BLACK_ROOK NO_RUN NO_RUN NO_RUN NO_RUN NO_RUN
    NO_RUN NO_RUN NO_RUN NO_RUN NO_RUN NO_RUN NO_RUN NO_RUN
    NO_RUN NO_RUN NO_RUN NO_RUN NO_RUN NO_RUN NO_RUN NO_RUN
    NO_RUN NO_RUN NO_RUN NO_RUN NO_RUN NO_RUN NO_RUN NO_RUN
    NO_RUN NO_RUN NO_RUN NO_RUN NO_RUN NO_RUN NO_RUN NO_RUN
    NO_RUN NO_RUN NO_RUN NO_RUN NO_RUN NO_RUN NO_RUN NO_RUN
    NO_RUN NO_RUN NO_RUN NO_RUN NO_RUN NO_RUN NO_RUN NO_RUN
    NO_RUN NO_RUN NO_RUN NO_RUN NO_RUN NO_RUN NO_RUN NO_RUN
    NO_RUN NO_RUN NO_RUN NO_RUN NO_RUN NO_RUN NO_RUN NO_RUN
    NO_RUN NO_RUN NO_RUN NO_RUN NO_RUN NO_RUN NO_RUN NO_RUN
    NO_RUN NO_RUN NO_RUN NO_RUN NO_RUN NO_RUN NO_RUN NO_RUN
    NO_RUN NO_RUN NO_RUN NO_RUN NO_RUN NO_RUN NO_RUN NO_RUN
    NO_RUN NO_RUN NO_RUN NO_RUN NO_RUN NO_RUN NO_RUN NO_RUN
    NO_RUN NO_RUN NO_RUN NO_RUN NO_RUN NO_RUN NO_RUN NO_RUN
    NO_RUN NO_RUN NO_RUN NO_RUN NO_RUN NO_RUN NO_RUN NO_RUN
    NO_RUN NO_RUN NO_RUN NO_RUN NO_RUN NO_RUN NO_RUN NO_RUN
    NO_RUN NO_RUN NO_RUN NO_RUN NO_RUN NO_RUN NO_RUN NO_RUN
    NO_RUN NO_RUN NO_RUN NO_RUN NO_RUN NO_RUN NO_RUN NO_RUN
};

// What a byte of a rank's text denotes. Inlined, since it is one look into the table.
#[inline(always)]
pub(crate) fn run_of(byte: u8) -> Run
    ensures squares { squares_of byte ≡ squares_in result }
    ensures some { 0 < result.squares }
{
    RUNS[byte as usize]
}
