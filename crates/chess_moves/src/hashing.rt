//! The position hash: the keys of pieces, side on move and castling rights, joined by exclusive or.

ghost use Rattle.std.specs.Prelude.{◌≡◌, ◌<◌};
ghost use Rattle.chess_moves.specs.PositionHash.{key, colour_index, kind_index, man_key, square_keys, men_keys, side_keys, right_keys, rights_keys, xor_of, position_hash};

use chess_base::{Colour, Kind, Man, Rights, Setup, Square};

// By how much SplitMix64's state grows for each output.
const INCREMENT: u64 = 0x9E37_79B9_7F4A_7C15;

// The first of the two factors by which SplitMix64 mixes its state.
const FIRST_FACTOR: u64 = 0xBF58_476D_1CE4_E5B9;

// The second of the two factors by which SplitMix64 mixes its state.
const SECOND_FACTOR: u64 = 0x94D0_49BB_1331_11EB;

/// The Zobrist keys of which position hashes are made: 768 of pieces on squares, one of Black on move, and 16 of
/// castling rights.
pub trait Keys {
    /// The Zobrist key with this number: 0 to 767 for pieces on squares, 768 for Black on move, 769 to 784 for castling
    /// rights.
    fn key(&self, number: u16) -> u64
        requires { number < 785 }
        ensures { result ≡ key number };
}

/// Keys that are computed at each call, by the generator SplitMix64: the key with number n is its n-th output with seed
/// 0.
pub struct ComputedKeys;

impl Keys for ComputedKeys {
    // The Zobrist key with this number, from 0 on, computed by the three steps of the generator SplitMix64.
    #[tactic(auto, unfolding(crate::specs::PositionHash::key))]
    fn key(&self, number: u16) -> u64 {
        let mut z = (number as u64 + 1).wrapping_mul(INCREMENT);
        z = (z ^ (z >> 30)).wrapping_mul(FIRST_FACTOR);
        z = (z ^ (z >> 27)).wrapping_mul(SECOND_FACTOR);
        z ^ (z >> 31)
    }
}

// The index of a colour among the Zobrist keys of pieces and of castling rights.
fn colour_index(colour: Colour) -> u16
    ensures value { result ≡ colour_index colour }
    ensures in_range { result < 2 }
{
    match colour {
        Colour::White => 0,
        Colour::Black => 1,
    }
}

// The index of a kind of piece among the Zobrist keys of pieces: pawn 0 to king 5.
fn kind_index(kind: Kind) -> u16
    ensures value { result ≡ kind_index kind }
    ensures in_range { result < 6 }
{
    match kind {
        Kind::Pawn => 0,
        Kind::Knight => 1,
        Kind::Bishop => 2,
        Kind::Rook => 3,
        Kind::Queen => 4,
        Kind::King => 5,
    }
}

/// The Zobrist key of this piece on this square, taken from `keys`: computed (`ComputedKeys`), or looked up in a table.
// Inlined, since chess_bits calls it for each square that a move changes. What that gains was not measured apart.
#[inline(always)]
pub fn man_key<K: Keys>(keys: &K, man: Man, square: Square) -> u64
    ensures { result ≡ man_key man square }
{
    let place = 6 * colour_index(man.colour) + kind_index(man.kind);
    keys.key(64 * place + square.number() as u16)
}

// The part of the Zobrist hash for one square: the key of the piece there, or 0 if it is empty.
fn square_hash(square: Square, man: Option<Man>) -> u64
    ensures { result ≡ xor_of (square_keys square man) }
{
    match man {
        None => 0,
        Some(x) => man_key(&ComputedKeys, x, square),
    }
}

// The part of the Zobrist hash for the pieces: the exclusive or of the keys of all pieces on their squares.
fn men_hash(men: &[Option<Man>; 64]) -> u64
    ensures { result ≡ xor_of (men_keys men.now) }
{
    let mut hash = 0;
    for number in 0..64 {
        let square = Square::new(number);
        hash ^= square_hash(square, men[square.index()]);
    }
    hash
}

// The part of the Zobrist hash for the side on move: 0 for White, a key for Black.
fn side_hash<K: Keys>(keys: &K, side: Colour) -> u64
    ensures { result ≡ xor_of (side_keys side) }
{
    match side {
        Colour::White => 0,
        Colour::Black => keys.key(768),
    }
}

// The part of the Zobrist hash for one castling right of this colour, given as its rook's square: its key, or 0 without
// the right.
fn right_hash<K: Keys>(keys: &K, colour: Colour, rook: Option<Square>) -> u64
    ensures { result ≡ xor_of (right_keys colour rook) }
{
    match rook {
        None => 0,
        Some(square) => keys.key(769 + 8 * colour_index(colour) + square.file() as u16),
    }
}

// The part of the Zobrist hash for the castling rights: the exclusive or of their keys.
fn rights_hash<K: Keys>(keys: &K, rights: &Rights) -> u64
    ensures { result ≡ xor_of (rights_keys rights.now) }
{
    let white_king_side = right_hash(keys, Colour::White, rights.white.king_side);
    let white_queen_side = right_hash(keys, Colour::White, rights.white.queen_side);
    let black_king_side = right_hash(keys, Colour::Black, rights.black.king_side);
    let black_queen_side = right_hash(keys, Colour::Black, rights.black.queen_side);
    white_king_side ^ white_queen_side ^ black_king_side ^ black_queen_side
}

/// The Zobrist hash of the position `setup`, from `of_men`, the exclusive or of its pieces' keys, which the caller
/// knows already. The keys of side and rights are taken from `keys`.
pub fn hash_with<K: Keys>(keys: &K, of_men: u64, setup: &Setup) -> u64
    requires { of_men ≡ xor_of (men_keys setup.now.men) }
    ensures { result ≡ position_hash setup.now.men setup.now.side setup.now.rights }
{
    of_men ^ side_hash(keys, setup.side) ^ rights_hash(keys, &setup.rights)
}

/// The position hash of a setup, computed anew: a Zobrist hash of pieces, side on move and castling rights.
pub fn position_hash(setup: &Setup) -> u64
    ensures { result ≡ position_hash setup.now.men setup.now.side setup.now.rights }
{
    hash_with(&ComputedKeys, men_hash(&setup.men), setup)
}
