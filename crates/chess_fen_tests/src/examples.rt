//! The examples in the documentation of chess_fen's items.

use chess_base::{FenFault, Move, Position, Square, Variant};
use chess_fen::Fen;
use std::alloc::Global;
use std::hash::{DefaultHasher, Hash, Hasher};
use std::process::Abort;
use std::test::Fail;

// The position after 1. e2-e4.
fn after_e4(rt: &impl Abort, position: &Position) -> Position {
    let m = Move {
        from: Square::new(12),
        to: Square::new(28),
        promotion: None,
    };
    // The prover wants two variables here, since the move is given away twice.
    let judged = m;
    assert!(rt; position.is_legal(judged));
    position.after(m)
}

// A FEN, and that of a position after it, as the example writes them.
fn shown(alloc: Global, fen: &Fen, after: &Position) -> Result<String, Fail> {
    Ok(format!(in alloc; "{fen} and then {}", Fen::from(after))?)
}

// A FEN is shown in the form in which it is written, whatever form it was read in; one that is refused is a fault.
#[test]
fn fens_are_parsed_and_shown(rt: HostRuntime) -> Result<(), Fail> {
    let fen: Fen = " 4k3/8/8/8/8/8/4P3/4K3  w - - ".parse()?;
    let after = after_e4(&rt, fen.position());
    assert_eq!(rt;
        shown(rt.alloc(), &fen, &after)?.as_str(),
        "4k3/8/8/8/8/8/4P3/4K3 w - - 0 1 and then 4k3/8/8/8/4P3/8/8/4K3 b - e3 0 1"
    );
    assert_eq!(rt;
        "4k3/8/8/8/8/8/8/8 w - -".parse::<Fen>(),
        Err(FenFault::Kings)
    );
    Ok(())
}

// The hash of a FEN by `Hash`.
fn hash_of(fen: &Fen) -> u64 {
    let mut state = DefaultHasher::new();
    fen.hash(&mut state);
    state.finish()
}

// The same text is a FEN of normal chess and of Chess960, since there is no castling right. These two differ, have
// different hashes, and are in order.
#[test]
fn fens_of_two_variants_differ(rt: HostRuntime) -> Result<(), Fail> {
    let text = b"4k3/8/8/8/8/8/4P3/4K3 w - - 0 1";
    let normal = Fen::read_as(Variant::Normal, text)?;
    let again = Fen::try_from(text.as_slice())?;
    let chess960 = Fen::read_as(Variant::Fischerandom, text)?;
    assert!(rt; normal.as_str() == chess960.as_str());
    assert!(rt; normal.position() != chess960.position());
    assert!(rt; normal == again && hash_of(&normal) == hash_of(&again));
    assert!(rt; normal != chess960 && hash_of(&normal) != hash_of(&chess960));
    assert!(rt; normal < chess960 && chess960 > normal);
    Ok(())
}

// FENs are ordered by their texts first, whatever their variants.
#[test]
fn fens_are_ordered_by_their_texts(rt: HostRuntime) -> Result<(), Fail> {
    let first = Fen::read_as(Variant::Fischerandom, b"4k3/8/8/8/8/8/4P3/4K3 b - - 0 1")?;
    let second = Fen::read_as(Variant::Normal, b"4k3/8/8/8/8/8/4P3/4K3 w - - 0 1")?;
    assert!(rt; first < second);
    Ok(())
}

// The debug text of a FEN has its text, as it is written, in quotes.
#[test]
fn fens_are_debugged_in_quotes(rt: HostRuntime) -> Result<(), Fail> {
    let fen: Fen = "4k3/8/8/8/8/8/4P3/4K3 w - -".parse()?;
    assert_eq!(rt;
        format!(in rt.alloc(); "{fen:?}")?.as_str(),
        "Fen(\"4k3/8/8/8/8/8/4P3/4K3 w - - 0 1\")"
    );
    Ok(())
}
