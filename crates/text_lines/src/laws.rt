//! Laws of the definitions. A caller learns one by calling its function, which does nothing.

ghost use Rattle.std.specs.Prelude.{◌≡◌, ◌<◌, ℕ, Bool, true, false, List, [], ◌∷◌, ◌++◌, length};
ghost use Rattle.byte_devices.specs.Bytes.{new_line};
ghost use Rattle.text_lines.specs.Lines.{stream_lines, line_of};
ghost use Rattle.text_lines.specs.laws.Unended.{HasNoEnd};

/// States a law and does nothing. Of no bytes there is no line. Each `\n` of a stream ends a line; what follows the
/// last `\n`, if it isn't empty, is a line too if the end of the stream was reported (`at_end`), and otherwise none
/// yet. Lines of more than `n` bytes are too long.
pub fn lines_are_pieces()
    ensures empty { (n : ℕ) (at_end : Bool) → stream_lines n at_end [] ≡ [] }
    ensures ended { (n : ℕ) (at_end : Bool) (piece rest : List ℕ) → HasNoEnd piece →
        stream_lines n at_end (piece ++ new_line ∷ rest) ≡ line_of n true piece ∷ stream_lines n at_end rest }
    ensures last { (n : ℕ) (piece : List ℕ) → HasNoEnd piece → 0 < length piece →
        stream_lines n true piece ≡ line_of n false piece ∷ [] }
    ensures not_at_end { (n : ℕ) (piece : List ℕ) → HasNoEnd piece → stream_lines n false piece ≡ [] }
{}
