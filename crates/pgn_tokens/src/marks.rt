//! Words that are marks such as `!?`.

ghost use Rattle.std.specs.Prelude.{◌≡◌, ◌||◌, ◌==◌};
ghost use Rattle.std.specs.List.{list_all};
ghost use Rattle.byte_devices.specs.Bytes.{byte};
ghost use Rattle.pgn_tokens.specs.Marks.{is_marks};

// Whether all bytes of a word are `!` or `?`, as in `!?`; true of the empty word.
fn has_marks_alone(word: &[u8]) -> bool
    ensures { result ≡ list_all (λ c. c == byte "!" || c == byte "?") word.now }
{
    word.iter().all(|byte| *byte == b'!' || *byte == b'?')
}

/// Whether a word is marks such as `!?`: one or more `!` and `?`.
pub fn is_marks(word: &[u8]) -> bool
    ensures { result ≡ is_marks word.now }
{
    !word.is_empty() && has_marks_alone(word)
}
