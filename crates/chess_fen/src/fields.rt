//! The fields of a text.

ghost use Rattle.std.specs.Prelude.{◌≡◌, ◌∷◌, [], IfSome, IfNone, not, position, drop, ◌==◌};
ghost use Rattle.std.specs.List.{position_or_len, before_first};
ghost use Rattle.byte_devices.specs.Bytes.{space};
ghost use Rattle.chess_fen.specs.Texts.{fields_of};
ghost use Rattle.chess_fen.specs.ties.Fields.{FieldsAre};

// The offset of a text's first byte that is no space, if there is one. For the prover, this search and that of
// `first_space` are functions of their own.
fn first_other(text: &[u8]) -> Option<usize>
    ensures { result ≡ position (λ b. not (b == space)) text.now }
{
    text.iter().position(|byte| *byte != b' ')
}

// The offset of a text's first space, if there is one.
fn first_space(text: &[u8]) -> Option<usize>
    ensures { result ≡ position (λ b. b == space) text.now }
{
    text.iter().position(|byte| *byte == b' ')
}

// The text from its first byte that is no space on.
#[tactic(auto, using(crate::proofs::CutFields::place_or_len, crate::proofs::CutFields::place_le))]
pub(crate) fn skip_spaces(text: &[u8]) -> &[u8]
    ensures { result.now ≡ drop (position_or_len (λ b. not (b == space)) text.now) text.now }
{
    let start = first_other(text).unwrap_or(text.len());
    text.split_at(start).1
}

// Splits a text before its first space: what is before that space, and what is from it on. Without a space the second
// part is empty. (`skip_spaces` cuts before the first byte that is no space, and returns only what is from there on.)
#[tactic(auto, using(crate::proofs::CutFields::place_or_len, crate::proofs::CutFields::place_le))]
fn split_before_space(text: &[u8]) -> (&[u8], &[u8])
    ensures front { result.0.now ≡ before_first (λ b. b == space) text.now }
    ensures back { result.1.now ≡ drop (position_or_len (λ b. b == space) text.now) text.now }
{
    let end = first_space(text).unwrap_or(text.len());
    text.split_at(end)
}

// The next field, which is between spaces, and the text after it; none if only spaces are left.
pub(crate) fn next_field(text: &[u8]) -> Option<(&[u8], &[u8])>
    ensures found { IfSome result (λ r. fields_of text.now ≡ r.0.now ∷ fields_of r.1.now) }
    ensures none { IfNone result (fields_of text.now ≡ []) }
{
    let text = skip_spaces(text);
    if text.is_empty() {
        None
    } else {
        Some(split_before_space(text))
    }
}

// The fields of a FEN after the first; where the counters are left out, they are 0 and 1.
#[derive(Clone, Copy)]
pub(crate) struct Fields<'a> {
    pub side: &'a [u8],
    pub castling: &'a [u8],
    pub target: &'a [u8],
    pub halfmove: &'a [u8],
    pub fullmove: &'a [u8],
}

// Cuts the text after a FEN's first field into the other fields, three or five. If there are three, the counters are
// left out, and are 0 and 1. `None` for any other number of fields.
pub(crate) fn read_fields(text: &[u8]) -> Option<Fields<'_>>
    ensures { FieldsAre result (fields_of text.now) }
{
    let (side, rest) = next_field(text)?;
    let (castling, rest) = next_field(rest)?;
    let (target, rest) = next_field(rest)?;
    let (halfmove, fullmove) = match next_field(rest) {
        None => (b"0".as_slice(), b"1".as_slice()),
        Some((halfmove, rest)) => {
            let (fullmove, rest) = next_field(rest)?;
            if next_field(rest).is_some() {
                return None;
            }
            (halfmove, fullmove)
        }
    };
    Some(Fields {
        side,
        castling,
        target,
        halfmove,
        fullmove,
    })
}
