//! Numbers of a few digits.

ghost use Rattle.std.specs.Prelude.{◌≡◌, ◌^◌, ◌<◌, ◌≤◌, IfSome};
ghost use Rattle.text_lines.specs.Words.{short_number};

/// The number that a text of 1 to `most` digits denotes; `None` for any other text.
pub fn short_number(text: &[u8], most: usize) -> Option<u32>
    requires { most ≤ 9 }
    ensures value { result ≡ short_number most text.now }
    ensures small { IfSome result (λ n. n < 10 ^ most) }
{
    if text.is_empty() || text.len() > most {
        return None;
    }
    let mut number = 0;
    for byte in text {
        if !byte.is_ascii_digit() {
            return None;
        }
        number = 10 * number + u32::from(*byte - b'0');
    }
    Some(number)
}
