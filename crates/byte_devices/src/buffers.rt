//! Buffers, in which a text is put together before it is written.

ghost use Rattle.std.specs.Prelude.{◌≡◌, ◌+◌, ◌≤◌, ◌++◌, length, decimal};
ghost use Rattle.arrayvec.specs.ArrayVec.{array_vec_len};

use arrayvec::ArrayVec;
use itoa::Buffer;

/// Appends a text to a buffer, which has room for it.
pub fn append<const CAP: usize>(buffer: &mut ArrayVec<u8, CAP>, text: &[u8])
    requires { array_vec_len buffer.old + length text.now ≤ CAP }
    ensures text { buffer.new.items ≡ buffer.old.items ++ text.now }
    ensures len { array_vec_len buffer.new ≡ array_vec_len buffer.old + length text.now }
{
    buffer.try_extend_from_slice(text).unwrap();
}

/// Appends a number in decimal to a buffer, which has room for 20 digits.
#[tactic(auto, using(crate::proofs::Decimals::few_digits))]
pub fn append_number<const CAP: usize>(buffer: &mut ArrayVec<u8, CAP>, number: u64)
    requires { array_vec_len buffer.old + 20 ≤ CAP }
    ensures text { buffer.new.items ≡ buffer.old.items ++ decimal number }
    ensures len { array_vec_len buffer.new ≤ array_vec_len buffer.old + 20 }
{
    let mut digits = Buffer::new();
    append(buffer, digits.format(number).as_bytes());
}
