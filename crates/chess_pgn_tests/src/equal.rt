//! Comparisons, for the other tests.

use std::fmt::Debug;
use std::process::Abort;

// Both assert that two values are equal, the second with the offset and the text that a failure shows. They are
// functions for all types, since an assertion for each costs much to prove.

pub fn is_equal<T: PartialEq + Debug>(rt: &impl Abort, found: &T, wanted: &T) {
    assert_eq!(rt; *found, *wanted);
}

pub fn is_equal_at<T: PartialEq + Debug>(
    rt: &impl Abort,
    offset: usize,
    text: &[u8],
    found: &T,
    wanted: &T,
) {
    assert_eq!(rt; *found, *wanted, "at {offset} of {text:?}");
}
