//! What a test asserts. Each assertion is proved here, once, and what a call promises isn't carried through a whole test:
//! that is what makes a test quick to prove.
use std::fmt::Debug;
use std::process::Abort;

/// The two are the same.
pub(crate) fn is<T: PartialEq + Debug + Drop>(rt: &impl Abort, got: T, want: T) {
    assert_eq!(rt; got, want);
}

/// The bytes are the same.
pub(crate) fn is_bytes(rt: &impl Abort, got: &[u8], want: &[u8]) {
    is(rt, got, want);
}

/// This holds.
pub(crate) fn holds(rt: &impl Abort, fact: bool, what: &str) {
    assert!(rt; fact, "{what}");
}
