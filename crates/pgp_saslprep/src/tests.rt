//! What no row can say: that a normal form's lack of memory is reported, and what is normalized.

use crate::{Nfkc, saslprep};
use pgp_base::Error;
use std::alloc::AllocError;

// For which there is no memory.
struct NoMemory;

impl Nfkc for NoMemory {
    ghost Lacks = { Unit {0} };

    fn nfkc(&self, _text: &str) -> Result<String, AllocError> {
        Err(AllocError)
    }
}

#[test]
fn a_normal_form_without_memory_is_reported(rt: HostRuntime) {
    let is_reported = matches!(
        saslprep(rt.alloc(), "caf\u{e9}", &NoMemory),
        Err(Error::OutOfMemory)
    );
    assert!(rt; is_reported);
}
