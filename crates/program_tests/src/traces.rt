//! Whether a text is the trace of a run.

use std::alloc::{AllocError, Global};

/// Whether this is the trace of a run that starts, fires so often, and ends with these lines.
pub(crate) fn is_trace(text: &[u8], firings: u32, last: &str) -> bool {
    let Some(mut rest) = text.strip_prefix(b"estelle trace 1\nstart\n".as_slice()) else {
        return false;
    };
    for _ in 0..firings {
        let Some(behind) = rest.strip_prefix(b"select / now 0 takes /:1\nfire / 1\n".as_slice())
        else {
            return false;
        };
        rest = behind;
    }
    rest == last.as_bytes()
}

/// A text with blanks behind it, so that it has this many bytes.
pub(crate) fn filled(alloc: Global, text: &str, length: usize) -> Result<Vec<u8>, AllocError> {
    let mut bytes = text.as_bytes().to_vec(alloc)?;
    bytes.resize(length, b' ')?;
    Ok(bytes)
}
