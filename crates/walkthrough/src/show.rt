// Bytes in print.
use std::alloc::{AllocError, Global};

// The bytes in hexadecimal, parted by blanks.
pub(crate) fn hex(heap: Global, bytes: &[u8]) -> Result<String, AllocError> {
    let pairs: Vec<String> = bytes
        .iter()
        .map(|byte| format!(in heap; "{byte:02X}"))
        .try_collect(heap)?;
    pairs.join(heap, " ")
}
