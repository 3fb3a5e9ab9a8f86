//! A vector file, in each way that there is to give it.

use cap_log::SliceSource;
use cap_vectors::{VectorVerdict, vector_text, vectors};
use std::alloc::{AllocError, Global};

/// Whether the verdict on a vector file has this line, and is the same in pieces of one byte.
pub fn vectors_hold(alloc: Global, file: &[u8], line: &[u8]) -> Result<bool, AllocError> {
    let lengths = vec![in alloc; 1usize; file.len()]?;
    let verdict = checked(file, &[]);
    let mut text = [0u8; 64];
    let length = vector_text(&verdict, &mut text);
    Ok(&text[..length] == line && checked(file, &lengths) == verdict)
}

// The verdict on a file in pieces of these lengths, of which no pull fails.
fn checked(file: &[u8], lengths: &[usize]) -> VectorVerdict {
    let none = VectorVerdict::Pass { lines: u64::MAX };
    vectors(&mut SliceSource::new(file, lengths)).unwrap_or(none)
}
