//! The line of a verdict on a vector file.

ghost use Rattle.std.specs.Prelude.{◌≡◌, ◌≤◌, length, take, drop, ◌++◌, codes, decimal};
ghost use Rattle.cap_vectors.specs.VectorFiles.{vector_line};

use crate::files::VectorVerdict;
use cap_log::buffers::{put, put_decimal};

/// Writes the line of a verdict on a vector file, `pass LINES` or `fail LINE` with its line feed, at the
/// front of the buffer, and answers its length. The rest of the buffer stays as it was.
pub fn vector_text(verdict: &VectorVerdict, buffer: &mut [u8; 64]) -> usize
    ensures line { take result buffer.new ≡ vector_line verdict.now }
    ensures length { result ≡ length (vector_line verdict.now) }
    ensures fits { result ≤ 64 }
    ensures rest { drop result buffer.new ≡ drop result buffer.old }
{
    match *verdict {
        VectorVerdict::Pass { lines } => number_text(b"pass ", lines, buffer),
        VectorVerdict::Fail { line } => number_text(b"fail ", line, buffer),
    }
}

// Writes a word, a number and a line feed at the front of the buffer, and answers their length. The rest of
// the buffer stays as it was.
#[tactic(auto, using(cap_log::proofs::ElementLemmas::short_decimal))]
fn number_text(word: &[u8; 5], number: u64, buffer: &mut [u8; 64]) -> usize
    ensures line { take result buffer.new ≡ word.now ++ decimal number ++ codes "\n" }
    ensures length { result ≡ length (word.now ++ decimal number ++ codes "\n") }
    ensures fits { result ≤ 64 }
    ensures rest { drop result buffer.new ≡ drop result buffer.old }
{
    let at = put(buffer, 0, word);
    let at = put_decimal(buffer, at, number);
    put(buffer, at, b"\n")
}
