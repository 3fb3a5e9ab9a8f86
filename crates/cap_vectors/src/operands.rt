//! Reading the operands of a vector's line, which stand at fixed indexes.

ghost use Rattle.std.specs.Prelude.{◌≡◌, ℕ, ◌+◌, ◌^◌, ◌<◌, ◌≤◌, List, ◌++◌, length, IsSomeAnd};
ghost use Rattle.cap_word.specs.Digits.{hex_digits};

use cap_word::{Word, read_u64, read_word};

/// The word whose 32 digits stand at an index of a line, and `None` if no such digits stand there.
pub fn word_at(line: &[u8], at: usize) -> Option<Word>
    requires { at ≤ 64 }
    ensures value { (n : ℕ) (front rest : List ℕ) → n < 2 ^ 128 → length front ≡ at → line.now ≡ front ++ (hex_digits 32 n ++ rest)
        → IsSomeAnd result (λ word. word.0 ≡ n) }
{
    if line.len() < at + 32 {
        return None;
    }
    read_word(&line[at..at + 32])
}

/// The number whose sixteen digits stand at an index of a line, and `None` if no such digits stand there.
pub fn number_at(line: &[u8], at: usize) -> Option<u64>
    requires { at ≤ 64 }
    ensures value { (n : ℕ) (front rest : List ℕ) → n < 2 ^ 64 → length front ≡ at → line.now ≡ front ++ (hex_digits 16 n ++ rest)
        → IsSomeAnd result (λ m. m ≡ n) }
{
    if line.len() < at + 16 {
        return None;
    }
    read_u64(&line[at..at + 16])
}
