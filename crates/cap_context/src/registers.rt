//! The registers that a line of a log writes and reads, by its words.

ghost use Rattle.std.specs.Prelude.{◌≡◌, bytes_eq};
ghost use Rattle.cap_context.specs.Registers.{first_read, hart_after, is_register, is_result, word_at, writes, writes_first, writes_of};
ghost use Rattle.cap_context.specs.Contexts.{number_of, with_digit};

use cap_json::{begins, cut};

/// Whether a word of a log's line names a register.
pub(crate) fn is_register(word: &[u8]) -> bool
    ensures value { result ≡ is_register word.now }
{
    (begins(b"c", word) && word.len() <= 3) || (begins(b"scr", word) && word.len() <= 5)
}

/// Whether a word is this one.
pub(crate) fn is_word(word: &[u8], name: &[u8]) -> bool
    ensures value { result ≡ bytes_eq word.now name.now }
{
    word == name
}

/// A word of a line, counted from 0.
pub(crate) fn word_at(index: u8, line: &[u8]) -> &[u8]
    ensures value { result.now ≡ word_at index line.now }
{
    let (word, more) = cut(b' ', line);
    if index == 0 {
        word
    } else {
        word_at(index - 1, more)
    }
}

// Whether two words of a line begin a result: `=` and a tag.
fn is_result(mark: &[u8], tag: &[u8]) -> bool
    ensures value { result ≡ is_result mark.now tag.now }
{
    is_word(mark, b"=") && tag.len() == 1
}

/// Whether a line writes its first operand.
pub(crate) fn writes_first(line: &[u8]) -> bool
    ensures value { result ≡ writes_first line.now }
{
    let kind = word_at(0, line);
    is_word(kind, b"root")
        || is_word(kind, b"drop")
        || is_result(word_at(3, line), word_at(4, line))
        || is_result(word_at(4, line), word_at(5, line))
}

/// Whether a line writes a register.
pub(crate) fn writes(register: &[u8], line: &[u8]) -> bool
    ensures value { result ≡ writes register.now line.now }
{
    let kind = word_at(0, line);
    if is_word(kind, b"invoke") {
        return is_word(register, b"scr0") || is_word(register, b"c31");
    }
    writes_first(line)
        && (is_word(register, word_at(1, line))
            || (is_word(kind, b"exchange") && is_word(register, word_at(3, line))))
}

/// The hart after a line: the one that a hart line names, or else the hart before it.
pub(crate) fn hart_after<'a>(hart: &'a [u8], line: &'a [u8]) -> &'a [u8]
    ensures value { result.now ≡ hart_after hart.now line.now }
{
    if is_word(word_at(0, line), b"hart") {
        word_at(1, line)
    } else {
        hart
    }
}

/// Whether a line of a hart writes a register of a hart.
pub(crate) fn writes_of(register: &[u8], whose: &[u8], hart: &[u8], line: &[u8]) -> bool
    ensures value { result ≡ writes_of (register.now, whose.now) hart.now line.now }
{
    writes(register, line) && is_word(whose, hart)
}

/// The first operand of a line, if the line doesn't write it.
pub(crate) fn first_read(line: &[u8]) -> &[u8]
    ensures value { result.now ≡ first_read line.now }
{
    if writes_first(line) {
        &[]
    } else {
        word_at(1, line)
    }
}

// A number with one digit more.
fn with_digit(number: u64, digit: u8) -> u64
    ensures value { result ≡ with_digit number digit }
{
    number
        .saturating_mul(10)
        .saturating_add(u64::from(digit.saturating_sub(b'0')))
}

/// The number that digits spell.
pub(crate) fn number_of(digits: &[u8]) -> u64
    ensures value { result ≡ number_of digits.now }
{
    let mut number = 0u64;
    let mut rest = digits;
    while let Some((digit, more)) = rest.split_first() {
        number = with_digit(number, *digit);
        rest = more;
    }
    number
}
