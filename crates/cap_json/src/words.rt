//! The lines of a report, the words of a line, and the text of a string.

ghost use Rattle.std.specs.Prelude.{◌≡◌, ◌<◌, ◌≤◌, ◌++◌, length, IsTrue, OnOk};
ghost use Rattle.cap_json.specs.Words.{begins, escaped, escaped_byte, past, upto};

use std::alloc::AllocError;

/// The bytes before the first of a kind, and those after it; all bytes and none if there is none.
#[tactic(auto, unfolding(crate::specs::Words::upto, crate::specs::Words::past))]
pub fn cut(end: u8, bytes: &[u8]) -> (&[u8], &[u8])
    ensures before { result.0.now ≡ upto end bytes.now }
    ensures after { result.1.now ≡ past end bytes.now }
    ensures shorter { 0 < length bytes.now → length result.1.now < length bytes.now }
{
    for (index, byte) in bytes.iter().enumerate() {
        if *byte == end {
            return (&bytes[..index], &bytes[index + 1..]);
        }
    }
    (bytes, &[])
}

/// Whether a line begins with a name.
#[tactic(auto, unfolding(crate::specs::Words::begins))]
pub fn begins(name: &[u8], line: &[u8]) -> bool
    ensures value { result ≡ begins name.now line.now }
    ensures short { IsTrue result → length name.now ≤ length line.now }
{
    let Some((first, name)) = name.split_first() else {
        return true;
    };
    match line.split_first() {
        Some((byte, line)) if first == byte => begins(name, line),
        _ => false,
    }
}

// Appends a byte in a string.
fn push_escaped_byte(object: &mut Vec<u8>, byte: u8) -> Result<(), AllocError>
    ensures ok { OnOk result (object.new.items ≡ object.old.items ++ escaped_byte byte) }
{
    if byte == b'"' || byte == b'\\' {
        object.push(b'\\')?;
    }
    object.push(byte)?;
    Ok(())
}

/// Appends the text of a string.
pub(crate) fn push_escaped(object: &mut Vec<u8>, bytes: &[u8]) -> Result<(), AllocError>
    ensures ok { OnOk result (object.new.items ≡ object.old.items ++ escaped bytes.now) }
{
    for byte in bytes {
        push_escaped_byte(object, *byte)?;
    }
    Ok(())
}
