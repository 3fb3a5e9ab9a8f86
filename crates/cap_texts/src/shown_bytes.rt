//! Bytes as they are shown.

ghost use Rattle.std.specs.Prelude.{◌*◌, ◌+◌, ◌≤◌, length};
ghost use Rattle.cap_streams.specs.Written.{Writes};
ghost use Rattle.cap_texts.specs.{ShownBytes.{shown, shown_byte, shown_line}, TextLines.text_line};

use cap_log::buffers::{put, put_hex};

/// Writes a line of a log so that it can be shown, after its name, and returns the index after it. Nothing
/// else of the buffer changes.
#[tactic(auto, unfolding(crate::specs::ShownBytes::shown_line))]
pub fn put_shown_line(buffer: &mut [u8], at: usize, text: &[u8]) -> usize
    requires { at + 4 * length text.now + 6 ≤ length buffer.old }
    ensures written { Writes at (shown_line text.now) buffer.old buffer.new result }
    ensures fits { result ≤ at + 4 * length text.now + 6 }
{
    put_shown_text(buffer, at, b"line", text)
}

/// Writes a line whose value is text as it is shown, as [`put_line`](crate::text_lines::put_line) does.
#[tactic(auto, unfolding(crate::specs::TextLines::text_line))]
pub(crate) fn put_shown_text(buffer: &mut [u8], at: usize, name: &[u8], text: &[u8]) -> usize
    requires { at + length name.now + 4 * length text.now + 2 ≤ length buffer.old }
    ensures written { Writes at (text_line name.now (shown text.now)) buffer.old buffer.new result }
    ensures fits { result ≤ at + length name.now + 4 * length text.now + 2 }
{
    let at = put(buffer, at, name);
    let at = put(buffer, at, b" ");
    let at = put_shown(buffer, at, text);
    put(buffer, at, b"\n")
}

/// Writes bytes at an index of the buffer so that they can be shown, and returns the index after them: a
/// byte that is no character of ASCII, a control byte and a backslash are shown as `\x` and two digits.
/// Nothing else of the buffer changes.
pub fn put_shown(buffer: &mut [u8], at: usize, bytes: &[u8]) -> usize
    requires { at + 4 * length bytes.now ≤ length buffer.old }
    ensures written { Writes at (shown bytes.now) buffer.old buffer.new result }
    ensures fits { result ≤ at + 4 * length bytes.now }
{
    let mut end = at;
    for index in 0..bytes.len() {
        end = put_shown_byte(buffer, end, bytes[index]);
    }
    end
}

// Writes one byte so.
fn put_shown_byte(buffer: &mut [u8], at: usize, byte: u8) -> usize
    requires { at + 4 ≤ length buffer.old }
    ensures written { Writes at (shown_byte byte) buffer.old buffer.new result }
    ensures fits { result ≤ at + 4 }
{
    if byte >= 32 && byte <= 126 && byte != b'\\' {
        put(buffer, at, &[byte])
    } else {
        let at = put(buffer, at, b"\\x");
        put_hex(buffer, at, 2, u128::from(byte))
    }
}
