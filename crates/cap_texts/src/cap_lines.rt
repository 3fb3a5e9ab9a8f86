//! The lines that show a capability of a report: its place, tag and word, what these stand for, and from
//! which root it comes.

ghost use Rattle.std.specs.Prelude.{◌+◌, ◌≤◌, length};
ghost use Rattle.cap_streams.specs.Written.{Writes};
ghost use Rattle.cap_texts.specs.CapLines.{bounds_line, cap_lines, cap_line, meaning_lines};
ghost use Rattle.cap_texts.specs.{CapLines.{operand_lines, perms_line, type_line}, ExplainLines.type_name};

use crate::explain_lines::type_name;
use cap_bounds::{Interval, bounds};
use cap_log::Place;
use cap_log::buffers::{put, put_flag, put_hex, put_place};
use cap_ops::perm_view;
use cap_word::{Cap, Word, split};

/// Writes the lines of an operand that has this name in a report, and returns the index after them: the
/// four of the capability that its place holds, and the place of the root that this descends from, if
/// there is one. Nothing else of the buffer changes.
#[tactic(auto, unfolding(crate::specs::CapLines::operand_lines, crate::specs::CapLines::descent_line))]
pub fn put_operand_lines(
    buffer: &mut [u8],
    at: usize,
    name: &[u8],
    place: Place,
    cap: Cap,
    root: Option<Place>,
) -> usize
    requires name { length name.now ≤ 9 }
    requires room { at + 256 ≤ length buffer.old }
    ensures written { Writes at (operand_lines name.now place cap root) buffer.old buffer.new result }
    ensures fits { result ≤ at + 256 }
{
    let at = put_cap_lines(buffer, at, name, place, cap);
    match root {
        Some(root) => {
            let at = put(buffer, at, name);
            let at = put(buffer, at, b" origin ");
            let at = put_place(buffer, at, root);
            put(buffer, at, b"\n")
        }
        None => at,
    }
}

/// Writes the four lines of a capability that has this name in a report, and returns the index after
/// them. Nothing else of the buffer changes.
#[tactic(auto, unfolding(crate::specs::CapLines::cap_lines))]
pub fn put_cap_lines(buffer: &mut [u8], at: usize, name: &[u8], place: Place, cap: Cap) -> usize
    requires name { length name.now ≤ 9 }
    requires room { at + 192 ≤ length buffer.old }
    ensures written { Writes at (cap_lines name.now place cap) buffer.old buffer.new result }
    ensures fits { result ≤ at + 192 }
{
    let at = put_cap_line(buffer, at, name, place, cap);
    put_meaning_lines(buffer, at, name, cap.word)
}

/// Writes what a word stands for: the lines of its permissions, its object type and its bounds, after this name, and
/// returns the index after them. Nothing else of the buffer changes.
pub fn put_meaning_lines(buffer: &mut [u8], at: usize, name: &[u8], word: Word) -> usize
    requires name { length name.now ≤ 9 }
    requires room { at + 108 ≤ length buffer.old }
    ensures written { Writes at (meaning_lines name.now word.0) buffer.old buffer.new result }
    ensures fits { result ≤ at + 108 }
{
    let Interval { base, top } = bounds(word);
    let at = put(buffer, at, name);
    let at = put(buffer, at, b" perms ");
    let at = put_hex(buffer, at, 8, u128::from(perm_view(word)));
    let at = put(buffer, at, b"\n");
    let at = put_type_line(buffer, at, name, split(word).otype);
    put_bounds_line(buffer, at, name, b" bounds ", base, top)
}

// Writes the place, the tag and the word.
#[tactic(auto, unfolding(crate::specs::CapLines::cap_line))]
fn put_cap_line(buffer: &mut [u8], at: usize, name: &[u8], place: Place, cap: Cap) -> usize
    requires name { length name.now ≤ 9 }
    requires room { at + 96 ≤ length buffer.old }
    ensures written { Writes at (cap_line name.now place cap) buffer.old buffer.new result }
    ensures fits { result ≤ at + 63 }
{
    let at = put(buffer, at, name);
    let at = put(buffer, at, b" ");
    let at = put_place(buffer, at, place);
    let at = put(buffer, at, b" ");
    let at = put_flag(buffer, at, cap.tag);
    let at = put(buffer, at, b" ");
    let at = put_hex(buffer, at, 32, cap.word.0);
    put(buffer, at, b"\n")
}

// Writes the object type, and what it stands for.
#[tactic(auto, unfolding(crate::specs::CapLines::type_line))]
fn put_type_line(buffer: &mut [u8], at: usize, name: &[u8], otype: u32) -> usize
    requires name { length name.now ≤ 9 }
    requires room { at + 31 ≤ length buffer.old }
    ensures written { Writes at (type_line name.now otype) buffer.old buffer.new result }
    ensures fits { result ≤ at + 31 }
{
    let at = put(buffer, at, name);
    let at = put(buffer, at, b" otype ");
    let at = put_hex(buffer, at, 5, u128::from(otype));
    let at = put(buffer, at, b" ");
    let at = put(buffer, at, type_name(otype).as_bytes());
    put(buffer, at, b"\n")
}

/// Writes a line of two bounds after a name and a word, and returns the index after it. Nothing else of
/// the buffer changes.
#[tactic(auto, unfolding(crate::specs::CapLines::bounds_line))]
pub fn put_bounds_line(
    buffer: &mut [u8],
    at: usize,
    name: &[u8],
    word: &[u8],
    base: u64,
    top: u128,
) -> usize
    requires names { length name.now + length word.now ≤ 17 }
    requires room { at + 52 ≤ length buffer.old }
    ensures written { Writes at (bounds_line name.now word.now base top) buffer.old buffer.new result }
    ensures fits { result ≤ at + 52 }
{
    let at = put(buffer, at, name);
    let at = put(buffer, at, word);
    let at = put_hex(buffer, at, 16, u128::from(base));
    let at = put(buffer, at, b" ");
    let at = put_hex(buffer, at, 17, top);
    put(buffer, at, b"\n")
}
