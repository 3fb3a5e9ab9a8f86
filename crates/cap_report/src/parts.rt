//! The parts of the report on a step: each is a few lines that name a value.

ghost use Rattle.std.specs.Prelude.{◌+◌, ◌*◌, ◌≤◌, length};
ghost use Rattle.cap_streams.specs.Written.{Writes};
ghost use Rattle.cap_report.specs.Parts.{bounds_different, differs_line, lines_of_parts, part_lines, rights_different, where_different};

use cap_log::Place;
use cap_log::buffers::{put, put_decimal};
use cap_machine::Refusal;
use cap_texts::cap_lines::{put_bounds_line, put_cap_lines, put_operand_lines};
use cap_texts::text_lines::put_hex_line;
use cap_word::{Cap, Word, split};

/// A part of the report on a step.
#[derive(Clone, Copy)]
pub enum ReportPart {
    /// What the place holds that a result comes from, or that is stored, and the place of its root.
    Source(Place, Cap, Option<Place>),
    /// What the register holds that is the authority, and the place of its root.
    Authority(Place, Cap, Option<Place>),
    /// The bounds that are asked for.
    Request(u64, u128),
    /// The bounds to which these are rounded.
    Rounded(u64, u128),
    /// The bounds at the address that is asked for.
    Moved(u64, u128),
    /// The representable range of the source: where it starts, and after its last address, not reduced
    /// modulo 2^64.
    Representable(u64, u128),
    /// The bytes of an access: the address of the first, and that after the last.
    Access(u64, u128),
    /// The permissions that the authority needs, in the view.
    Needs(u32),
    /// What the rules give for a place, without a tag if a check fails.
    Gives(Place, Cap),
    /// The check for which it has none.
    Cleared(Refusal),
    /// What the line records.
    Recorded(Place, Cap),
    /// The fields in which what the rules give and what the line records differ.
    Differs(Cap, Cap),
}

/// Writes the lines of parts at an index of the buffer, and returns the index after them. Nothing else of
/// the buffer changes.
pub fn put_parts(buffer: &mut [u8], at: usize, parts: &[ReportPart]) -> usize
    requires { at + 256 * length parts.now ≤ length buffer.old }
    ensures written { Writes at (lines_of_parts parts.now) buffer.old buffer.new result }
    ensures fits { result ≤ at + 256 * length parts.now }
{
    let mut end = at;
    for index in 0..parts.len() {
        end = put_part(buffer, end, &parts[index]);
    }
    end
}

// Writes the lines of a part: of a check for which a result has no tag, its number and its name.
#[tactic(auto, using(cap_log::proofs::ElementLemmas::short_decimal), unfolding(crate::specs::Parts::cleared_line))]
fn put_part(buffer: &mut [u8], at: usize, part: &ReportPart) -> usize
    requires { at + 256 ≤ length buffer.old }
    ensures written { Writes at (part_lines part.now) buffer.old buffer.new result }
    ensures fits { result ≤ at + 256 }
{
    match *part {
        ReportPart::Source(place, cap, root) => {
            put_operand_lines(buffer, at, b"source", place, cap, root)
        }
        ReportPart::Authority(place, cap, root) => {
            put_operand_lines(buffer, at, b"authority", place, cap, root)
        }
        ReportPart::Request(base, top) => put_bounds_line(buffer, at, b"request", b" ", base, top),
        ReportPart::Rounded(base, top) => put_bounds_line(buffer, at, b"rounded", b" ", base, top),
        ReportPart::Moved(base, top) => put_bounds_line(buffer, at, b"moved", b" ", base, top),
        ReportPart::Representable(start, end) => {
            put_bounds_line(buffer, at, b"representable", b" ", start, end)
        }
        ReportPart::Access(start, end) => put_bounds_line(buffer, at, b"access", b" ", start, end),
        ReportPart::Needs(view) => put_hex_line(buffer, at, b"needs", 8, u128::from(view)),
        ReportPart::Gives(place, cap) => put_cap_lines(buffer, at, b"gives", place, cap),
        ReportPart::Cleared(fault) => {
            let at = put(buffer, at, b"cleared ");
            let at = put_decimal(buffer, at, u64::from(fault.number()));
            let at = put(buffer, at, b" ");
            let at = put(buffer, at, fault.name().as_bytes());
            put(buffer, at, b"\n")
        }
        ReportPart::Recorded(place, cap) => put_cap_lines(buffer, at, b"recorded", place, cap),
        ReportPart::Differs(given, recorded) => put_differs_line(buffer, at, given, recorded),
    }
}

// Writes the names of the fields in which two capabilities differ.
#[tactic(auto, unfolding(crate::specs::Parts::differs_line))]
fn put_differs_line(buffer: &mut [u8], at: usize, a: Cap, b: Cap) -> usize
    requires { at + 128 ≤ length buffer.old }
    ensures written { Writes at (differs_line a b) buffer.old buffer.new result }
    ensures fits { result ≤ at + 128 }
{
    let at = put(buffer, at, b"differs");
    let at = put_different_rights(buffer, at, a, b);
    let at = put_different_bounds(buffer, at, a.word, b.word);
    put(buffer, at, b"\n")
}

// Writes the names of those beside their bounds.
fn put_different_rights(buffer: &mut [u8], at: usize, a: Cap, b: Cap) -> usize
    requires { at + 45 ≤ length buffer.old }
    ensures written { Writes at (rights_different a b) buffer.old buffer.new result }
    ensures fits { result ≤ at + 45 }
{
    let (x, y) = (split(a.word), split(b.word));
    let at = put_where(buffer, at, a.tag == b.tag, b" tag");
    let at = put_where(buffer, at, x.perms == y.perms, b" perms");
    let at = put_where(buffer, at, x.reserved == y.reserved, b" reserved");
    let at = put_where(buffer, at, x.flag == y.flag, b" flag");
    put_where(buffer, at, x.otype == y.otype, b" otype")
}

// Writes the names of those of their bounds and their address.
fn put_different_bounds(buffer: &mut [u8], at: usize, a: Word, b: Word) -> usize
    requires { at + 45 ≤ length buffer.old }
    ensures written { Writes at (bounds_different a.0 b.0) buffer.old buffer.new result }
    ensures fits { result ≤ at + 45 }
{
    let (x, y) = (split(a), split(b));
    let at = put_where(buffer, at, x.ie == y.ie, b" ie");
    let at = put_where(buffer, at, x.e == y.e, b" e");
    let at = put_where(buffer, at, x.b == y.b, b" b");
    let at = put_where(buffer, at, x.t == y.t, b" t");
    put_where(buffer, at, x.address == y.address, b" address")
}

// Writes a field's name, if it differs.
fn put_where(buffer: &mut [u8], at: usize, same: bool, name: &[u8]) -> usize
    requires short { length name.now ≤ 9 }
    requires room { at + 9 ≤ length buffer.old }
    ensures written { Writes at (where_different same name.now) buffer.old buffer.new result }
    ensures fits { result ≤ at + 9 }
{
    if same { at } else { put(buffer, at, name) }
}
