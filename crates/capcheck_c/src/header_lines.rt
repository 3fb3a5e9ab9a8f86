//! The lines at the beginning and the end of a log.
//!
//! Each call answers how many bytes it wrote, the line feed with them, or 0 if a number is out of its
//! range; then the buffer is as it was.

ghost use Rattle.std.specs.Prelude.{◌≡◌, ◌/◌, ◌%◌};
ghost use Rattle.cap_log.specs.Lines.{IsLineAt};
ghost use Rattle.cap_log.specs.declared.lines.Line.TheVariants as line;
ghost use Rattle.cap_log.specs.declared.lines.Place.TheVariants as place;
ghost use Rattle.cap_halves.specs.Passed.{is_set, whole_of};
ghost use Rattle.capcheck_c.specs.LinesWritten.{AnswersLine, mode_of};

use cap_halves::halves::word_of;
use cap_halves::values::Halves;
use cap_log::{Line, Mode, Place, Target, write_line};

/// Writes a version line into the buffer: 1 or 2.
#[unsafe(no_mangle)]
pub extern "C" fn capcheck_line_version(buffer: &mut [u8; 96], version: u64) -> usize
    ensures line { AnswersLine (line.Version version) buffer.old buffer.new result }
{
    if version != 1 && version != 2 {
        return 0;
    }
    write_line(&Line::Version(version as u8), buffer)
}

/// Writes the mode line of a log of version 2 into the buffer: clear mode, or else strict mode.
#[unsafe(no_mangle)]
pub extern "C" fn capcheck_line_mode(buffer: &mut [u8; 96], clear: u8) -> usize
    ensures line { IsLineAt (line.Mode (mode_of (is_set clear))) buffer.old buffer.new result }
{
    let mode = if clear != 0 {
        Mode::Clear
    } else {
        Mode::Strict
    };
    write_line(&Line::Mode(mode), buffer)
}

/// Writes the line of a root in a register, 1 to 31, into the buffer.
#[unsafe(no_mangle)]
pub extern "C" fn capcheck_line_root(buffer: &mut [u8; 96], register: u64, word: Halves) -> usize
    ensures line { AnswersLine (line.Root (place.Register register) (record { 0 = whole_of word })) buffer.old buffer.new result }
{
    let Some(register) = Target::new(register) else {
        return 0;
    };
    let place = Place::Register(register.number());
    write_line(&Line::Root(place, word_of(word)), buffer)
}

/// Writes the line of a root in memory, at an address that is a multiple of 16, into the buffer.
#[unsafe(no_mangle)]
pub extern "C" fn capcheck_line_root_at(buffer: &mut [u8; 96], address: u64, word: Halves) -> usize
    ensures written { address % 16 ≡ 0
        → IsLineAt (line.Root (place.Granule (address / 16)) (record { 0 = whole_of word })) buffer.old buffer.new result }
    ensures refused { ¬ (address % 16 ≡ 0)
        → (result ≡ 0) × (buffer.new ≡ buffer.old) }
{
    if !address.is_multiple_of(16) {
        return 0;
    }
    let place = Place::Granule(address / 16);
    write_line(&Line::Root(place, word_of(word)), buffer)
}

/// Writes the end line with the number of step lines, below 2^32, into the buffer.
#[unsafe(no_mangle)]
pub extern "C" fn capcheck_line_end(buffer: &mut [u8; 96], steps: u64) -> usize
    ensures line { AnswersLine (line.End steps) buffer.old buffer.new result }
{
    if steps > 0xffff_ffff {
        return 0;
    }
    write_line(&Line::End(steps as u32), buffer)
}
