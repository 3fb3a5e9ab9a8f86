//! The parts of a sentence: numbers, ranges, and how far a range goes beyond bounds.

ghost use Rattle.std.specs.Prelude.{◌≡◌, ◌+◌, ◌^◌, ◌<◌, ◌≤◌, nat_lt, length};
ghost use Rattle.cap_streams.specs.Written.{Writes};
ghost use Rattle.cap_report.specs.Sentences.{above_text, and_text, below_text, beyond_text, number_text, range_text, size_text, without_zeros};

use cap_bounds::Interval;
use cap_log::buffers::{put, put_decimal, put_hex};

// Digits without the zeros before them.
#[tactic(auto, unfolding(crate::specs::Sentences::without_zeros))]
fn without_zeros(digits: &[u8]) -> &[u8]
    ensures value { result.now ≡ without_zeros digits.now }
    ensures short { length result.now ≤ length digits.now }
{
    match digits.split_first() {
        Some((digit, more)) => {
            if *digit == b'0' && !more.is_empty() {
                without_zeros(more)
            } else {
                digits
            }
        }
        None => digits,
    }
}

/// Writes an address, or the top of a range, at an index of the buffer, and returns the index after it: `0x`, and the
/// digits without zeros before them. Nothing else of the buffer changes.
#[tactic(auto, unfolding(crate::specs::Sentences::number_text))]
pub fn put_number(buffer: &mut [u8], at: usize, number: u128) -> usize
    requires room { at + 19 ≤ length buffer.old }
    ensures written { Writes at (number_text number) buffer.old buffer.new result }
    ensures fits { result ≤ at + 19 }
{
    let mut digits = [0u8; 17];
    put_hex(&mut digits, 0, 17, number);
    let at = put(buffer, at, b"0x");
    put(buffer, at, without_zeros(&digits))
}

/// Writes a range as [`put_number`] writes a number: its first address, and that after its last one.
#[tactic(auto, unfolding(crate::specs::Sentences::range_text))]
pub fn put_range(buffer: &mut [u8], at: usize, range: Interval) -> usize
    requires room { at + 45 ≤ length buffer.old }
    ensures written { Writes at (range_text range.base range.top) buffer.old buffer.new result }
    ensures fits { result ≤ at + 45 }
{
    let at = put_number(buffer, at, u128::from(range.base));
    let at = put(buffer, at, b" up to ");
    put_number(buffer, at, range.top)
}

// Writes how many bytes there are.
#[tactic(auto, using(cap_log::proofs::ElementLemmas::short_decimal))]
fn put_size(buffer: &mut [u8], at: usize, size: u128) -> usize
    requires room { at + 26 ≤ length buffer.old }
    ensures written { Writes at (size_text size) buffer.old buffer.new result }
    ensures fits { result ≤ at + 26 }
{
    if size == 1 {
        return put(buffer, at, b"one byte");
    }
    let at = if size < 1 << 64 {
        put_decimal(buffer, at, size as u64)
    } else {
        put_number(buffer, at, size)
    };
    put(buffer, at, b" bytes")
}

// Writes how far the start of a range lies below that of the bounds.
fn put_below(buffer: &mut [u8], at: usize, base: u64, low: u64) -> usize
    requires room { at + 40 ≤ length buffer.old }
    ensures written { Writes at (below_text base low) buffer.old buffer.new result }
    ensures fits { result ≤ at + 40 }
{
    if base < low {
        let at = put(buffer, at, b"begins ");
        let at = put_size(buffer, at, u128::from(low - base));
        put(buffer, at, b" below ")
    } else {
        at
    }
}

// Writes how far the end of a range lies above that of the bounds.
fn put_above(buffer: &mut [u8], at: usize, top: u128, high: u128) -> usize
    requires room { at + 38 ≤ length buffer.old }
    ensures written { Writes at (above_text top high) buffer.old buffer.new result }
    ensures fits { result ≤ at + 38 }
{
    if high < top {
        let at = put(buffer, at, b"ends ");
        let at = put_size(buffer, at, top - high);
        put(buffer, at, b" above ")
    } else {
        at
    }
}

// Writes what stands between both, if both are told.
fn put_and(buffer: &mut [u8], at: usize, below: bool, above: bool) -> usize
    requires room { at + 4 ≤ length buffer.old }
    ensures written { Writes at (and_text below above) buffer.old buffer.new result }
    ensures fits { result ≤ at + 4 }
{
    if below && above {
        put(buffer, at, b"and ")
    } else {
        at
    }
}

/// Writes how far a range goes beyond bounds at an index of the buffer, and returns the index after it; nothing if it lies
/// inside. Nothing else of the buffer changes.
#[tactic(auto, unfolding(crate::specs::Sentences::beyond_text))]
pub fn put_beyond(buffer: &mut [u8], at: usize, range: Interval, bounds: Interval) -> usize
    requires room { at + 82 ≤ length buffer.old }
    ensures written { Writes at (beyond_text range.base range.top bounds.base bounds.top) buffer.old buffer.new result }
    ensures fits { result ≤ at + 82 }
{
    let at = put_below(buffer, at, range.base, bounds.base);
    let at = put_and(buffer, at, range.base < bounds.base, bounds.top < range.top);
    put_above(buffer, at, range.top, bounds.top)
}
