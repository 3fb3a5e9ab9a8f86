//! How far a log was read, and the line that tells it.

ghost use Rattle.std.specs.Prelude.{◌≡◌, ◌+◌, ◌≤◌, length, option_map, take};
ghost use Rattle.cap_streams.specs.Written.{Writes};
ghost use Rattle.cap_program.specs.Doings.{IsPushed};
ghost use Rattle.capdiag.specs.Progress.{amount_text, feeds, left_text, progress_line, progress_text, rate_of, rate_text, read_on, reading_text, time_text, whole_text};

use crate::complaints::put_name;
use cap_log::buffers::{put, put_decimal};
use cap_log::{Sink, push_all};

/// How far a log was read.
#[derive(Clone, Copy)]
pub struct Reading {
    /// How many bytes were read.
    pub bytes: u64,
    /// How many line feeds are among them.
    pub lines: u64,
    /// How many bytes there are in all, if that is known.
    pub whole: Option<u64>,
}

// How many line feeds some bytes have.
fn feeds(piece: &[u8]) -> u64
    ensures value { result ≡ feeds piece.now }
{
    let mut count = 0u64;
    for byte in piece {
        if *byte == b'\n' {
            count += 1;
        }
    }
    count
}

/// How far a log was read with some bytes more.
pub fn read_on(reading: Reading, piece: &[u8]) -> Reading
    ensures value { result ≡ read_on reading piece.now }
{
    Reading {
        bytes: reading.bytes.saturating_add(piece.len() as u64),
        lines: reading.lines.saturating_add(feeds(piece)),
        ..reading
    }
}

// How many thousand bytes a second were read in so many milliseconds.
fn rate_of(reading: Reading, milliseconds: u64) -> u64
    ensures value { result ≡ rate_of reading milliseconds }
{
    reading.bytes / milliseconds.max(1)
}

// Writes a number of thousand bytes, and what it counts.
#[tactic(auto, using(cap_log::proofs::ElementLemmas::short_decimal))]
fn put_amount(buffer: &mut [u8], at: usize, thousands: u64) -> usize
    requires room { at + 23 ≤ length buffer.old }
    ensures written { Writes at (amount_text thousands) buffer.old buffer.new result }
    ensures fits { result ≤ at + 23 }
{
    if thousands < 10_000 {
        let at = put_decimal(buffer, at, thousands);
        put(buffer, at, b" kB")
    } else {
        let at = put_decimal(buffer, at, thousands / 1000);
        put(buffer, at, b" MB")
    }
}

// Writes how many bytes there are in all, if that is known.
fn put_whole(buffer: &mut [u8], at: usize, whole: Option<u64>) -> usize
    requires room { at + 27 ≤ length buffer.old }
    ensures written { Writes at (whole_text whole) buffer.old buffer.new result }
    ensures fits { result ≤ at + 27 }
{
    match whole {
        Some(bytes) => {
            let at = put(buffer, at, b" of ");
            put_amount(buffer, at, bytes / 1000)
        }
        None => at,
    }
}

// Writes a number of seconds, as minutes or hours if there are many.
#[tactic(auto, using(cap_log::proofs::ElementLemmas::short_decimal))]
fn put_time(buffer: &mut [u8], at: usize, seconds: u64) -> usize
    requires room { at + 24 ≤ length buffer.old }
    ensures written { Writes at (time_text seconds) buffer.old buffer.new result }
    ensures fits { result ≤ at + 24 }
{
    if seconds < 120 {
        let at = put_decimal(buffer, at, seconds);
        put(buffer, at, b" s")
    } else if seconds < 7200 {
        let at = put_decimal(buffer, at, seconds / 60);
        put(buffer, at, b" min")
    } else {
        let at = put_decimal(buffer, at, seconds / 3600);
        put(buffer, at, b" h")
    }
}

// Writes how long the rest takes at this rate, if that is known.
fn put_left(buffer: &mut [u8], at: usize, reading: Reading, rate: u64) -> usize
    requires room { at + 31 ≤ length buffer.old }
    ensures written { Writes at (left_text reading.whole reading.bytes rate) buffer.old buffer.new result }
    ensures fits { result ≤ at + 31 }
{
    match reading.whole {
        Some(whole) if rate > 0 => {
            let at = put(buffer, at, b", ");
            let at = put_time(
                buffer,
                at,
                whole.saturating_sub(reading.bytes) / rate / 1000,
            );
            put(buffer, at, b" left")
        }
        _ => at,
    }
}

// Writes how far a log was read.
#[tactic(auto, using(cap_log::proofs::ElementLemmas::short_decimal), unfolding(crate::specs::Progress::reading_text))]
fn put_reading(buffer: &mut [u8], at: usize, reading: Reading) -> usize
    requires room { at + 78 ≤ length buffer.old }
    ensures written { Writes at (reading_text reading) buffer.old buffer.new result }
    ensures fits { result ≤ at + 78 }
{
    let at = put_amount(buffer, at, reading.bytes / 1000);
    let at = put_whole(buffer, at, reading.whole);
    let at = put(buffer, at, b", ");
    let at = put_decimal(buffer, at, reading.lines);
    put(buffer, at, b" lines")
}

// Writes how fast it was read.
#[tactic(auto, unfolding(crate::specs::Progress::rate_text))]
fn put_rate(buffer: &mut [u8], at: usize, reading: Reading, rate: u64) -> usize
    requires room { at + 58 ≤ length buffer.old }
    ensures written { Writes at (rate_text reading rate) buffer.old buffer.new result }
    ensures fits { result ≤ at + 58 }
{
    let at = put(buffer, at, b", ");
    let at = put_amount(buffer, at, rate);
    let at = put(buffer, at, b"/s");
    put_left(buffer, at, reading, rate)
}

// Writes the line.
#[tactic(auto, unfolding(crate::specs::Progress::progress_line))]
fn put_progress(
    buffer: &mut [u8],
    at: usize,
    name: Option<&str>,
    reading: Reading,
    rate: u64,
) -> usize
    requires room { at + 405 ≤ length buffer.old }
    ensures written { Writes at (progress_line (option_map (λ it. it.now) name.entry) reading rate) buffer.old buffer.new result }
    ensures fits { result ≤ at + 405 }
{
    let at = put(buffer, at, b"capdiag: ");
    let at = put_name(buffer, at, name);
    let at = put_reading(buffer, at, reading);
    put_rate(buffer, at, reading, rate)
}

// Writes what is told at the front of a buffer, and answers its length.
fn put_told(
    name: Option<&str>,
    reading: Reading,
    rate: u64,
    is_drawn: bool,
    buffer: &mut [u8; 512],
) -> usize
    ensures fits { result ≤ 512 }
    ensures text { take result buffer.new ≡ progress_text is_drawn (progress_line (option_map (λ it. it.now) name.entry) reading rate) }
{
    if is_drawn {
        let at = put(buffer, 0, b"\r");
        let at = put_progress(buffer, at, name, reading, rate);
        put(buffer, at, b"\x1b[K")
    } else {
        let at = put_progress(buffer, 0, name, reading, rate);
        put(buffer, at, b"\n")
    }
}

/// Pushes how far a log was read in so many milliseconds, with the name of its file if that is one of several: on a terminal in
/// place of what its line shows, and elsewhere as a line. Where the sink fails it took a beginning of that.
pub fn tell_progress<F: Sink>(
    name: Option<&str>,
    reading: Reading,
    milliseconds: u64,
    is_drawn: bool,
    faults: &mut F,
)
    ensures told { IsPushed F.took F.faults faults.old faults.new
        (progress_text is_drawn (progress_line (option_map (λ it. it.now) name.entry) reading (rate_of reading milliseconds))) }
{
    let mut text = [0u8; 512];
    let length = put_told(
        name,
        reading,
        rate_of(reading, milliseconds),
        is_drawn,
        &mut text,
    );
    let _pushed = push_all(faults, &text[..length]);
}
