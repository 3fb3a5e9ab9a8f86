//! The diagnosis: the line that was refused, and what its checks compared.

ghost use Rattle.std.specs.Prelude.{◌≡◌, ℕ, List, ◌+◌, ◌++◌, ◌≤◌, length};
ghost use Rattle.cap_word.specs.Digits.{hex_digits};
ghost use Rattle.cap_bounds.specs.Rounding.{alignment_of, rounded_top};
ghost use Rattle.cap_streams.specs.Written.{Writes};
ghost use Rattle.cap_texts.specs.TextLines.{text_line};
ghost use Rattle.cap_heap.specs.declared.events.Event.TheVariants.{Malloc};
ghost use Rattle.cap_heap.specs.Beginnings.{AreDetailsBehind, Beginning, due_of, lines_of};
ghost use Rattle.cap_heap.specs.HeapWhys.{AreEventDetails, AreFreeDetails, apart_lines, count_in, counted_lines, due_line, free_hint};
ghost use Rattle.cap_heap.specs.HeapWhys.{live_lines, request_lines, share_bytes};
ghost use Rattle.cap_heap.specs.{Heaps.objects_in, Progresses.{AreEventDetailsIn, StandsFor}};

use crate::bad_lines::{put_bad_header, put_bad_line};
use crate::events::Event;
use crate::heap::Heap;
use crate::lines::HeapLine;
use crate::log_parts::LogPart;
use crate::progress::Progress;
use crate::readers::read_heap_line;
use crate::refusal::HeapRefusal;
use crate::report::alignment;
use cap_bounds::{Interval, round, round_length};
use cap_texts::cap_lines::put_bounds_line;
use cap_texts::text_lines::{put_decimal_line, put_hex_line, put_line};
use cap_texts::wrong_lines::{SHORT_LINE, WHOLE_LOG, cut_hint, put_hint_line};

/// Writes what is told of a line that was refused at an index of the buffer, and returns the index after it. The
/// progress is as it was before the line.
pub(crate) fn put_details(
    progress: &Progress,
    text: &[u8],
    refusal: HeapRefusal,
    buffer: &mut [u8],
    at: usize,
) -> usize
    requires few { length text.now ≤ 96 }
    requires room { at + 768 ≤ length buffer.old }
    ensures fits { result ≤ length buffer.old }
    ensures written { (details : List ℕ)
        × ((beginning : Beginning) → StandsFor progress.now beginning → AreDetailsBehind beginning text.now refusal details)
        × Writes at details buffer.old buffer.new result }
{
    match refusal {
        HeapRefusal::BadHeader => put_bad_header(buffer, at, text),
        HeapRefusal::LineTooLong => put_line(buffer, at, b"expected", SHORT_LINE),
        HeapRefusal::BadLine => put_bad_line(buffer, at, text),
        HeapRefusal::Truncated => {
            let at = put_counted_lines(progress, HeapRefusal::Truncated, buffer, at);
            put_hint_line(buffer, at, cut_hint(text))
        }
        HeapRefusal::Misplaced | HeapRefusal::WrongCount | HeapRefusal::LimitPassed => {
            put_counted_lines(progress, refusal, buffer, at)
        }
        _ => match progress.stage {
            LogPart::Within => put_event_lines(&progress.heap, text, refusal, buffer, at),
            _ => at,
        },
    }
}

// Writes how many events there were, and what has to come.
#[tactic(auto, unfolding(crate::specs::HeapWhys::count_line))]
fn put_counted_lines(
    progress: &Progress,
    refusal: HeapRefusal,
    buffer: &mut [u8],
    at: usize,
) -> usize
    requires room { at + 256 ≤ length buffer.old }
    ensures written { (lines : List ℕ)
        × ((beginning : Beginning) → StandsFor progress.now beginning
        → lines ≡ counted_lines (due_of beginning) refusal (count_in (lines_of beginning)))
        × Writes at lines buffer.old buffer.new result }
    ensures fits { result ≤ at + 256 }
{
    let count = progress.count();
    let at = put_decimal_line(buffer, at, b"events", u64::from(count));
    match refusal {
        HeapRefusal::Misplaced => put_line(buffer, at, b"expected", progress.due_text()),
        HeapRefusal::Truncated => put_line(buffer, at, b"expected", WHOLE_LOG),
        HeapRefusal::WrongCount => put_decimal_line(buffer, at, b"expected end", u64::from(count)),
        _ => at,
    }
}

// Writes what is told of an event that was refused, if the text is one's line.
fn put_event_lines(
    heap: &Heap,
    text: &[u8],
    refusal: HeapRefusal,
    buffer: &mut [u8],
    at: usize,
) -> usize
    requires room { at + 384 ≤ length buffer.old }
    ensures fits { result ≤ length buffer.old }
    ensures written { (details : List ℕ) × AreEventDetailsIn heap.now text.now refusal details
        × Writes at details buffer.old buffer.new result }
{
    match read_heap_line(text) {
        Some(HeapLine::Happens(Event::Malloc { address, length })) => {
            put_malloc_lines(heap, address, length, refusal, buffer, at)
        }
        Some(HeapLine::Happens(Event::Free { address })) => {
            put_free_lines(heap, address, buffer, at)
        }
        Some(_) => at,
        None => at,
    }
}

// Writes what is told of an address that was freed in vain.
fn put_free_lines(heap: &Heap, address: u64, buffer: &mut [u8], at: usize) -> usize
    requires room { at + 384 ≤ length buffer.old }
    ensures fits { result ≤ length buffer.old }
    ensures written { (details : List ℕ) × AreFreeDetails (objects_in heap.now) address details
        × Writes at details buffer.old buffer.new result }
{
    let found = heap.overlapped(address, 1);
    let at = put_live_lines(buffer, at, found);
    let hint: &[u8] = match found {
        Some(_) => b"the address lies in a live object: free takes its first one",
        None => b"no live object has this address: it was freed before, or never handed out",
    };
    put_line(buffer, at, b"hint", hint)
}

// Writes what is told of a request that was refused.
fn put_malloc_lines(
    heap: &Heap,
    address: u64,
    size: u64,
    refusal: HeapRefusal,
    buffer: &mut [u8],
    at: usize,
) -> usize
    requires room { at + 384 ≤ length buffer.old }
    ensures fits { result ≤ length buffer.old }
    ensures written { (details : List ℕ)
        × AreEventDetails heap.now.bounds (objects_in heap.now) (Malloc address size) refusal details
        × Writes at details buffer.old buffer.new result }
{
    let at = put_request_lines(buffer, at, b"", address, size);
    match refusal {
        HeapRefusal::OutsideHeap => {
            let Interval { base, top } = heap.bounds();
            let at = put_bounds_line(buffer, at, b"root", b" ", base, top);
            put_right_lines(buffer, at, b"length", b"alignment", size)
        }
        _ => {
            let found = heap.overlapped(address, size);
            let at = put_live_lines(buffer, at, found);
            let at = put_right_lines(buffer, at, b"length", b"alignment", size);
            put_apart_lines(buffer, at, address, size, found)
        }
    }
}

// Writes the bounds that a request asks for, and those that it gets.
#[tactic(auto, unfolding(crate::specs::HeapWhys::request_lines))]
fn put_request_lines(buffer: &mut [u8], at: usize, name: &[u8], address: u64, size: u64) -> usize
    requires name { length name.now ≤ 5 }
    requires room { at + 104 ≤ length buffer.old }
    ensures written { Writes at (request_lines name.now address size) buffer.old buffer.new result }
    ensures fits { result ≤ at + 104 }
{
    let end = u128::from(address) + u128::from(size);
    let at = put_bounds_line(buffer, at, name, b"request ", address, end);
    let rounded = round(address, size);
    put_bounds_line(buffer, at, name, b"rounded ", rounded.base, rounded.top)
}

// Writes those of a live object, if there is one.
fn put_live_lines(buffer: &mut [u8], at: usize, found: Option<(u64, u64)>) -> usize
    requires { at + 104 ≤ length buffer.old }
    ensures written { Writes at (live_lines found) buffer.old buffer.new result }
    ensures fits { result ≤ at + 104 }
{
    match found {
        Some((address, length)) => put_request_lines(buffer, at, b"live ", address, length),
        None => at,
    }
}

// Writes the length that would be right for a request, and what its address would be a multiple of, after these names.
fn put_right_lines(buffer: &mut [u8], at: usize, span: &[u8], unit: &[u8], size: u64) -> usize
    requires names { length span.now + length unit.now ≤ 25 }
    requires room { at + 64 ≤ length buffer.old }
    ensures written { Writes at (text_line span.now (hex_digits 17 (rounded_top 0 size)) ++ text_line unit.now (hex_digits 17 (alignment_of size)))
        buffer.old buffer.new result }
    ensures fits { result ≤ at + 64 }
{
    let at = put_hex_line(buffer, at, span, 17, round_length(size));
    put_hex_line(buffer, at, unit, 17, alignment(size))
}

// Writes what would keep a request apart from a live object, if there is one.
#[tactic(auto, unfolding(crate::specs::HeapWhys::live_right_lines))]
fn put_apart_lines(
    buffer: &mut [u8],
    at: usize,
    address: u64,
    size: u64,
    found: Option<(u64, u64)>,
) -> usize
    requires { at + 80 ≤ length buffer.old }
    ensures written { Writes at (apart_lines address size found) buffer.old buffer.new result }
    ensures fits { result ≤ at + 80 }
{
    match found {
        Some((other, length)) => {
            if share_bytes(address, size, other, length) {
                put_line(
                    buffer,
                    at,
                    b"hint",
                    b"the two objects share bytes: no bounds keep them apart",
                )
            } else {
                put_right_lines(buffer, at, b"live length", b"live alignment", length)
            }
        }
        None => at,
    }
}

// Whether two requests themselves have an address in common.
fn share_bytes(address: u64, size: u64, other: u64, length: u64) -> bool
    ensures { result ≡ share_bytes address size (other, length) }
{
    u128::from(address) < u128::from(other) + u128::from(length)
        && u128::from(other) < u128::from(address) + u128::from(size)
}
