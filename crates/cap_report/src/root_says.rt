//! What a report says of a refused root, in a sentence.

ghost use Rattle.std.specs.Prelude.{◌+◌, ◌++◌, ◌≤◌, length};
ghost use Rattle.cap_bounds.specs.Bounds.{top_of};
ghost use Rattle.cap_streams.specs.Written.{Writes};
ghost use Rattle.cap_log.specs.Lines.{place_spelling};
ghost use Rattle.cap_texts.specs.TextLines.{says_line};
ghost use Rattle.cap_report.specs.Says.{high_top_text, taken_text, unsound_reason, unsound_text};

use crate::says::put_of_place;
use crate::sentences::put_number;
use cap_bounds::bounds;
use cap_log::Place;
use cap_log::buffers::put;
use cap_word::Word;

// Writes that a word's top lies above the address space.
fn put_high_top(buffer: &mut [u8], at: usize, word: Word) -> usize
    requires { at + 72 ≤ length buffer.old }
    ensures written { Writes at (high_top_text (top_of word.0)) buffer.old buffer.new result }
    ensures fits { result ≤ at + 72 }
{
    let at = put(buffer, at, b"the top, ");
    let at = put_number(buffer, at, bounds(word).top);
    put(buffer, at, b", lies above 2^64, where addresses end")
}

/// Writes why a word isn't sound, at an index of the buffer, and returns the index after it. Nothing else of the buffer changes.
pub fn put_unsound_reason(buffer: &mut [u8], at: usize, word: Word) -> usize
    requires { at + 72 ≤ length buffer.old }
    ensures written { Writes at (unsound_reason word.0) buffer.old buffer.new result }
    ensures fits { result ≤ at + 72 }
{
    let range = bounds(word);
    if 1 << 64 < range.top {
        put_high_top(buffer, at, word)
    } else if range.top < u128::from(range.base) {
        put(buffer, at, b"the top lies below the base")
    } else {
        put(buffer, at, b"from base to top isn't as far as from B to T")
    }
}

/// Writes in a sentence why a root's word was refused, as [`put_step_says`](crate::says::put_step_says) does for a step.
#[tactic(auto, unfolding(cap_texts::specs::TextLines::says_line))]
pub fn put_unsound_says(word: Word, buffer: &mut [u8], at: usize) -> usize
    requires { at + 102 ≤ length buffer.old }
    ensures written { Writes at (says_line (unsound_text word.0)) buffer.old buffer.new result }
    ensures fits { result ≤ at + 102 }
{
    let at = put(buffer, at, b"says its word isn't sound: ");
    let at = put_unsound_reason(buffer, at, word);
    put(buffer, at, b"\n")
}

/// Writes in a sentence that a root's place has one already, as [`put_step_says`](crate::says::put_step_says) does for a step.
#[tactic(auto, unfolding(cap_texts::specs::TextLines::says_line))]
pub(crate) fn put_taken_says(place: Place, buffer: &mut [u8], at: usize) -> usize
    requires { at + 102 ≤ length buffer.old }
    ensures written { Writes at (says_line (place_spelling place ++ taken_text)) buffer.old buffer.new result }
    ensures fits { result ≤ at + 102 }
{
    let at = put(buffer, at, b"says ");
    let at = put_of_place(buffer, at, place, b" has a root already");
    put(buffer, at, b"\n")
}
