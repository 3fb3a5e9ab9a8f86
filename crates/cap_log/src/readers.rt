//! Reading a line.

ghost use Rattle.std.specs.Prelude.{◌≡◌, ◌≤◌, ℕ, List, length, IfSome, IfNone};
ghost use Rattle.cap_log.specs.{declared.lines.Line.Line, Lines.{IsInRange, Spells, spelling}};
ghost use Rattle.cap_log.specs.Parts.{Begins, BeginsWithNone};
ghost use Rattle.cap_streams.specs.Front.{HasNoFeed};

use crate::buffers::put;
use crate::kinds::{Head, take_operands};
use crate::lines::Line;
use crate::parts::Part;
use cap_streams::LINE_LIMIT;

/// Takes a line and its line feed from the front of some bytes: the line, and what follows it.
/// `None` where no line and a line feed stand there.
pub fn take_line(bytes: &[u8]) -> Option<(Line, &[u8])>
    ensures some { IfSome result (λ p. Begins IsInRange spelling 10 bytes.now p.0 p.1.now) }
    ensures none { IfNone result (BeginsWithNone IsInRange spelling 10 bytes.now) }
{
    let (head, rest) = Head::take(bytes, b' ')?;
    take_operands(head, rest)
}

/// Reads a line from its bytes, without its line feed: the line that they spell, or `None` where
/// they spell none.
pub fn read_line(bytes: &[u8]) -> Option<Line>
    ensures some { IfSome result (Spells bytes.now) }
    ensures none { IfNone result ((line : Line) → Spells bytes.now line → ⊥) }
{
    if bytes.len() > LINE_LIMIT {
        return None;
    }
    let mut text = [0; LINE_LIMIT + 1];
    let length = put(&mut text, 0, bytes);
    let end = put(&mut text, length, b"\n");
    let Some((line, rest)) = take_line(&text[..end]) else {
        return None;
    };
    if rest.is_empty() { Some(line) } else { None }
}

/// No two lines share a spelling: bytes spell one line at most. A spelling has no line feed and at
/// most 95 bytes, so a line feed ends it, and a line's limit is never in its way.
pub fn spellings_are_distinct()
    ensures one { (bytes : List ℕ) (a b : Line) → Spells bytes a → Spells bytes b → a ≡ b }
    ensures plain { (line : Line) → IsInRange line → HasNoFeed (spelling line) }
    ensures short { (line : Line) → IsInRange line → length (spelling line) ≤ 95 }
{}
