//! Reading a line.

ghost use Rattle.std.specs.Prelude.{◌≤◌, IfNone, IfSome, length};
ghost use Rattle.cap_streams.specs.Front.{HasNoFeed};
ghost use Rattle.cap_log.specs.Parts.{ReadsAs};
ghost use Rattle.cap_heap.specs.{declared.lines.HeapLine.HeapLine, HeapLines.SpellsHeapLine};

use crate::events::Event;
use crate::heads::HeapHead;
use crate::lines::HeapLine;
use cap_bounds::Interval;
use cap_log::Part;
use cap_log::buffers::put;
use cap_texts::tops::Top;

/// The most bytes that follow the head of a line and its space: those of a root.
const OPERANDS_LIMIT: usize = 34;

/// Reads a line from its bytes, without its line feed: the line that they spell, or `None` if they spell
/// none.
#[inline(always)]
#[tactic(auto, using(crate::proofs::LineLemmas::short_each))]
pub fn read_heap_line(text: &[u8]) -> Option<HeapLine>
    ensures some { IfSome result (SpellsHeapLine text.now) }
    ensures none { IfNone result ((line : HeapLine) → SpellsHeapLine text.now line → ⊥) }
{
    let (head, operands) = HeapHead::take(text)?;
    match head {
        HeapHead::Malloc => {
            let (address, length) = read_part::<(u64, u64)>(operands)?;
            Some(HeapLine::Happens(Event::Malloc { address, length }))
        }
        HeapHead::Free => {
            let address = read_part::<u64>(operands)?;
            Some(HeapLine::Happens(Event::Free { address }))
        }
        HeapHead::Root => {
            let (base, Top(top)) = read_part::<(u64, Top)>(operands)?;
            if u128::from(base) <= top {
                Some(HeapLine::Root(Interval { base, top }))
            } else {
                None
            }
        }
        HeapHead::Header => {
            if operands == b"1".as_slice() {
                Some(HeapLine::Header)
            } else {
                None
            }
        }
        HeapHead::End => {
            let count = read_part::<u32>(operands)?;
            Some(HeapLine::End(count))
        }
    }
}

// Reads a part from its bytes. None has a line feed, nor more bytes than what follows the head of a root.
#[inline(always)]
fn read_part<P: Part>(operands: &[u8]) -> Option<P>
    requires short { (part : P) → P.fits part → (length (P.spelled part) ≤ 34) × HasNoFeed (P.spelled part) }
    ensures { ReadsAs P.fits P.spelled operands.now result }
{
    if operands.len() > OPERANDS_LIMIT {
        return None;
    }
    let mut bytes = [0; OPERANDS_LIMIT + 1];
    let length = put(&mut bytes, 0, operands);
    let end = put(&mut bytes, length, b"\n");
    let (part, rest) = P::take(&bytes[..end], b'\n')?;
    if rest.is_empty() { Some(part) } else { None }
}
