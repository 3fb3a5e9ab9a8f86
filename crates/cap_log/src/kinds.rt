//! The kinds of steps and of other lines: the word that each begins with, and what follows it.

#![tactic(auto, using(crate::proofs::Shapes::behind_each), unfolding(crate::specs::Lines::spelling))]

ghost use Rattle.std.specs.Prelude.{◌≡◌, ◌≤◌, All, [], ◌∷◌, ◌++◌, length, take, IfSome, IfNone};
ghost use Rattle.cap_log.specs.{Heads.{IsHead, head_spelling, kind_words, shape_of, text_at}, Lines.{IsInRange, spelling}};
ghost use Rattle.cap_log.specs.{Parts.{Begins, BeginsWithNone, BeginsWithout}, SpacelessLaws.head-spaceless};
ghost use Rattle.cap_streams.specs.Written.{Writes};
ghost use Rattle.cap_log.specs.declared.kinds.Head.TheVariants as heads;
ghost use Rattle.cap_log.specs.declared.kinds.Step.TheVariants as steps;

// The operands that the parts after a head are, taken from the front of some bytes, and the rest; or none.
macro_rules! taken {
    ($head:expr, $bytes:expr, $parts:pat => $operands:expr) => {
        match take_parts($head, $bytes) {
            Some(($parts, rest)) => Some(($operands, rest)),
            None => None,
        }
    };
}

// The first of these heads that stands there.
macro_rules! first_found {
    ($($found:expr),* $(,)?) => {{
        $(if let Some(found) = $found {
            return Some(found);
        })*
        None
    }};
}

mod accesses;
mod operations;
mod shapes;

use crate::buffers::put;
pub use crate::kinds::shapes::{
    ADDRESS, AndPerm, Authorized, ClearTag, Data, EXACT_LENGTH, LENGTH, Load, LoadCap, Move,
    Numbered, Plain, Seal, SetAddr, SetBounds, SetBoundsExact, Store, StoreCap, Unseal,
};
use crate::lines::{Line, Mode, Place};
use crate::operands::{Operands, take_parts, take_step, write_parts};
use crate::parts::fronts::{are_four, strip_word};
use crate::parts::headers::Version;
use crate::parts::{Part, Single};
use cap_word::Word;

/// What kind of line a line is.
#[derive(Clone, Copy, Debug, PartialEq, Eq)]
pub enum Head {
    /// `capcheck`.
    Version,
    /// `mode`.
    Mode,
    /// `root`.
    Root,
    /// `move`.
    Move,
    /// `cleartag`.
    ClearTag,
    /// `setbounds`.
    SetBounds,
    /// `setboundsexact`.
    SetBoundsExact,
    /// `setaddr`.
    SetAddr,
    /// `andperm`.
    AndPerm,
    /// `seal`.
    Seal,
    /// `unseal`.
    Unseal,
    /// `lc`.
    LoadCap,
    /// `sc`.
    StoreCap,
    /// `load`.
    Load,
    /// `store`.
    Store,
    /// `end`.
    End,
}

/// What follows the word of a line: for a step one of the shapes of its operands.
#[derive(Clone, Copy, Debug, PartialEq, Eq)]
pub enum Shape {
    /// A version.
    Version,
    /// The name of a mode.
    Mode,
    /// A place and a word.
    Root,
    /// [`Plain`].
    Plain,
    /// [`Numbered`].
    Numbered,
    /// [`Authorized`].
    Authorized,
    /// [`LoadCap`].
    LoadCap,
    /// [`StoreCap`].
    StoreCap,
    /// [`Load`].
    Load,
    /// [`Store`].
    Store,
    /// A count.
    End,
}

impl Head {
    /// What follows the word.
    pub fn shape(self) -> Shape
        ensures shape { result ≡ shape_of self }
    {
        match self {
            Head::Version => Shape::Version,
            Head::Mode => Shape::Mode,
            Head::Root => Shape::Root,
            Head::Move | Head::ClearTag => Shape::Plain,
            Head::SetBounds | Head::SetBoundsExact | Head::SetAddr | Head::AndPerm => {
                Shape::Numbered
            }
            Head::Seal | Head::Unseal => Shape::Authorized,
            Head::LoadCap => Shape::LoadCap,
            Head::StoreCap => Shape::StoreCap,
            Head::Load => Shape::Load,
            Head::Store => Shape::Store,
            Head::End => Shape::End,
        }
    }

    /// Takes the head of a usual kind of step, as [`Part::take`] does: the first four bytes tell which. It may be `None`
    /// where `lc` or `sc` stands there and no register follows.
    #[inline(always)]
    pub fn take_usual(bytes: &[u8], end: u8) -> Option<(Head, &[u8])>
        ensures some { IfSome result (λ p. Begins IsHead head_spelling end bytes.now p.0 p.1.now) }
        ensures none { IfNone result (All (λ head. BeginsWithout (head_spelling head) end bytes.now)
            (heads.Move ∷ heads.Load ∷ heads.Store ∷ heads.SetAddr ∷ heads.AndPerm ∷ heads.ClearTag ∷ heads.SetBounds ∷ [])) }
    {
        first_found!(
            long(bytes, end, Head::Move, b"move", b""),
            by_register(bytes, end, Head::LoadCap, b"lc c"),
            by_register(bytes, end, Head::StoreCap, b"sc c"),
            long(bytes, end, Head::Load, b"load", b""),
            long(bytes, end, Head::Store, b"stor", b"e"),
            long(bytes, end, Head::SetAddr, b"seta", b"ddr"),
            long(bytes, end, Head::AndPerm, b"andp", b"erm"),
            long(bytes, end, Head::ClearTag, b"clea", b"rtag"),
            long(bytes, end, Head::SetBounds, b"setb", b"ounds"),
        )
    }
}

impl Part for Head {
    ghost fits = { IsHead };

    ghost spelled = { head_spelling };

    #[inline(always)]
    fn take(bytes: &[u8], end: u8) -> Option<(Head, &[u8])> {
        first_found!(
            Head::take_usual(bytes, end),
            short(bytes, end, Head::LoadCap, b"lc"),
            short(bytes, end, Head::StoreCap, b"sc"),
            long(bytes, end, Head::SetBoundsExact, b"setb", b"oundsexact"),
            long(bytes, end, Head::Seal, b"seal", b""),
            long(bytes, end, Head::Unseal, b"unse", b"al"),
            long(bytes, end, Head::Root, b"root", b""),
            long(bytes, end, Head::Mode, b"mode", b""),
            long(bytes, end, Head::Version, b"capc", b"heck"),
            short(bytes, end, Head::End, b"end"),
        )
    }

    #[inline(always)]
    fn write(&self, buffer: &mut [u8], at: usize) -> usize {
        put(buffer, at, head_text(*self).as_bytes())
    }
}

impl Single for Head {
    ghost spaceless = { λ head fits. head-spaceless head };
}

/// What may follow the header of a log, in words.
pub const LINE_NAMES: &[u8] =
    b"root, end or a step: move, cleartag, setbounds, setboundsexact, setaddr, andperm, seal, unseal, lc, sc, load or store";

// A head, and what follows it.
type Found<'a> = Option<(Head, &'a [u8])>;

// Takes this head, whose word this is.
#[inline(always)]
fn short<'a, const N: usize>(bytes: &'a [u8], end: u8, head: Head, word: &[u8; N]) -> Found<'a>
    requires { word.now ≡ head_spelling head }
    ensures some { IfSome result (λ p. Begins IsHead head_spelling end bytes.now p.0 p.1.now) }
    ensures none { IfNone result (BeginsWithout (head_spelling head) end bytes.now) }
{
    let rest = strip_word(bytes, word, end)?;
    Some((head, rest))
}

// Takes this head, whose word is these four bytes and these others. The four are compared as one number.
#[inline(always)]
fn long<'a, const N: usize>(
    bytes: &'a [u8],
    end: u8,
    head: Head,
    four: &[u8; 4],
    others: &[u8; N],
) -> Found<'a>
    requires { four.now ++ others.now ≡ head_spelling head }
    ensures some { IfSome result (λ p. Begins IsHead head_spelling end bytes.now p.0 p.1.now) }
    ensures none { IfNone result (BeginsWithout (head_spelling head) end bytes.now) }
{
    let (first, more) = bytes.split_first_chunk::<4>()?;
    if !are_four(first, four) {
        return None;
    }
    let rest = strip_word(more, others, end)?;
    Some((head, rest))
}

// Takes this head, whose word has two bytes, before a register: four bytes again. `None` where no register follows.
#[inline(always)]
fn by_register<'a>(bytes: &'a [u8], end: u8, head: Head, start: &[u8; 4]) -> Found<'a>
    requires { take 3 start.now ≡ head_spelling head ++ 32 ∷ [] }
    ensures some { IfSome result (λ p. Begins IsHead head_spelling end bytes.now p.0 p.1.now) }
{
    let (first, _) = bytes.split_first_chunk::<4>()?;
    if end == b' ' && are_four(first, start) {
        Some((head, &bytes[3..]))
    } else {
        None
    }
}

// The first word of a line.
#[inline(always)]
fn head_text(head: Head) -> &'static str
    ensures word { result.now ≡ head_spelling head }
    ensures short { length result.now ≤ 14 }
{
    match head {
        Head::Version => "capcheck",
        Head::Mode => "mode",
        Head::Root => "root",
        Head::Move => "move",
        Head::ClearTag => "cleartag",
        Head::Seal => "seal",
        Head::Unseal => "unseal",
        Head::SetBounds => "setbounds",
        Head::SetBoundsExact => "setboundsexact",
        Head::SetAddr => "setaddr",
        Head::AndPerm => "andperm",
        Head::LoadCap => "lc",
        Head::StoreCap => "sc",
        Head::Load => "load",
        Head::Store => "store",
        Head::End => "end",
    }
}

/// The word of a kind of line by its number in C, and no bytes if the number is none's.
pub fn kind_word(number: u8) -> &'static str
    ensures word { result.now ≡ text_at kind_words number }
    ensures short { length result.now ≤ 14 }
{
    head_text(match number {
        1 => Head::Version,
        2 => Head::Mode,
        3 | 4 => Head::Root,
        5 => Head::Move,
        6 => Head::ClearTag,
        7 => Head::SetBounds,
        8 => Head::SetBoundsExact,
        9 => Head::SetAddr,
        10 => Head::AndPerm,
        11 => Head::Seal,
        12 => Head::Unseal,
        13 => Head::LoadCap,
        14 => Head::StoreCap,
        15 => Head::Load,
        16 => Head::Store,
        17 => Head::End,
        _ => return "",
    })
}

/// One step of the machine, with its operands and the result that the log records.
#[derive(Clone, Copy, Debug, PartialEq, Eq)]
pub enum Step {
    /// `move`.
    Move(Move),
    /// `cleartag`.
    ClearTag(ClearTag),
    /// `setbounds`.
    SetBounds(SetBounds),
    /// `setboundsexact`.
    SetBoundsExact(SetBoundsExact),
    /// `setaddr`.
    SetAddr(SetAddr),
    /// `andperm`.
    AndPerm(AndPerm),
    /// `seal`.
    Seal(Seal),
    /// `unseal`.
    Unseal(Unseal),
    /// `lc`.
    LoadCap(LoadCap),
    /// `sc`.
    StoreCap(StoreCap),
    /// `load`.
    Load(Load),
    /// `store`.
    Store(Store),
}

/// Takes what follows a line's head and its space, with the line feed: the line, and what comes
/// after it. `None` where no operands of such a line and a line feed stand there.
pub fn take_operands(head: Head, bytes: &[u8]) -> Option<(Line, &[u8])>
    ensures some { IfSome result (λ p. Begins IsInRange spelling 10 (head_spelling head ++ 32 ∷ bytes.now) p.0 p.1.now) }
    ensures none { IfNone result (BeginsWithNone IsInRange spelling 10 (head_spelling head ++ 32 ∷ bytes.now)) }
{
    match head {
        Head::Version => {
            let (version, rest) = take_parts::<Version>(head, bytes)?;
            Some((Line::Version(version.0), rest))
        }
        Head::Mode => {
            let (mode, rest) = take_parts::<Mode>(head, bytes)?;
            Some((Line::Mode(mode), rest))
        }
        Head::Root => {
            let ((place, word), rest) = take_parts::<(Place, Word)>(head, bytes)?;
            Some((Line::Root(place, word), rest))
        }
        Head::Move => take_step::<Move>(bytes),
        Head::ClearTag => take_step::<ClearTag>(bytes),
        Head::SetBounds => take_step::<SetBounds>(bytes),
        Head::SetBoundsExact => take_step::<SetBoundsExact>(bytes),
        Head::SetAddr => take_step::<SetAddr>(bytes),
        Head::AndPerm => take_step::<AndPerm>(bytes),
        Head::Seal => take_step::<Seal>(bytes),
        Head::Unseal => take_step::<Unseal>(bytes),
        Head::LoadCap => take_step::<LoadCap>(bytes),
        Head::StoreCap => take_step::<StoreCap>(bytes),
        Head::Load => take_step::<Load>(bytes),
        Head::Store => take_step::<Store>(bytes),
        Head::End => {
            let (count, rest) = take_parts::<u32>(head, bytes)?;
            Some((Line::End(count), rest))
        }
    }
}

/// Writes a line without its line feed.
pub(crate) fn write_words(line: &Line, buffer: &mut [u8]) -> usize
    requires in_range { IsInRange line.now }
    requires room { 95 ≤ length buffer.old }
    ensures { Writes 0 (spelling line.now) buffer.old buffer.new result }
{
    match *line {
        Line::Version(version) => write_parts(line, Head::Version, Version(version), buffer),
        Line::Mode(mode) => write_parts(line, Head::Mode, mode, buffer),
        Line::Root(place, word) => write_parts(line, Head::Root, (place, word), buffer),
        Line::Step(step) => match step {
            Step::Move(it) => it.write(buffer),
            Step::ClearTag(it) => it.write(buffer),
            Step::SetBounds(it) => it.write(buffer),
            Step::SetBoundsExact(it) => it.write(buffer),
            Step::SetAddr(it) => it.write(buffer),
            Step::AndPerm(it) => it.write(buffer),
            Step::Seal(it) => it.write(buffer),
            Step::Unseal(it) => it.write(buffer),
            Step::LoadCap(it) => it.write(buffer),
            Step::StoreCap(it) => it.write(buffer),
            Step::Load(it) => it.write(buffer),
            Step::Store(it) => it.write(buffer),
        },
        Line::End(steps) => write_parts(line, Head::End, steps, buffer),
    }
}
