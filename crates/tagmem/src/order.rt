//! Where regions stand in a list, by their numbers, and which of them is next.
//!
//! The highest bits of a number name a slot in a table of roots. A region has links to four others: a link is one more
//! than an index in the list, and 0 for none. From a region a way goes on to the child that the next digit of a number
//! in base 4 names, the highest first. So a way has no more steps than a number has digits after those bits, and all
//! that is led to from a slot, or on a digit, is less than all from a higher one.
ghost use Rattle.std.specs.Prelude.{◌≡◌, ◌*◌, ◌+◌, ◌^◌, ◌<◌, ◌≤◌, ◌⊎◌, ℕ, IfSome, List, false, length, slice_index, suc, true};
ghost use Rattle.tagmem.specs.Orders.{AreLinked, IsLeastFrom, IsLeastUnder, IsStanding, above, IsUpTo, digits_in, prefix_in, slot_of};
ghost use Rattle.tagmem.specs.{declared.order.TheConstants.SLOTS, Regions.{links_of, numbers_of}};

use crate::region::Region;
use crate::room::link_at;

// How many slots there are: one for each number of 15 bits, 16,384 for the numbers of each of three greater lengths, and
// 8,192 for longer ones.
pub(crate) const SLOTS: usize = 90112;

// The slot of a number: the number itself if it has 15 bits, or else its highest 14 of 20, 28 or 40, or 13 of 51.
#[inline(always)]
fn slot(number: u64) -> usize
    requires { number < 2 ^ 51 }
    ensures value { result ≡ slot_of number }
    ensures small { result < SLOTS }
{
    if number < 1 << 15 {
        number as usize
    } else if number < 1 << 20 {
        32768 + (number >> 6) as usize
    } else if number < 1 << 28 {
        49152 + (number >> 14) as usize
    } else if number < 1 << 40 {
        65536 + (number >> 26) as usize
    } else {
        81920 + (number >> 38) as usize
    }
}

// How many digits a way from a slot has.
#[inline(always)]
fn digits(slot: usize) -> usize
    ensures value { result ≡ digits_in slot }
    ensures small { result < 20 }
{
    match slot / 16384 {
        0..=1 => 0,
        2 => 3,
        3 => 7,
        4 => 13,
        _ => 19,
    }
}

// What the numbers of a slot have above those digits.
fn prefix(slot: usize) -> u64
    ensures { result ≡ prefix_in slot }
{
    if slot < 32768 {
        slot as u64
    } else {
        slot as u64 % 16384
    }
}

// Where the region with a number stands, or else the link to the last region on its way and the digit on which that
// leads to none. Where the slot has no root, the link is 0, and the slot stands for the digit.
pub(crate) fn find(regions: &[Region], roots: &[u32], number: u64) -> Result<usize, (usize, usize)>
    requires small { number < 2 ^ 51 }
    requires linked { AreLinked (numbers_of regions.now) (links_of roots.now regions.now) }
    ensures { IsStanding (numbers_of regions.now) (links_of roots.now regions.now) number result }
{
    let first = slot(number);
    let root = link_at(roots, first);
    if root == 0 {
        return Err((0, first));
    }
    let mut level = digits(first);
    let mut index = root as usize - 1;
    loop {
        let region = &regions[index];
        if region.number == number {
            return Ok(index);
        }
        level -= 1;
        let digit = (number >> (2 * level)) as usize % 4;
        let child = region.children[digit];
        if child == 0 {
            return Err((index + 1, digit));
        }
        index = child as usize - 1;
    }
}

// The least number of a region from one on.
pub(crate) fn least_from(regions: &[Region], roots: &[u32], from: u64) -> Option<u64>
    requires small { from < 2 ^ 51 }
    requires linked { AreLinked (numbers_of regions.now) (links_of roots.now regions.now) }
    ensures { IsLeastFrom (numbers_of regions.now) from result }
{
    let mut least = None;
    for next in slot(from)..SLOTS {
        if is_before(least, next) {
            return least;
        }
        let link = link_at(roots, next);
        let under = least_under(regions, from, digits(next), link, prefix(next));
        least = lesser(least, under);
    }
    least
}

// Whether a number is there that is less than all from a slot on.
#[tactic(auto, using(crate::proofs::Orders::slot_rises))]
fn is_before(least: Option<u64>, next: usize) -> bool
    requires { IfSome least (λ number. number < 2 ^ 51) }
    ensures before { result ≡ true → (number : ℕ) → next ≤ slot_of number → IsUpTo number least }
{
    match least {
        Some(number) => slot(number) < next,
        None => false,
    }
}

// The least number from one on of a region that a link leads to: their numbers have a prefix, and so many digits
// after it. A prefix that is none's may lose its highest bits.
pub(crate) fn least_under(
    regions: &[Region],
    from: u64,
    level: usize,
    link: u32,
    prefix: u64,
) -> Option<u64>
    requires in_range { link ≤ length regions.now }
    requires within { (roots : List ℕ) (index digit : ℕ) → links_of roots regions.now (suc index) digit ≤ length regions.now }
    requires low { level < 20 }
    ensures { (roots : List ℕ) → IsLeastUnder (numbers_of regions.now) (links_of roots regions.now) from level link prefix result }
{
    if link == 0 {
        return None;
    }
    let region = &regions[link as usize - 1];
    let mut least = own(region.number, from);
    if level == 0 {
        return least;
    }
    for digit in 0..4 {
        let child = (prefix << 2) + digit;
        if child < from >> (2 * (level - 1)) {
            continue;
        }
        if ends_before(least, child, level - 1) {
            break;
        }
        let next = least_under(
            regions,
            from,
            level - 1,
            region.children[digit as usize],
            child,
        );
        least = lesser(least, next);
    }
    least
}

// A number, if it is not less than another.
fn own(number: u64, from: u64) -> Option<u64>
    ensures same { IfSome result (λ same. (same ≡ number) × (from ≤ number)) }
    ensures up { from ≤ number → IsUpTo number result }
{
    if number < from { None } else { Some(number) }
}

// Whether a number is there that is less than all with a prefix.
#[tactic(auto, using(crate::proofs::Orders::above_rises))]
fn ends_before(least: Option<u64>, prefix: u64, level: usize) -> bool
    requires { level < 20 }
    ensures before { result ≡ true → (number : ℕ) → prefix ≤ above level number → IsUpTo number least }
    ensures not_before { result ≡ false → IfSome least (λ number. prefix ≤ above level number) }
{
    match least {
        Some(number) => number >> (2 * level) < prefix,
        None => false,
    }
}

// The lesser of two numbers that are there.
pub(crate) fn lesser(first: Option<u64>, second: Option<u64>) -> Option<u64>
    ensures one { (result ≡ first) ⊎ (result ≡ second) }
    ensures first { (number : ℕ) → IsUpTo number first → IsUpTo number result }
    ensures second { (number : ℕ) → IsUpTo number second → IsUpTo number result }
{
    match first {
        Some(one) => match second {
            Some(other) if other < one => second,
            _ => first,
        },
        None => second,
    }
}
