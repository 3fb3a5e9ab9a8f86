//! The neighbours of an address in an ordered map.

ghost use Rattle.std.specs.{Prelude.{◌≡◌, ◌<◌, ◌≤◌, ◌^◌, ℕ, IfSome, MatchOption, Some}, Ordering.nat_cmp};
ghost use Rattle.std.specs.BTreeMap as tree;
ghost use Rattle.cap_bounds.specs.Rounding.{rounded_base, rounded_top};
ghost use Rattle.cap_heap.specs.Neighbours.{IsFirstFrom, IsLastBelow};

use cap_bounds::round;
use std::collections::BTreeMap;

/// The last entry below a number.
pub(crate) fn last_below(map: &BTreeMap<u64, u64>, number: u128) -> Option<(u64, u64)>
    ensures { IsLastBelow (tree.get nat_cmp map.now) number result }
{
    let Ok(number) = u64::try_from(number) else {
        return last(map);
    };
    match map.range(..number).next_back() {
        Some((key, value)) => Some((*key, *value)),
        None => None,
    }
}

// The last entry.
fn last(map: &BTreeMap<u64, u64>) -> Option<(u64, u64)>
    ensures { (number : ℕ) → 2 ^ 64 ≤ number → IsLastBelow (tree.get nat_cmp map.now) number result }
{
    let (key, value) = map.last_key_value()?;
    Some((*key, *value))
}

/// The first entry from an address on.
pub(crate) fn first_from(map: &BTreeMap<u64, u64>, address: u64) -> Option<(u64, u64)>
    ensures { IsFirstFrom (tree.get nat_cmp map.now) address result }
{
    let (key, value) = map.range(address..).next()?;
    Some((*key, *value))
}

/// An entry, if its rounded top is above a base.
pub(crate) fn reaching_up(below: Option<(u64, u64)>, base: u64) -> Option<(u64, u64)>
    ensures { MatchOption result (IfSome below (λ entry. rounded_top entry.0 entry.1 ≤ base))
        (λ entry. (below ≡ Some entry) × (base < rounded_top entry.0 entry.1)) }
{
    match below {
        Some((address, length)) if u128::from(base) < round(address, length).top => {
            Some((address, length))
        }
        _ => None,
    }
}

/// An entry, if its rounded base is below a top.
pub(crate) fn reaching_down(above: Option<(u64, u64)>, top: u128) -> Option<(u64, u64)>
    ensures { MatchOption result (IfSome above (λ entry. top ≤ rounded_base entry.0 entry.1))
        (λ entry. (above ≡ Some entry) × (rounded_base entry.0 entry.1 < top)) }
{
    match above {
        Some((address, length)) if u128::from(round(address, length).base) < top => {
            Some((address, length))
        }
        _ => None,
    }
}
