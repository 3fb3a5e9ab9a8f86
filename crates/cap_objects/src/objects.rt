//! An object.

ghost use Rattle.std.specs.Prelude.{◌≡◌, ◌&&◌, ◌||◌, ◌+◌, not, if◌then◌else◌};
ghost use Rattle.cap_objects.specs.{Extents.{is_compared, is_present}, Objects.top_of_extent};

use crate::moments::Moment;

/// An object that was handed out, whose extent is an interval of addresses. It is live until it is freed, and present
/// where it is live or a place holds it.
#[derive(Clone, Copy, Debug, PartialEq, Eq)]
pub struct Object {
    /// The base of its extent.
    pub base: u64,
    /// The last address of its extent, if it has any.
    pub last: u64,
    /// How many places hold it.
    pub held: u64,
    /// When it was handed out.
    pub handed_at: Moment,
    /// When it was freed, and before any step where it is live.
    pub freed_at: Moment,
    /// Its number: objects are numbered from 1 in the order in which they are handed out.
    pub number: u32,
    /// Whether its extent has an address.
    pub long: bool,
    /// Whether it was freed.
    pub freed: bool,
}

impl Object {
    /// The top of its extent, which is its base where the extent is empty.
    pub fn top(&self) -> u128
        ensures value { result ≡ top_of_extent self.now }
    {
        if self.long {
            u128::from(self.last) + 1
        } else {
            u128::from(self.base)
        }
    }

    /// Whether it is live or held.
    #[inline(always)]
    pub fn is_present(&self) -> bool
        ensures value { result ≡ is_present self.now }
    {
        !self.freed || self.held > 0
    }
}

// Whether new extents are compared with that of an object, if it is present: it has an address, and is live, or freed
// ones count too.
#[inline(always)]
pub(crate) fn is_compared(object: Object, keeps: bool) -> bool
    ensures { result ≡ is_compared keeps object }
{
    object.long && (keeps || !object.freed)
}
