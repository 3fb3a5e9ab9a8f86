//! A region: 64 pages that stand side by side.
ghost use Rattle.std.specs.Prelude.{◌≡◌, ◌≢◌, ◌<◌, ◌^◌, ℕ, IfSome, false, length, slice_index, slice_set, true};
ghost use Rattle.tagmem.specs.Pages.{has_page, HasPage, IsLeast};

// Its number, a bit for each of its pages, which says whether it is there, and the links to four other regions.
#[derive(Drop)]
pub(crate) struct Region {
    pub(crate) number: u64,
    there: u64,
    pub(crate) children: [u32; 4],
    ghost in_memory: { number < 2 ^ 50 },
    ghost small: { there < 2 ^ 64 },
    ghost used: { HasPage there },
    ghost each_has_child: { length children ≡ 4 },
}

impl Region {
    // A region of which one page is there, and which leads to no other.
    pub(crate) fn new(number: u64, place: u8) -> Region
        requires in_memory { number < 2 ^ 50 }
        requires place { place < 64 }
        ensures number { result.number ≡ number }
        ensures own { has_page result.there place ≡ true }
        ensures others { (other : ℕ) → other ≢ place → has_page result.there other ≡ false }
        ensures children { (digit : ℕ) → slice_index result.children digit ≡ 0 }
    {
        Region {
            number,
            there: 1 << place,
            children: [0; 4],
        }
    }

    // Whether a page is there.
    #[inline(always)]
    pub(crate) fn has(&self, place: u8) -> bool
        requires { place < 64 }
        ensures { result ≡ has_page self.now.there place }
    {
        (self.there >> place) % 2 == 1
    }

    // The first page from a place on that is there.
    #[tactic(auto, using(crate::proofs::Regions::past))]
    pub(crate) fn first_from(&self, place: u8) -> Option<u8>
        ensures first { IsLeast (has_page self.now.there) place result }
        ensures small { IfSome result (λ first. first < 64) }
    {
        for i in place..64 {
            if self.has(i) {
                return Some(i);
            }
        }
        None
    }

    // Adds a page.
    pub(crate) fn add(&mut self, place: u8)
        requires { place < 64 }
        ensures number { self.new.number ≡ self.old.number }
        ensures children { self.new.children ≡ self.old.children }
        ensures own { has_page self.new.there place ≡ true }
        ensures others { (other : ℕ) → other ≢ place → has_page self.new.there other ≡ has_page self.old.there other }
    {
        self.there |= 1 << place;
    }

    // Leads to a region on a digit.
    pub(crate) fn lead(&mut self, digit: usize, link: u32)
        requires { digit < 4 }
        ensures number { self.new.number ≡ self.old.number }
        ensures there { self.new.there ≡ self.old.there }
        ensures children { self.new.children ≡ slice_set self.old.children digit link }
    {
        self.children[digit] = link;
    }
}
