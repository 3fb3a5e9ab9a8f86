//! Which pages are there, in the order of their numbers.
ghost use Rattle.std.specs.Prelude.{◌≡◌, ◌≢◌, ◌/◌, ◌*◌, ◌+◌, ◌^◌, ◌<◌, ◌≤◌, ℕ, true, false, Some, Err, IfSome, length, slice_index, vec_capacity};
ghost use Rattle.std.specs.Prelude.{MatchOption, OnOk, OnErr};
ghost use Rattle.tagmem.specs.{Blocks.AreDistinct, Orders.{AreLinked, IsLinkedTo}};
ghost use Rattle.tagmem.specs.{declared.order.TheConstants.SLOTS, Pages.{AreCounted, IsLeast, IsWith}, Regions.{is_there, links_of, numbers_of}};

use crate::order::{SLOTS, find, least_from};
use crate::region::Region;
use crate::room::make_room;
use crate::store::NoMemory;
use std::alloc::Global;

// How many regions there is room for at first: so many that they lie apart from lists that grow, and those stay in place.
const FEWEST: usize = 4096;

// A set of pages. Region `n` has the pages from `64 * n` on, and stands in the list just where one of them is there.
#[derive(Drop)]
pub(crate) struct Directory {
    regions: Vec<Region>,
    // The links to the first region of each slot, as far as one has a region.
    roots: Vec<u32>,
    // Where the region stands to which a page was added last.
    last: usize,
    // How many pages are there.
    count: usize,
    ghost distinct: { AreDistinct (numbers_of regions.items) },
    ghost linked: { AreLinked (numbers_of regions.items) (links_of roots.items regions.items) },
    ghost counted: { AreCounted (is_there regions.items) count },
}

impl Directory {
    ghost use Rattle.tagmem.specs.Directories.{IsRegionIn, there_in, blocks_of, blocks_with};

    // Of no page. It takes no memory.
    pub(crate) fn new(alloc: Global) -> Directory
        ensures there { (page : ℕ) → there_in result page ≡ false }
        ensures blocks { blocks_of result ≡ 0 }
    {
        Directory {
            regions: Vec::new(alloc),
            roots: Vec::new(alloc),
            last: 0,
            count: 0,
        }
    }

    // The least page from a number on that is there.
    #[tactic(auto, using(crate::proofs::Regions::none_before, crate::proofs::Regions::numbers_small))]
    pub(crate) fn next(&self, page: u64) -> Option<u64>
        requires { page ≤ 2 ^ 56 }
        ensures least { IsLeast (there_in self.now) page result }
        ensures small { IfSome result (λ least. least < 2 ^ 56) }
    {
        match self.first_in(page / 64, (page % 64) as u8) {
            Some(next) => Some(next),
            None => match least_from(&self.regions, &self.roots, page / 64 + 1) {
                Some(region) => self.first_in(region, 0),
                None => None,
            },
        }
    }

    // The first page of a region, from a place on, that is there.
    fn first_in(&self, region: u64, place: u8) -> Option<u64>
        requires place { place < 64 }
        requires region { region < 2 ^ 51 }
        ensures first { MatchOption result
            ((page : ℕ) → 64 * region + place ≤ page → page < 64 * region + 64 → there_in self.now page ≡ false)
            (λ first. IsLeast (there_in self.now) (64 * region + place) (Some first)) }
        ensures small { IfSome result (λ first. first < 2 ^ 56) }
        ensures found { let numbers = numbers_of self.now.regions.items in
            (at : ℕ) → at < length numbers → slice_index numbers at ≡ region → place ≡ 0 → result ≢ None }
    {
        match self.region_at(region) {
            Ok(at) => match self.regions[at].first_from(place) {
                Some(first) => Some(64 * region + u64::from(first)),
                None => None,
            },
            Err(_) => None,
        }
    }

    // How many blocks the pages have room for, with one more where it isn't there.
    pub(crate) fn blocks_with(&self, there: bool) -> Option<usize>
        ensures { IfSome result (λ many. many ≡ blocks_with self.now there) }
    {
        self.count.checked_add(usize::from(!there))?.checked_mul(32)
    }

    // Where a region stands in the list, or where its way ends.
    #[inline(always)]
    pub(crate) fn region_at(&self, region: u64) -> Result<usize, (usize, usize)>
        requires { region < 2 ^ 51 }
        ensures { IsRegionIn self.now region result }
    {
        match self.regions.get(self.last) {
            Some(last) if last.number == region => Ok(self.last),
            _ => find(&self.regions, &self.roots, region),
        }
    }

    // Whether a page is there, whose region stands somewhere or not.
    #[inline(always)]
    pub(crate) fn has(&self, page: u64, region: Result<usize, (usize, usize)>) -> bool
        requires { IsRegionIn self.now (page / 64) region }
        ensures { result ≡ there_in self.now page }
    {
        match region {
            Ok(at) => self.regions[at].has((page % 64) as u8),
            Err(_) => false,
        }
    }

    // Adds a page where it isn't there, or refuses it and stays as it was.
    pub(crate) fn insert(
        &mut self,
        page: u64,
        region: Result<usize, (usize, usize)>,
        there: bool,
    ) -> Result<(), NoMemory>
        requires small { page < 2 ^ 56 }
        requires region { IsRegionIn self.old (page / 64) region }
        requires there { there ≡ there_in self.old page }
        requires fits { self.old.count + 1 < 2 ^ 64 }
        ensures ok { OnOk result (IsWith (there_in self.old) (there_in self.new) page) }
        ensures blocks { OnOk result (blocks_of self.new ≡ blocks_with self.old there) }
        ensures err { OnErr result (self.new.regions.items ≡ self.old.regions.items) }
        ensures refused { OnErr result (blocks_of self.new ≡ blocks_of self.old) }
        ensures only_new { OnErr result (there ≡ false) }
    {
        if there {
            return Ok(());
        }
        match region {
            Ok(at) => {
                self.regions[at].add((page % 64) as u8);
                self.last = at;
                self.count += 1;
                Ok(())
            }
            Err(end) => self.add_region(page, end),
        }
    }

    // Adds a region with one page, to which the end of its way leads.
    fn add_region(&mut self, page: u64, end: (usize, usize)) -> Result<(), NoMemory>
        requires small { page < 2 ^ 56 }
        requires absent { IsRegionIn self.old (page / 64) (Err end) }
        requires fits { self.old.count + 1 < 2 ^ 64 }
        ensures ok { OnOk result (IsWith (there_in self.old) (there_in self.new) page) }
        ensures blocks { OnOk result (blocks_of self.new ≡ blocks_of self.old + 32) }
        ensures err { OnErr result (self.new.regions.items ≡ self.old.regions.items) }
        ensures refused { OnErr result (blocks_of self.new ≡ blocks_of self.old) }
    {
        let at = self.regions.len();
        let Ok(link) = u32::try_from(at + 1) else {
            return Err(NoMemory);
        };
        make_room(&mut self.roots, SLOTS)?;
        let Ok(()) = self.regions.reserve((at + 1).max(FEWEST) - at) else {
            return Err(NoMemory);
        };
        self.regions
            .push_reserved(Region::new(page / 64, (page % 64) as u8));
        self.last = at;
        self.count += 1;
        join(&mut self.regions, &mut self.roots, end, link);
        Ok(())
    }
}

// Links the end of a way.
fn join(regions: &mut Vec<Region>, roots: &mut Vec<u32>, end: (usize, usize), link: u32)
    requires in_range { end.0 ≤ length regions.old.items }
    requires slot { end.0 ≡ 0 → end.1 < SLOTS }
    requires room { SLOTS ≤ vec_capacity roots.old }
    requires digit { 0 < end.0 → end.1 < 4 }
    ensures numbers { numbers_of regions.new.items ≡ numbers_of regions.old.items }
    ensures there { (page : ℕ) → is_there regions.new.items page ≡ is_there regions.old.items page }
    ensures linked { IsLinkedTo (links_of roots.old.items regions.old.items) (links_of roots.new.items regions.new.items) end.0 end.1 link }
{
    if end.0 == 0 {
        set_root(roots, end.1, link);
        return;
    }
    regions[end.0 - 1].lead(end.1, link);
}

// Sets the link in a slot, in a table that is made as far as that first.
fn set_root(roots: &mut Vec<u32>, slot: usize, link: u32)
    requires slot { slot < SLOTS }
    requires room { SLOTS ≤ vec_capacity roots.old }
    ensures own { slice_index roots.new.items slot ≡ link }
    ensures others { (other : ℕ) → other ≢ slot → slice_index roots.new.items other ≡ slice_index roots.old.items other }
{
    if roots.len() <= slot {
        let _made = roots.resize(slot + 1, 0);
    }
    roots[slot] = link;
}
