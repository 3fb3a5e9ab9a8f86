//! Where blocks stand in a list, by their numbers.
ghost use Rattle.std.specs.Prelude.{◌≡◌, ◌+◌, ◌*◌, ◌/◌, ◌%◌, ◌<◌, ◌≤◌, ◌^◌, ℕ, suc, List, [], length, IfSome, MatchOption, OnOk};
ghost use Rattle.std.specs.Prelude.{slice_index, vec_capacity};
ghost use Rattle.tagmem.specs.{Blocks.{IsAbsent, IsBlockAt, numbers_of}, Trees.{AreForward, AreTrees, IsEnding, place_of}};

use crate::block::Block;
use crate::room::{link_at, make_room};
use crate::store::NoMemory;
use std::alloc::Global;

// How many places there are at first.
const FEWEST: usize = 512;

// An odd number, found by trying: numbers that lie at equal distances share few places by it.
const FACTOR: u64 = 0xb469_58c7_52a4_4551;

// The place of a number: bits from the middle of a product.
#[inline(always)]
fn place(number: u64, mask: u64) -> usize
    ensures { result ≡ place_of mask number }
{
    ((number.wrapping_mul(FACTOR) >> 32) & mask) as usize
}

// Binary trees of the blocks of a list, one in each place of a hash of their numbers. From a block a way goes on to the
// child that the next bit of the number names, the lowest first. Two numbers differ in some bit, so no way is long. A
// link is one more than the index of a block, and 0 for none.
#[derive(Drop)]
pub(crate) struct Trees {
    // For each place the link to the root of its tree.
    roots: Vec<u32>,
    // For each block the links to its two children.
    links: Vec<u32>,
    // One less than there are places.
    mask: u64,
    ghost masked: { 0 < length roots.items → mask < length roots.items },
}

impl Trees {
    ghost use Rattle.tagmem.specs.Directories.{HasRoomFor};

    // Of no block. They take no memory.
    pub(crate) fn new(alloc: Global) -> Trees
        ensures roots { result.roots.items ≡ [] }
        ensures links { result.links.items ≡ [] }
    {
        Trees {
            roots: Vec::new(alloc),
            links: Vec::new(alloc),
            mask: 0,
        }
    }

    // The link to the root of a number's place.
    #[inline(always)]
    pub(crate) fn root(&self, number: u64) -> u32
        ensures { result ≡ slice_index self.now.roots.items (place_of self.now.mask number) }
    {
        link_at(&self.roots, place(number, self.mask))
    }

    // The index of the block with a number, from the root of its place on.
    #[tactic(auto, using(crate::proofs::Ways::leads_from_root))]
    pub(crate) fn find(&self, blocks: &[Block], number: u64, root: usize) -> Option<usize>
        requires root { suc root ≡ slice_index self.now.roots.items (place_of self.now.mask number) }
        requires as_many { length self.now.links.items ≡ 2 * length blocks.now }
        requires trees { AreTrees (numbers_of blocks.now) self.now.mask (length blocks.now) self.now.roots.items self.now.links.items }
        ensures { MatchOption result (IsAbsent blocks.now number) (IsBlockAt blocks.now number) }
    {
        let mut index = root;
        let mut bits = number;
        loop {
            if blocks[index].number == number {
                return Some(index);
            }
            let child = self.links[2 * index + (bits % 2) as usize];
            if child == 0 {
                return None;
            }
            index = child as usize - 1;
            bits /= 2;
        }
    }

    // Takes the memory of so many blocks in all.
    pub(crate) fn make_room(&mut self, count: usize) -> Result<(), NoMemory>
        ensures kept { (many : ℕ) → HasRoomFor self.old many → HasRoomFor self.new many }
        ensures links { self.new.links.items ≡ self.old.links.items }
        ensures trees { (numbers : List ℕ) (many : ℕ) → AreTrees numbers self.old.mask many self.old.roots.items self.old.links.items
            → AreTrees numbers self.new.mask many self.new.roots.items self.new.links.items }
        ensures ok { OnOk result (HasRoomFor self.new count) }
    {
        let Some(links) = count.checked_mul(2) else {
            return Err(NoMemory);
        };
        make_room(&mut self.links, links)?;
        make_room(&mut self.roots, links.max(FEWEST))?;
        if self.roots.is_empty() {
            self.clear(FEWEST);
        }
        Ok(())
    }

    // Gives back the memory of blocks beyond so many, if the system takes it.
    pub(crate) fn shrink_to(&mut self, count: usize)
        ensures kept { (many : ℕ) → many ≤ count → HasRoomFor self.old many → HasRoomFor self.new many }
        ensures roots { self.new.roots.items ≡ self.old.roots.items }
        ensures links { self.new.links.items ≡ self.old.links.items }
        ensures mask { self.new.mask ≡ self.old.mask }
    {
        let links = count.saturating_mul(2);
        self.links.shrink_to(links);
        self.roots.shrink_to(links.max(FEWEST));
    }

    // Takes in the last of the blocks. There are more places first, where these are too few and there is room.
    pub(crate) fn push(&mut self, blocks: &[Block])
        requires room { HasRoomFor self.old (length blocks.now) }
        requires fits { length blocks.now < 2 ^ 32 }
        requires as_many { length self.old.links.items + 2 ≡ 2 * length blocks.now }
        requires trees { (limit : ℕ) → limit + 1 ≡ length blocks.now
            → AreTrees (numbers_of blocks.now) self.old.mask limit self.old.roots.items self.old.links.items }
        ensures as_many { length self.new.links.items ≡ 2 * length blocks.now }
        ensures kept { (many : ℕ) → HasRoomFor self.old many → HasRoomFor self.new many }
        ensures trees { AreTrees (numbers_of blocks.now) self.new.mask (length blocks.now) self.new.roots.items self.new.links.items }
    {
        self.links.push_reserved(0);
        self.links.push_reserved(0);
        match self.more_places(blocks.len()) {
            Some(places) => self.spread(blocks, places),
            None => self.add(blocks, blocks.len() - 1),
        }
    }

    // How many places there should be, where so many blocks are more than half as many as there are: eight times as many,
    // or else twice, where there is room for them.
    fn more_places(&self, count: usize) -> Option<usize>
        requires { 0 < length self.now.roots.items }
        ensures some { IfSome result (λ places. 0 < places) }
        ensures room { IfSome result (λ places. places ≤ vec_capacity self.now.roots) }
    {
        let places = self.roots.len();
        if count <= places / 2 {
            return None;
        }
        let most = self.roots.capacity();
        let more = places.saturating_mul(8);
        if more <= most {
            return Some(more);
        }
        let double = places.saturating_mul(2);
        if double <= most { Some(double) } else { None }
    }

    // Makes the trees anew in so many places, for which there is room.
    #[inline(never)]
    fn spread(&mut self, blocks: &[Block], places: usize)
        requires some { 0 < places }
        requires room { places ≤ vec_capacity self.old.roots }
        requires fits { length blocks.now < 2 ^ 32 }
        requires as_many { length self.old.links.items ≡ 2 * length blocks.now }
        ensures roots { 0 < length self.new.roots.items }
        ensures as_many { length self.new.links.items ≡ length self.old.links.items }
        ensures links { vec_capacity self.new.links ≡ vec_capacity self.old.links }
        ensures trees { AreTrees (numbers_of blocks.now) self.new.mask (length blocks.now) self.new.roots.items self.new.links.items }
    {
        self.links.fill(0);
        self.clear(places);
        for i in 0..blocks.len() {
            self.add(blocks, i);
        }
    }

    // Makes so many places, for which there is room, and none has a root.
    fn clear(&mut self, places: usize)
        requires some { 0 < places }
        requires room { places ≤ vec_capacity self.old.roots }
        ensures some { 0 < length self.new.roots.items }
        ensures none { (place : ℕ) → slice_index self.new.roots.items place ≡ 0 }
        ensures links { self.new.links ≡ self.old.links }
    {
        self.roots.clear();
        let _filled = self.roots.resize(places, 0);
        self.mask = places as u64 - 1;
    }

    // Takes in a block where the way of its number ends.
    fn add(&mut self, blocks: &[Block], index: usize)
        requires in_range { index < length blocks.now }
        requires fits { length blocks.now < 2 ^ 32 }
        requires places { 0 < length self.old.roots.items }
        requires as_many { length self.old.links.items ≡ 2 * length blocks.now }
        requires trees { AreTrees (numbers_of blocks.now) self.old.mask index self.old.roots.items self.old.links.items }
        ensures roots { length self.new.roots.items ≡ length self.old.roots.items }
        ensures as_many { length self.new.links.items ≡ length self.old.links.items }
        ensures links { vec_capacity self.new.links ≡ vec_capacity self.old.links }
        ensures trees { AreTrees (numbers_of blocks.now) self.new.mask (index + 1) self.new.roots.items self.new.links.items }
    {
        let number = blocks[index].number;
        let place = place(number, self.mask);
        let root = self.roots[place];
        if root == 0 {
            self.roots[place] = index as u32 + 1;
            return;
        }
        let (parent, side) = end(&self.links, number, root as usize - 1);
        self.links[2 * parent + side] = index as u32 + 1;
    }
}

// The block after which the way of a number from another ends, and on which side.
fn end(links: &[u32], number: u64, first: usize) -> (usize, usize)
    requires in_range { 2 * first < length links.now }
    requires even { length links.now % 2 ≡ 0 }
    requires forward { AreForward links.now (length links.now / 2) }
    ensures { IsEnding links.now number (suc first) result.0 result.1 }
{
    let mut parent = first;
    let mut bits = number;
    loop {
        let side = (bits % 2) as usize;
        let child = links[2 * parent + side];
        if child == 0 {
            return (parent, side);
        }
        parent = child as usize - 1;
        bits /= 2;
    }
}
