//! A store that keeps its entries in pages.
ghost use Rattle.std.specs.Prelude.{◌≡◌, ◌^◌, ◌<◌, ◌+◌, ◌*◌, ◌≤◌, ◌/◌, length, false, true, None, Some, MatchOption, OnOk};
ghost use Rattle.std.specs.Prelude.{OnErr, slice_index, suc, vec_capacity};
ghost use Rattle.std.specs.FinMap as map;
ghost use Rattle.tagmem.specs.Blocks.{contents_of, numbers_of, AreDistinct, ArePaged, IsBlockAt, IsAbsent};
ghost use Rattle.tagmem.specs.{Granules.{with_write, with_cap, with_bytes, AreStored, HasRoom}};
ghost use Rattle.tagmem.specs.{Granules.{IsCodeFor, NonePut, IsNextPut}, Directories.{HasRoomFor, blocks_of, blocks_with, there_in}};
ghost use Rattle.tagmem.specs.{Trees.{AreTrees, place_of}};

use crate::block::Block;
use crate::directory::Directory;
use crate::room::make_room;
use crate::store::{NoMemory, TaggedStore};
use crate::trees::Trees;
use std::alloc::Global;

/// A store that keeps its entries in pages: page `n` has the 256 granules from `256 * n`. A put into an existing
/// page allocates nothing. A put that needs a new page changes nothing until it has all its memory.
///
/// A page has 32 blocks of eight granules. The memory of all its blocks is reserved with the page. A block is made
/// when one of its granules is put, and nothing is written to its memory before.
#[derive(Drop)]
pub struct PageStore {
    blocks: Vec<Block>,
    // Finds a block by its number.
    trees: Trees,
    // Finds pages in the order of their numbers.
    directory: Directory,
    count: u32,
    ghost as_many: { length trees.links.items ≡ 2 * length blocks.items },
    ghost found: { AreTrees (numbers_of blocks.items) trees.mask (length blocks.items) trees.roots.items trees.links.items },
    ghost distinct: { AreDistinct (numbers_of blocks.items) },
    ghost paged: { ArePaged blocks.items (there_in directory) },
    ghost stored: { AreStored (contents_of blocks.items) },
    ghost counted: { count ≡ map.len (contents_of blocks.items) },
    // There is room for all blocks of the pages that are there, and trees have room for all that blocks have room for.
    ghost roomy: { blocks_of directory ≤ vec_capacity blocks },
    ghost linkable: { HasRoomFor trees (vec_capacity blocks) },
    ghost few: { length blocks.items ≤ map.len (contents_of blocks.items) },
    ghost fits: { map.len (contents_of blocks.items) < 2 ^ 32 },
}

impl PageStore {
    /// An empty store. It takes no memory.
    pub fn new(alloc: Global) -> PageStore
        ensures empty { ⟦<PageStore as TaggedStore>⟧.contents result ≡ map.empty }
    {
        PageStore {
            blocks: Vec::new(alloc),
            trees: Trees::new(alloc),
            directory: Directory::new(alloc),
            count: 0,
        }
    }

    // The index of the block with a number.
    #[inline(always)]
    fn index_of(&self, number: u64) -> Option<usize>
        ensures { MatchOption result (IsAbsent self.now.blocks.items number) (IsBlockAt self.now.blocks.items number) }
    {
        let link = self.trees.root(number);
        if link == 0 {
            return None;
        }
        let root = link as usize - 1;
        if self.blocks[root].number == number {
            return Some(root);
        }
        self.search(number, root)
    }

    // The same where another block is at the root of its place.
    #[inline(never)]
    fn search(&self, number: u64, root: usize) -> Option<usize>
        requires { suc root ≡ slice_index self.now.trees.roots.items (place_of self.now.trees.mask number) }
        ensures { MatchOption result (IsAbsent self.now.blocks.items number) (IsBlockAt self.now.blocks.items number) }
    {
        self.trees.find(&self.blocks, number, root)
    }

    // The first granule of a block, from a slot on, that was put.
    #[tactic(auto, using(crate::proofs::Blocks::get_absent))]
    fn first_in(&self, number: u64, slot: u8) -> Option<u64>
        ensures { let contents = contents_of self.now.blocks.items in let from = 8 * number + slot in
            MatchOption result
            (NonePut contents from (8 * number + 8))
            (λ first. IsNextPut contents from (Some first)) }
    {
        match self.index_of(number) {
            Some(index) => match self.blocks[index].first_from(slot) {
                Some(first) => Some((number << 3) + u64::from(first)),
                None => None,
            },
            None => None,
        }
    }

    // The first granule of the blocks from one number to below another that was put.
    fn first_between(&self, number: u64, end: u64) -> Option<u64>
        ensures { let contents = contents_of self.now.blocks.items in
            MatchOption result
            (NonePut contents (8 * number) (8 * end))
            (λ first. IsNextPut contents (8 * number) (Some first)) }
    {
        for next in number..end {
            if let Some(first) = self.first_in(next, 0) {
                return Some(first);
            }
        }
        None
    }

    // Takes the memory of all blocks of a page that isn't there. More than is needed is asked for first, so that lists
    // seldom grow: memory that nothing was written to is address space alone.
    fn make_room(&mut self, there: bool) -> Result<(), NoMemory>
        ensures blocks { self.new.blocks.items ≡ self.old.blocks.items }
        ensures directory { self.new.directory ≡ self.old.directory }
        ensures count { self.new.count ≡ self.old.count }
        ensures room { OnOk result (blocks_with self.old.directory there ≤ vec_capacity self.new.blocks) }
        ensures only_new { OnErr result (there ≡ false) }
    {
        if there {
            return Ok(());
        }
        let Some(many) = self.directory.blocks_with(there) else {
            return Err(NoMemory);
        };
        let capacity = self.blocks.capacity();
        if many <= capacity
            || self.reserve(many.saturating_add(capacity / 2)).is_ok()
            || self.reserve(many.saturating_add(capacity / 32)).is_ok()
        {
            Ok(())
        } else {
            self.reserve(many)
        }
    }

    // Takes the memory of so many blocks in all.
    #[inline(never)]
    fn reserve(&mut self, many: usize) -> Result<(), NoMemory>
        ensures blocks { self.new.blocks.items ≡ self.old.blocks.items }
        ensures directory { self.new.directory ≡ self.old.directory }
        ensures count { self.new.count ≡ self.old.count }
        ensures room { OnOk result (many ≤ vec_capacity self.new.blocks) }
    {
        let capacity = self.blocks.capacity();
        self.trees.make_room(many)?;
        match make_room(&mut self.blocks, many) {
            Ok(()) => Ok(()),
            Err(_) => {
                self.trees.shrink_to(capacity);
                Err(NoMemory)
            }
        }
    }

    // Adds a block, of which one granule is put: bytes over zeros from a byte index on.
    fn add_block(
        &mut self,
        granule: u64,
        tag: bool,
        byte_index: u8,
        bytes: &[u8],
        code: u64,
    ) -> Result<(), NoMemory>
        requires in_memory { granule < 2 ^ 60 }
        requires coded { IsCodeFor tag code }
        requires absent { IsAbsent self.old.blocks.items (granule / 8) }
        requires inside { byte_index + length bytes.now ≤ 16 }
        requires room { HasRoom (contents_of self.old.blocks.items) granule }
        ensures ok { OnOk result (contents_of self.new.blocks.items
            ≡ with_write (contents_of self.old.blocks.items) granule tag byte_index bytes.now code) }
        ensures err { OnErr result (contents_of self.new.blocks.items ≡ contents_of self.old.blocks.items) }
        ensures in_page { OnErr result (NonePut (contents_of self.old.blocks.items) (256 * (granule / 256)) (256 * (granule / 256) + 256)) }
    {
        let page = granule / 256;
        let index = self.blocks.len();
        let region = self.directory.region_at(page / 64);
        let there = self.directory.has(page, region);
        self.make_room(there)?;
        let Ok(()) = self.directory.insert(page, region, there) else {
            return Err(NoMemory);
        };
        self.blocks.push_reserved(Block::new(granule / 8));
        self.blocks[index].put((granule % 8) as u8, tag, byte_index, bytes, code);
        self.count += 1;
        self.trees.push(&self.blocks);
        Ok(())
    }

    // Writes bytes inside a granule of a block that is there, and counts it where it was never put.
    #[inline(always)]
    fn write(
        &mut self,
        index: usize,
        granule: u64,
        tag: bool,
        byte_index: u8,
        bytes: &[u8],
        code: u64,
    )
        requires in_memory { granule < 2 ^ 60 }
        requires coded { IsCodeFor tag code }
        requires found { IsBlockAt self.old.blocks.items (granule / 8) index }
        requires inside { byte_index + length bytes.now ≤ 16 }
        requires room { HasRoom (contents_of self.old.blocks.items) granule }
        ensures { contents_of self.new.blocks.items
            ≡ with_write (contents_of self.old.blocks.items) granule tag byte_index bytes.now code }
    {
        let block = &mut self.blocks[index];
        let first = block.put((granule % 8) as u8, tag, byte_index, bytes, code);
        self.count += u32::from(first);
    }

    // Writes bytes inside a granule from a byte index on, over zeros where it was never put, and sets
    // its tag and its code.
    #[inline(always)]
    fn put(
        &mut self,
        granule: u64,
        tag: bool,
        byte_index: u8,
        bytes: &[u8],
        code: u64,
    ) -> Result<(), NoMemory>
        requires in_memory { granule < 2 ^ 60 }
        requires coded { IsCodeFor tag code }
        requires inside { byte_index + length bytes.now ≤ 16 }
        requires room { HasRoom (contents_of self.old.blocks.items) granule }
        ensures ok { OnOk result (contents_of self.new.blocks.items
            ≡ with_write (contents_of self.old.blocks.items) granule tag byte_index bytes.now code) }
        ensures err { OnErr result (contents_of self.new.blocks.items ≡ contents_of self.old.blocks.items) }
        ensures only_new { OnErr result (map.get (contents_of self.old.blocks.items) granule ≡ None) }
        ensures in_page { OnErr result (NonePut (contents_of self.old.blocks.items) (256 * (granule / 256)) (256 * (granule / 256) + 256)) }
    {
        match self.index_of(granule / 8) {
            Some(index) => {
                self.write(index, granule, tag, byte_index, bytes, code);
                Ok(())
            }
            None => self.add_block(granule, tag, byte_index, bytes, code),
        }
    }
}

impl TaggedStore for PageStore {
    ghost use Rattle.tagmem.specs.Stores.{granules_in};

    ghost contents = { λ s. contents_of s.blocks.items };

    ghost least_room = { λ _. 0 };

    ghost are_stored = { λ s. s.stored };

    ghost count_fits = { λ s. s.fits };

    #[inline(always)]
    #[tactic(auto, using(crate::proofs::Blocks::get_read, crate::proofs::Blocks::get_absent))]
    fn get(&self, granule: u64) -> Option<(bool, [u8; 16])> {
        match self.index_of(granule / 8) {
            Some(index) => self.blocks[index].get((granule % 8) as u8),
            None => None,
        }
    }

    #[inline(always)]
    #[tactic(auto, using(crate::proofs::Blocks::get_read, crate::proofs::Blocks::get_absent))]
    fn code(&self, granule: u64) -> u64 {
        match self.index_of(granule / 8) {
            Some(index) => self.blocks[index].code((granule % 8) as u8),
            None => 0,
        }
    }

    #[inline(always)]
    #[tactic(auto, using(crate::proofs::Blocks::get_read, crate::proofs::Blocks::get_absent))]
    fn entry(&self, granule: u64) -> Option<(bool, [u8; 16], u64)> {
        match self.index_of(granule / 8) {
            Some(index) => self.blocks[index].entry((granule % 8) as u8),
            None => None,
        }
    }

    fn next_put(&self, granule: u64) -> Option<u64> {
        match self.first_in(granule / 8, (granule % 8) as u8) {
            Some(next) => Some(next),
            None => match self.first_between(granule / 8 + 1, 32 * (granule / 256 + 1)) {
                Some(next) => Some(next),
                None => match self.directory.next(granule / 256 + 1) {
                    Some(page) => self.first_between(32 * page, 32 * page + 32),
                    None => None,
                },
            },
        }
    }

    #[inline(always)]
    fn put_cap(
        &mut self,
        granule: u64,
        tag: bool,
        bytes: [u8; 16],
        code: u64,
    ) -> Result<(), NoMemory>
        requires in_memory { granule < 2 ^ 60 }
        requires coded { IsCodeFor tag code }
        requires room { HasRoom (granules_in self.old) granule }
        ensures ok { OnOk result (granules_in self.new
            ≡ with_cap (granules_in self.old) granule tag bytes code) }
        ensures err { OnErr result (granules_in self.new ≡ granules_in self.old) }
        ensures only_new { OnErr result (map.get (granules_in self.old) granule ≡ None) }
        ensures in_page { OnErr result (NonePut (granules_in self.old) (256 * (granule / 256)) (256 * (granule / 256) + 256)) }
    {
        self.put(granule, tag, 0, &bytes, code)
    }

    #[inline(always)]
    fn put_bytes(&mut self, granule: u64, byte_index: u8, bytes: &[u8]) -> Result<(), NoMemory>
        requires in_memory { granule < 2 ^ 60 }
        requires some { 0 < length bytes.now }
        requires inside { byte_index + length bytes.now ≤ 16 }
        requires room { HasRoom (granules_in self.old) granule }
        ensures ok { OnOk result (granules_in self.new
            ≡ with_bytes (granules_in self.old) granule byte_index bytes.now) }
        ensures err { OnErr result (granules_in self.new ≡ granules_in self.old) }
        ensures only_new { OnErr result (map.get (granules_in self.old) granule ≡ None) }
        ensures in_page { OnErr result (NonePut (granules_in self.old) (256 * (granule / 256)) (256 * (granule / 256) + 256)) }
    {
        self.put(granule, false, byte_index, bytes, 0)
    }

    fn count(&self) -> u32 {
        self.count
    }
}
