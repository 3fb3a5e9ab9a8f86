//! A store that keeps its entries in a sorted list.
ghost use Rattle.std.specs.Prelude.{◌≡◌, ◌^◌, ◌<◌, ◌+◌, ◌≤◌, length, None, vec_len, OnOk, OnErr, IfOk, IfErr};
ghost use Rattle.std.specs.FinMap as map;
ghost use Rattle.tagmem.specs.Granules.{with_write, AreStored, HasRoom, IsCodeFor, IsStored};
ghost use Rattle.tagmem.specs.Listed.{contents_of, entry_of, IsRising, IsEntryAt, IsGapFor};

use crate::overwrites::overwrite;
use crate::store::{NoMemory, TaggedStore};
use std::alloc::Global;

// A granule, and what stands there.
#[derive(Clone, Copy)]
struct Listed {
    granule: u64,
    tag: bool,
    bytes: [u8; 16],
    code: u64,
}

/// A store that keeps its entries in a list, in the order of their granules.
#[derive(Drop)]
pub struct ListStore {
    entries: Vec<Listed>,
    ghost rising: { IsRising entries.items },
    ghost stored: { AreStored (contents_of entries.items) },
    ghost fits: { map.len (contents_of entries.items) < 2 ^ 32 },
}

impl ListStore {
    /// An empty store. It takes no memory.
    pub fn new(alloc: Global) -> ListStore
        ensures empty { ⟦<ListStore as TaggedStore>⟧.contents result ≡ map.empty }
    {
        ListStore {
            entries: Vec::new(alloc),
        }
    }

    // The index of the granule's entry, or the one at which it would go.
    fn index_of(&self, granule: u64) -> Result<usize, usize>
        ensures found { IfOk result (IsEntryAt self.now.entries.items granule) }
        ensures absent { IfErr result (IsGapFor self.now.entries.items granule) }
    {
        self.entries
            .binary_search_by_key(&granule, |listed| listed.granule)
    }

    // Puts an entry at the index of the granule's own.
    fn replace(&mut self, index: usize, listed: Listed)
        requires stored { IsStored listed.granule (entry_of listed) }
        requires found { IsEntryAt self.old.entries.items listed.granule index }
        ensures { contents_of self.new.entries.items
            ≡ map.insert (contents_of self.old.entries.items) listed.granule (entry_of listed) }
    {
        self.entries[index] = listed;
    }

    // Adds an entry where it goes.
    fn insert(&mut self, index: usize, listed: Listed) -> Result<(), NoMemory>
        requires stored { IsStored listed.granule (entry_of listed) }
        requires absent { IsGapFor self.old.entries.items listed.granule index }
        requires room { vec_len self.old.entries < 4294967295 }
        ensures ok { OnOk result (contents_of self.new.entries.items
            ≡ map.insert (contents_of self.old.entries.items) listed.granule (entry_of listed)) }
        ensures err { OnErr result (self.new.entries.items ≡ self.old.entries.items) }
    {
        self.entries.insert(index, listed).map_err(|_| NoMemory)
    }

    // Writes bytes inside a granule from a byte index on, over zeros where it was never put, and sets
    // its tag and its code.
    fn put(
        &mut self,
        granule: u64,
        tag: bool,
        byte_index: u8,
        bytes: &[u8],
        code: u64,
    ) -> Result<(), NoMemory>
        requires in_memory { granule < 2 ^ 60 }
        requires coded { IsCodeFor tag code }
        requires inside { byte_index + length bytes.now ≤ 16 }
        requires room { HasRoom (contents_of self.old.entries.items) granule }
        ensures ok { OnOk result (contents_of self.new.entries.items
            ≡ with_write (contents_of self.old.entries.items) granule tag byte_index bytes.now code) }
        ensures err { OnErr result (self.new.entries.items ≡ self.old.entries.items) }
        ensures only_new { OnErr result (map.get (contents_of self.old.entries.items) granule ≡ None) }
    {
        match self.index_of(granule) {
            Ok(index) => {
                let mut listed = self.entries[index];
                listed.tag = tag;
                listed.code = code;
                overwrite(&mut listed.bytes, byte_index, bytes);
                self.replace(index, listed);
                Ok(())
            }
            Err(index) => {
                let mut listed = Listed {
                    granule,
                    tag,
                    bytes: [0; 16],
                    code,
                };
                overwrite(&mut listed.bytes, byte_index, bytes);
                self.insert(index, listed)
            }
        }
    }
}

impl TaggedStore for ListStore {
    ghost contents = { λ s. contents_of s.entries.items };

    ghost least_room = { λ _. 0 };

    ghost are_stored = { λ s. s.stored };

    ghost count_fits = { λ s. s.fits };

    #[tactic(auto, using(crate::proofs::Indexes::read_at, crate::proofs::Indexes::get_in_gap))]
    fn get(&self, granule: u64) -> Option<(bool, [u8; 16])> {
        match self.index_of(granule) {
            Ok(index) => {
                let listed = &self.entries[index];
                let bytes = listed.bytes;
                Some((listed.tag, bytes))
            }
            Err(_) => None,
        }
    }

    #[tactic(auto, using(crate::proofs::Indexes::read_at, crate::proofs::Indexes::get_in_gap))]
    fn code(&self, granule: u64) -> u64 {
        match self.index_of(granule) {
            Ok(index) => self.entries[index].code,
            Err(_) => 0,
        }
    }

    #[tactic(auto, using(crate::proofs::Indexes::next_put_at, crate::proofs::Indexes::next_put_end))]
    fn next_put(&self, granule: u64) -> Option<u64> {
        match self.index_of(granule) {
            Ok(_) => Some(granule),
            Err(index) => match self.entries.get(index) {
                Some(listed) => Some(listed.granule),
                None => None,
            },
        }
    }

    fn put_cap(
        &mut self,
        granule: u64,
        tag: bool,
        bytes: [u8; 16],
        code: u64,
    ) -> Result<(), NoMemory> {
        self.put(granule, tag, 0, &bytes, code)
    }

    fn put_bytes(&mut self, granule: u64, byte_index: u8, bytes: &[u8]) -> Result<(), NoMemory> {
        self.put(granule, false, byte_index, bytes, 0)
    }

    fn count(&self) -> u32 {
        self.entries.len() as u32
    }
}
