//! A block: eight granules that stand side by side.
ghost use Rattle.std.specs.Prelude.{◌≡◌, ◌+◌, ◌<◌, ◌≤◌, ℕ, IfSome, length, is_none, None, Some, slice_index_or, slice_set};
ghost use Rattle.tagmem.specs.Granules.{IsBlankWhereUnput, overwritten, shown};

use crate::overwrites::overwrite;

// Block `number` has the granules from `8 * number` on. What was never put has no tag, zero bytes and the
// code 0.
#[derive(Drop)]
pub(crate) struct Block {
    pub(crate) number: u64,
    // The tag of each granule that was put.
    tags: [Option<bool>; 8],
    rows: [[u8; 16]; 8],
    codes: [u64; 8],
    ghost each_has_tag: { length tags ≡ 8 },
    ghost each_has_row: { length rows ≡ 8 },
    ghost each_has_code: { length codes ≡ 8 },
    ghost blank: { IsBlankWhereUnput tags rows codes },
}

impl Block {
    ghost use Rattle.tagmem.specs.Blocks.{slots_of, bytes_in_slot, code_in_slot, IsFirstFrom};

    // A block of which no granule was put.
    pub(crate) fn new(number: u64) -> Block
        ensures number { result.number ≡ number }
        ensures slots { (i : ℕ) → slice_index_or (slots_of result) i None ≡ None }
    {
        Block {
            number,
            tags: [None; 8],
            rows: [[0; 16]; 8],
            codes: [0; 8],
        }
    }

    // The tag and the bytes of a granule.
    #[inline(always)]
    #[tactic(auto, using(crate::proofs::Blocks::slot_of))]
    pub(crate) fn get(&self, slot: u8) -> Option<(bool, [u8; 16])>
        requires { slot < 8 }
        ensures { result ≡ shown (slice_index_or (slots_of self.now) slot None) }
    {
        match self.tags[slot as usize] {
            Some(tag) => Some((tag, self.rows[slot as usize])),
            None => None,
        }
    }

    // The tag, the bytes and the code of a granule.
    #[inline(always)]
    #[tactic(auto, using(crate::proofs::Blocks::slot_of))]
    pub(crate) fn entry(&self, slot: u8) -> Option<(bool, [u8; 16], u64)>
        requires { slot < 8 }
        ensures { result ≡ slice_index_or (slots_of self.now) slot None }
    {
        let place = slot as usize;
        match self.tags[place] {
            Some(tag) => Some((tag, self.rows[place], self.codes[place])),
            None => None,
        }
    }

    // The code of a granule, and 0 where it was never put.
    #[inline(always)]
    #[tactic(auto, using(crate::proofs::Blocks::slot_of))]
    pub(crate) fn code(&self, slot: u8) -> u64
        requires { slot < 8 }
        ensures { result ≡ code_in_slot (slots_of self.now) slot }
    {
        self.codes[slot as usize]
    }

    // The first slot from one on that was put.
    #[tactic(auto, using(crate::proofs::Blocks::slot_of, crate::proofs::Blocks::past_last))]
    pub(crate) fn first_from(&self, slot: u8) -> Option<u8>
        ensures first { IsFirstFrom (slots_of self.now) slot result }
        ensures small { IfSome result (λ first. first < 8) }
    {
        for i in slot as usize..8 {
            if self.tags[i].is_some() {
                return Some(i as u8);
            }
        }
        None
    }

    // Writes bytes inside a granule from a byte index on, over zeros where it was never put, and sets
    // its tag and its code. Says whether it was never put.
    #[inline(always)]
    #[tactic(auto, using(crate::proofs::Blocks::slot_of))]
    pub(crate) fn put(
        &mut self,
        slot: u8,
        tag: bool,
        byte_index: u8,
        bytes: &[u8],
        code: u64,
    ) -> bool
        requires in_block { slot < 8 }
        requires inside { byte_index + length bytes.now ≤ 16 }
        ensures first { result ≡ is_none (slice_index_or (slots_of self.old) slot None) }
        ensures number { self.new.number ≡ self.old.number }
        ensures slots { let old = slots_of self.old in
            slots_of self.new ≡ slice_set old slot (Some (tag, overwritten (bytes_in_slot old slot) byte_index bytes.now, code)) }
    {
        let old = self.tags[slot as usize];
        overwrite(&mut self.rows[slot as usize], byte_index, bytes);
        self.tags[slot as usize] = Some(tag);
        self.codes[slot as usize] = code;
        old.is_none()
    }
}
