//! A store that refuses the memory for one granule.

ghost use Rattle.std.specs.Prelude.{◌≡◌, true, None, Some};
ghost use Rattle.std.specs.FinMap as map;

use tagmem::{NoMemory, TaggedStore};

/// A store that is the inner one, but that it refuses one granule that was never put, and then has memory again.
#[derive(Drop)]
pub struct Refusing<M: TaggedStore> {
    inner: M,
    // How many granules are put before the one that is refused. None once it was.
    waits: Option<u32>,
}

impl<M: TaggedStore> Refusing<M> {
    ghost use Rattle.std.specs.Prelude.{◌≡◌, ◌^◌, ◌<◌, true, None, Some};
    ghost use Rattle.std.specs.FinMap as map;

    /// The inner store, which puts so many granules for the first time before it refuses one.
    pub fn new(inner: M, at: u32) -> Refusing<M>
        ensures inner { result.inner ≡ inner }
        ensures waits { result.waits ≡ Some at }
    {
        Refusing {
            inner,
            waits: Some(at),
        }
    }

    // Whether the put of this granule is the one that is refused.
    fn is_refused(&mut self, granule: u64) -> bool
        requires { granule < 2 ^ 60 }
        ensures kept { self.new.inner ≡ self.old.inner }
        ensures only_new { result ≡ true → map.get (M.contents self.old.inner) granule ≡ None }
        ensures only_once { result ≡ true → (self.old.waits ≡ Some 0) × (self.new.waits ≡ None) }
        ensures refused { self.old.waits ≡ Some 0 → map.get (M.contents self.old.inner) granule ≡ None → result ≡ true }
    {
        if self.inner.get(granule).is_some() {
            return false;
        }
        match self.waits {
            Some(0) => {
                self.waits = None;
                true
            }
            Some(count) => {
                self.waits = Some(count - 1);
                false
            }
            None => false,
        }
    }
}

impl<M: TaggedStore> TaggedStore for Refusing<M> {
    ghost contents = { λ s. M.contents s.inner };

    ghost least_room = { λ _. 0 };

    ghost are_stored = { λ s. M.are_stored s.inner };

    ghost count_fits = { λ s. M.count_fits s.inner };

    fn get(&self, granule: u64) -> Option<(bool, [u8; 16])> {
        self.inner.get(granule)
    }

    fn code(&self, granule: u64) -> u64 {
        self.inner.code(granule)
    }

    fn next_put(&self, granule: u64) -> Option<u64> {
        self.inner.next_put(granule)
    }

    fn put_cap(
        &mut self,
        granule: u64,
        tag: bool,
        bytes: [u8; 16],
        code: u64,
    ) -> Result<(), NoMemory> {
        if self.is_refused(granule) {
            return Err(NoMemory);
        }
        self.inner.put_cap(granule, tag, bytes, code)
    }

    fn put_bytes(&mut self, granule: u64, byte_index: u8, bytes: &[u8]) -> Result<(), NoMemory> {
        if self.is_refused(granule) {
            return Err(NoMemory);
        }
        self.inner.put_bytes(granule, byte_index, bytes)
    }

    fn count(&self) -> u32 {
        self.inner.count()
    }
}
