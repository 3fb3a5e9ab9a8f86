//! The bytes of a source that were pulled and not yet taken.

ghost use Rattle.std.specs.Prelude.{◌≡◌, ℕ, ◌+◌, ◌<◌, ◌≤◌, List, [], ◌++◌, ◌==◌, false, length, take, drop, IfOk, OnOk};
ghost use Rattle.std.specs.Prelude.{OnErr};
ghost use Rattle.cap_streams.specs.{Streams.next_count, declared.read_buffer.TheConstants.SIZE};

use crate::sources::{PullFault, Source};

// How many bytes a buffer has.
pub(crate) const SIZE: usize = 32768;

/// The bytes of a source that were pulled and not yet taken, and room after them.
#[derive(Drop)]
pub struct ReadBuffer {
    bytes: [u8; SIZE],
    start: usize,
    end: usize,
    ghost ordered: { start ≤ end },
    ghost within: { end ≤ SIZE },
}

impl ReadBuffer {
    ghost use Rattle.cap_streams.specs.ReadBuffers.{buffer_of, items, room, start_of};

    /// Nothing was pulled yet.
    pub fn new() -> ReadBuffer
        ensures empty { items result ≡ [] }
    {
        ReadBuffer {
            bytes: [0; SIZE],
            start: 0,
            end: 0,
        }
    }

    /// The bytes that are held.
    pub fn as_slice(&self) -> &[u8]
        ensures value { result.now ≡ items self.now }
    {
        &self.bytes[self.start..self.end]
    }

    // The first bytes of those held.
    pub(crate) fn before(&self, start: usize, length: usize) -> &[u8]
        requires { start + length ≤ SIZE }
        ensures value { result.now ≡ take length (drop start self.now.bytes) }
    {
        &self.bytes[start..start + length]
    }

    pub(crate) fn start(&self) -> usize
        ensures value { result ≡ self.now.start }
        ensures bound { result + length (items self.now) ≤ SIZE }
    {
        self.start
    }

    /// Takes so many bytes off the front.
    pub fn consume(&mut self, count: usize)
        requires held { count ≤ length (items self.old) }
        ensures items { items self.new ≡ drop count (items self.old) }
        ensures bytes { buffer_of self.new ≡ buffer_of self.old }
        ensures start { start_of self.new ≡ start_of self.old + count }
    {
        self.start += count;
    }

    fn move_to_front(&mut self)
        ensures items { items self.new ≡ items self.old }
        ensures room { room self.new + length (items self.new) ≡ SIZE }
    {
        let (start, end) = (self.start, self.end);
        self.bytes.copy_within(start..end, 0);
        self.start = 0;
        self.end = end - start;
    }

    /// Pulls once, and puts what follows what is held: how many bytes. None is the end of the source.
    pub fn fill<S: Source>(&mut self, source: &mut S) -> Result<usize, PullFault>
        requires room { length (items self.old) < SIZE }
        ensures ok { IfOk result (λ n. (more : List ℕ) × (length more ≡ n) × (items self.new ≡ items self.old ++ more)
            × S.gave source.old source.new more × (S.ended source.new ≡ (n == 0))) }
        ensures counted { OnOk result (S.faults source.new ≡ S.faults source.old) }
        ensures err { OnErr result ((items self.new ≡ items self.old) × S.gave source.old source.new []
            × (S.ended source.new ≡ false) × (S.faults source.new ≡ next_count (S.faults source.old))) }
    {
        self.move_to_front();
        let end = self.end;
        let count = source.pull(&mut self.bytes[end..])?;
        self.end = end + count;
        Ok(count)
    }
}
