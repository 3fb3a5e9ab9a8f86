//! A text in the room that C has for it.

ghost use Rattle.std.specs.Prelude.{◌≡◌, ◌+◌, ◌≤◌, ◌<◌, ◌^◌, [], length, take, IfOk, IsOk, OnErr, refl};
ghost use Rattle.std.proofs.Common.{◌∙◌, rules};
ghost use Rattle.cap_streams.specs.{Streams.CountsFault, Written.WritesInside};
ghost use Rattle.cap_report.specs.Texts.{IsTold-nothing, IsTold-joined};

use cap_log::{PushFault, Sink};

/// A sink that counts the bytes that it takes, and writes them into its room as long as they fit. It never fails.
#[derive(Drop)]
pub struct TextSink<'a> {
    room: &'a mut [u8],
    length: usize,
    ghost counted: { length < 2 ^ 64 },
}

impl<'a> TextSink<'a> {
    ghost use Rattle.cap_report.specs.Sinks.{bytes_in, counted_by, name_of_room};

    /// A text begins at the front of the room. None was taken.
    pub fn new(room: &'a mut [u8]) -> TextSink<'a>
        ensures same_reference { name_of_room result ≡ room.entry.ghost_name }
        ensures room { bytes_in result ≡ room.old }
        ensures none { counted_by result ≡ 0 }
    {
        TextSink { room, length: 0 }
    }

    /// How many bytes the text has: 2^64 - 1 for as many and more.
    pub fn length(&self) -> u64
        ensures count { result ≡ counted_by self.now }
    {
        self.length as u64
    }
}

impl<'a> Sink for TextSink<'a> {
    ghost use Rattle.cap_report.specs.Sinks.{Took, failed_pushes};

    ghost took = { Took };

    ghost faults = { failed_pushes };

    ghost nothing = { λ s. (refl, IsTold-nothing s.length s.room.now s.counted) };

    ghost faults_fit = { λ s. Prim.search rules };

    ghost joined = { λ a b c xs ys h k. (
      k.0 ∙ h.0,
      IsTold-joined a.length b.length c.length xs ys a.room.now b.room.now c.room.now h.1 k.1,
    ) };

    fn push(&mut self, piece: &[u8]) -> Result<usize, PushFault>
        ensures fits { IfOk result (λ n. n ≤ length piece.now) }
        ensures some { IfOk result (λ n. 0 < length piece.now → 0 < n) }
        ensures bytes { IfOk result (λ n. Took self.old self.new (take n piece.now)) }
        ensures nothing_taken { OnErr result (Took self.old self.new []) }
        ensures counted { CountsFault (failed_pushes self.old) (failed_pushes self.new) result }
        ensures takes_all { IfOk result (λ n. n ≡ length piece.now) }
        ensures never_fails { IsOk result }
    {
        put_where_it_fits(self.room, self.length, piece);
        self.length = self.length.saturating_add(piece.len());
        Ok(piece.len())
    }
}

// Writes a piece from an index on, if all of it fits.
fn put_where_it_fits(room: &mut [u8], at: usize, piece: &[u8])
    ensures written { at + length piece.now ≤ length room.old
        → WritesInside at (at + length piece.now) piece.now room.old room.new }
{
    if piece.len() > room.len() || at > room.len() - piece.len() {
        return;
    }
    room[at..at + piece.len()].copy_from_slice(piece);
}
