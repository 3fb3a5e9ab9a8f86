//! A sink over bytes in memory.

ghost use Rattle.std.specs.Prelude.{◌≡◌, ◌≢◌, ◌^◌, ◌≤◌, [], length, min, take, ◌<◌, ◌↔◌, IfOk, IsErr, OnErr, refl};
ghost use Rattle.std.proofs.Common.{◌∙◌};
ghost use Rattle.cap_streams.specs.{Streams.CountsFault, Written.{WritesInside-nothing, WritesInside-joined}};

use crate::sinks::{PushFault, Sink};

/// A sink over bytes in memory: it takes what fits, and fails where nothing does.
#[derive(Drop)]
pub struct SliceSink<'a> {
    room: &'a mut [u8],
    taken: usize,
    faults: u64,
    ghost fits: { taken ≤ length room.now },
    ghost few_faults: { faults < 2 ^ 64 },
}

impl<'a> SliceSink<'a> {
    ghost use Rattle.cap_streams.specs.Slices.{faults_of, name_of_room, room_of, taken_by};

    /// Bytes go to the front of the slice. None were taken, and there were no faults.
    pub fn new(room: &'a mut [u8]) -> SliceSink<'a>
        ensures same_reference { name_of_room result ≡ room.entry.ghost_name }
        ensures room { room_of result ≡ room.old }
        ensures taken { taken_by result ≡ 0 }
        ensures faults { faults_of result ≡ 0 }
    {
        SliceSink {
            room,
            taken: 0,
            faults: 0,
        }
    }

    /// How many bytes it took.
    pub fn taken(&self) -> usize
        ensures count { result ≡ taken_by self.now }
    {
        self.taken
    }
}

impl<'a> Sink for SliceSink<'a> {
    ghost use Rattle.cap_streams.specs.Slices.{Took, faults_of, room_left};

    ghost took = { Took };

    ghost faults = { λ s. s.faults };

    ghost nothing = { λ s. (refl, WritesInside-nothing s.taken s.room.now s.fits) };

    ghost faults_fit = { λ s. s.few_faults };

    ghost joined = { λ a b c xs ys h k. (
      k.0 ∙ h.0,
      WritesInside-joined a.taken b.taken c.taken xs ys a.room.now b.room.now c.room.now h.1 k.1,
    ) };

    fn push(&mut self, piece: &[u8]) -> Result<usize, PushFault>
        ensures fits { IfOk result (λ n. n ≤ length piece.now) }
        ensures some { IfOk result (λ n. 0 < length piece.now → 0 < n) }
        ensures bytes { IfOk result (λ n. Took self.old self.new (take n piece.now)) }
        ensures nothing_taken { OnErr result (Took self.old self.new []) }
        ensures counted { CountsFault (faults_of self.old) (faults_of self.new) result }
        ensures takes_what_fits { IfOk result (λ n. n ≡ min (length piece.now) (room_left self.old)) }
        ensures fails_where_full { IsErr result ↔ ((room_left self.old ≡ 0) × (piece.now ≢ [])) }
    {
        let count = piece.len().min(self.room.len() - self.taken);
        if count == 0 && !piece.is_empty() {
            self.faults = self.faults.wrapping_add(1);
            return Err(PushFault);
        }
        self.room[self.taken..self.taken + count].copy_from_slice(&piece[..count]);
        self.taken += count;
        Ok(count)
    }
}
