//! A source over bytes in memory.

ghost use Rattle.std.specs.Prelude.{◌≡◌, ◌≤◌, [], true, false, length, take, min, IfOk, IsOk, OnErr};
ghost use Rattle.std.proofs.{Common.{rules, append_assoc}, lemmas.Nat.pow_pos};
ghost use Rattle.cap_streams.specs.Streams.{CountsFault, is_end};

use crate::sources::{PullFault, Source};

/// The bytes of a slice, in pieces of given lengths. It never fails.
#[derive(Drop)]
pub struct SliceSource<'a> {
    rest: &'a [u8],
    lengths: &'a [usize],
    left: usize,
    is_ended: bool,
    ghost all_given: { is_ended ≡ true → rest.now ≡ [] },
}

impl<'a> SliceSource<'a> {
    ghost use Rattle.cap_streams.specs.Slices.{Gave, GivesPiece, bytes_left, has_ended, lengths_left, piece_lengths};

    /// The bytes in pieces of these lengths. A length 0 is skipped, and what is left after the last is
    /// one piece.
    pub fn new(bytes: &'a [u8], lengths: &'a [usize]) -> SliceSource<'a>
        ensures bytes { bytes_left result ≡ bytes.now }
        ensures lengths { lengths_left result ≡ (0, lengths.now) }
        ensures unended { has_ended result ≡ false }
    {
        SliceSource {
            rest: bytes,
            lengths,
            left: 0,
            is_ended: false,
        }
    }

    // Goes to the next length that is not 0, if nothing is left of the piece at hand.
    fn next_piece(&mut self)
        ensures bytes { bytes_left self.new ≡ bytes_left self.old }
        ensures lengths { lengths_left self.new ≡ piece_lengths self.old.left self.old.lengths.now }
    {
        while self.left == 0 {
            let Some((first, others)) = self.lengths.split_first() else {
                return;
            };
            self.left = *first;
            self.lengths = others;
        }
    }

    // Gives what fits of the piece at hand, and goes to the next one where nothing is left of it.
    fn give(&mut self, room: &mut [u8]) -> usize
        ensures fits { result ≤ length room.new }
        ensures bytes { Gave self.old self.new (take result room.new) }
        ensures pieces { GivesPiece self.old self.new (length room.new) result }
        ensures end { self.new.is_ended ≡ is_end (length room.new) result }
    {
        self.next_piece();
        let size = if self.left == 0 {
            self.rest.len()
        } else {
            self.left.min(self.rest.len())
        };
        let count = room.len().min(size);
        let (given, rest) = self.rest.split_at(count);
        room[..count].copy_from_slice(given);
        self.left = self.left.saturating_sub(count);
        self.rest = rest;
        self.is_ended = count == 0 && !room.is_empty();
        count
    }
}

impl<'a> Source for SliceSource<'a> {
    ghost use Rattle.cap_streams.specs.Slices.{Gave, GivesPiece, failed_pulls, has_ended};

    ghost gave = { Gave };

    ghost ended = { λ s. s.is_ended };

    ghost faults = { failed_pulls };

    ghost nothing = { λ s. Prim.search rules };

    ghost faults_fit = { λ s. pow_pos 64 };

    ghost joined = { λ a b c xs ys h k. Prim.search (rules, append_assoc) };

    fn pull(&mut self, piece: &mut [u8]) -> Result<usize, PullFault>
        ensures fits { IfOk result (λ n. n ≤ length piece.new) }
        ensures bytes { IfOk result (λ n. Gave self.old self.new (take n piece.new)) }
        ensures end { IfOk result (λ n. has_ended self.new ≡ is_end (length piece.new) n) }
        ensures nothing_given { OnErr result (Gave self.old self.new []) }
        ensures no_end { OnErr result (has_ended self.new ≡ false) }
        ensures counted { CountsFault (failed_pulls self.old) (failed_pulls self.new) result }

        // It never fails, and gives as much of the piece at hand as there is room for.
        ensures never_fails { IsOk result }
        ensures pieces { IfOk result (λ n. GivesPiece self.old self.new (length piece.new) n) }
    {
        Ok(self.give(piece))
    }
}
