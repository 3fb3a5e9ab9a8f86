//! A source that keeps what another gives.

ghost use Rattle.std.specs.Prelude.{◌≡◌, ◌++◌, List, ℕ, refl};
ghost use Rattle.std.proofs.Common.{◌∙◌, append-nil, append_assoc, subst, sym};
ghost use Rattle.cap_context.specs.Keepings.{IsKept};

use crate::keepings::Kept;
use cap_streams::{PullFault, Source};

/// The bytes of a source that is lent, which are kept in what is lent too.
#[derive(Drop)]
pub struct Recorder<'a, S: Source> {
    source: &'a mut S,
    kept: &'a mut Kept,
}

impl<'a, S: Source> Recorder<'a, S> {
    ghost use Rattle.cap_context.specs.Recordings.{kept_by, name_of_kept, name_of_source, source_of};

    /// What the source gives is kept.
    pub fn new(source: &'a mut S, kept: &'a mut Kept) -> Recorder<'a, S>
        ensures same_source { name_of_source result ≡ source.entry.ghost_name }
        ensures source { source_of result ≡ source.old }
        ensures same_kept { name_of_kept result ≡ kept.entry.ghost_name }
        ensures kept { kept_by result ≡ kept.old }
    {
        Recorder { source, kept }
    }
}

impl<'a, S: Source> Source for Recorder<'a, S> {
    ghost gave = { λ a b xs. (b.source.ghost_name ≡ a.source.ghost_name) × (b.kept.ghost_name ≡ a.kept.ghost_name)
        × S.gave a.source.now b.source.now xs
        × ((given : List ℕ) → IsKept a.kept.now given → IsKept b.kept.now (given ++ xs)) };

    ghost ended = { λ s. S.ended s.source.now };

    ghost faults = { λ s. S.faults s.source.now };

    ghost nothing = { λ s. (refl, refl, S.nothing s.source.now, λ given kept. subst (IsKept s.kept.now) (sym (append-nil given)) kept) };

    ghost faults_fit = { λ s. S.faults_fit s.source.now };

    ghost joined = { λ a b c xs ys h k. (
      k.0 ∙ h.0,
      k.1 ∙ h.1,
      S.joined a.source.now b.source.now c.source.now xs ys h.2 k.2,
      λ given kept. subst (IsKept c.kept.now) (append_assoc given xs ys) (k.3 (given ++ xs) (h.3 given kept)),
    ) };

    fn pull(&mut self, piece: &mut [u8]) -> Result<usize, PullFault> {
        match self.source.pull(piece) {
            Ok(count) => {
                self.kept.keep(&piece[..count]);
                Ok(count)
            }
            Err(PullFault) => Err(PullFault),
        }
    }
}
