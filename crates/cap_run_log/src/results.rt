//! What an exchange records.

ghost use Rattle.std.specs.Prelude.{◌∷◌, ◌++◌, codes};
ghost use Rattle.cap_word.specs.Digits.{hex_digits};
ghost use Rattle.cap_log.specs.Lines.{IsWord, tag_spelling};

use crate::parts::{EQUALS, Tag};
use cap_log::Part;
use cap_word::{Cap, Word};

// How many bytes they have, with the byte that ends them.
const RESULTS_LENGTH: usize = 72;

/// The two results of an exchange, after one sign.
#[derive(Clone, Copy)]
pub struct Results {
    /// What the register holds then.
    pub general: Cap,
    /// What the special register holds then.
    pub special: Cap,
}

impl Part for Results {
    ghost fits = { λ results. IsWord results.general.word.0 × IsWord results.special.word.0 };

    ghost spelled = { λ results. codes "=" ++ 32 ∷ (tag_spelling results.general.tag ++ 32 ∷ (hex_digits 32 results.general.word.0
        ++ 32 ∷ (tag_spelling results.special.tag ++ 32 ∷ hex_digits 32 results.special.word.0))) };

    // How many bytes are left is tested once for all words.
    #[inline(always)]
    fn take(bytes: &[u8], end: u8) -> Option<(Results, &[u8])> {
        if bytes.len() < RESULTS_LENGTH {
            return None;
        }
        let Some((general, others)) = Cap::take(bytes, b' ') else {
            return None;
        };
        let Some(((tag, word), rest)) = <(Tag, Word)>::take(others, end) else {
            return None;
        };
        let special = Cap { tag: tag.0, word };
        let results = Results { general, special };
        Some((results, rest))
    }

    #[inline(always)]
    fn write(&self, buffer: &mut [u8], at: usize) -> usize {
        let special = (Tag(self.special.tag), self.special.word);
        let words = (
            EQUALS,
            (Tag(self.general.tag), (self.general.word, special)),
        );
        words.write(buffer, at)
    }
}
