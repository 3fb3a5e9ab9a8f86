//! The word, and the capability: a word with its tag.

ghost use Rattle.std.specs.Prelude.{◌≡◌};
ghost use Rattle.cap_word.specs.Word.{null_word};

/// A capability's 128 bits in the register layout, as one number: the permissions are its highest
/// bits, the address its lowest 64 (UCAM-CL-TR-987, the section on the compressed capability format).
#[derive(Debug, Clone, Copy, PartialEq, Eq)]
pub struct Word(pub u128);

/// A capability: its word, and the tag that says whether it is valid.
#[derive(Debug, Clone, Copy, PartialEq, Eq)]
pub struct Cap {
    /// Whether it may be used as an authority.
    pub tag: bool,
    /// Its 128 bits.
    pub word: Word,
}

/// The word of NULL: no permissions, unsealed, the whole address space, address 0.
/// Memory that holds it is sixteen zero bytes.
pub fn null() -> Word
    ensures value { result.0 ≡ null_word }
{
    Word(0x0000_1fff_fc01_8004_0000_0000_0000_0000)
}
