//! What passes between C and the libraries for C: numbers of 128 bits, capabilities, and places.

/// A number of 128 bits as its two halves: a word in the register layout, or a number of more than 64
/// bits (in C `capcheck_word` and `capcheck_wide`).
#[repr(C)]
#[derive(Clone, Copy)]
pub struct Halves {
    /// Bits 127 to 64.
    pub high: u64,
    /// Bits 63 to 0.
    pub low: u64,
}

/// A capability (in C `capcheck_cap`).
#[repr(C)]
#[derive(Clone, Copy)]
pub struct Capability {
    /// Its word.
    pub word: Halves,
    /// Its tag: any number but 0 is one, and 1 in results.
    pub tag: u8,
}

/// A place of a machine, or none (in C `capcheck_place`).
#[repr(C)]
#[derive(Clone, Copy)]
pub struct PassedPlace {
    /// The number of a register, or an address in a granule; in a result the granule's first address, and 0 if
    /// there is no place.
    pub number: u64,
    /// 1 for a general-purpose register, 2 for a granule, 3 for a special register, and 0 if there is none.
    pub kind: u8,
}

/// A line (in C `capcheck_line`).
#[repr(C)]
#[derive(Clone, Copy)]
pub struct PassedLine {
    /// What a step records, or the word of a root with a tag; else NULL without a tag.
    pub cap: Capability,
    /// The version, 1 for clear mode, the address of a root in memory, a length, an address, a mask, a value, or the
    /// number of steps; else 0.
    pub number: u64,
    /// How many bytes the line has with its line feed; 0 if there is none.
    pub length: usize,
    /// The offset of an access, else 0.
    pub offset: i16,
    /// The kind of the line, one of [`crate::kinds`]; 0 if there is none.
    pub kind: u8,
    /// The register that a step writes or that holds a root, else 0.
    pub target: u8,
    /// The register that a step reads first, else 0.
    pub source: u8,
    /// The register of an authority, else 0.
    pub authority: u8,
    /// The size of a load or a store of data, else 0.
    pub size: u8,
}

/// A line of a run log (in C `capcheck_run_line`).
#[repr(C)]
#[derive(Clone, Copy)]
pub struct PassedRunLine {
    /// The line as [`PassedLine`] has it. The register of an `object` or a `free` is its source.
    pub line: PassedLine,
    /// What an exchange records of the special register, or the datum's word of an invoke with a tag; else NULL without
    /// a tag.
    pub second: Capability,
    /// The place that a derive, a drop or a root names first, else none.
    pub target: PassedPlace,
    /// The register that a derive reads, else none.
    pub source: PassedPlace,
}
