//! The words after the program's name.

pub mod operands;
pub mod readers;

/// What the program was asked to do.
#[derive(Debug, Clone, Copy, PartialEq, Eq)]
pub enum Order<'a> {
    /// `explain [--memory] [--tag] HEX`: explain a capability.
    Explain {
        /// Whether the digits are those of the word's bytes in memory.
        memory: bool,
        /// Whether the capability has its tag.
        tag: bool,
        /// The digits, a word that does not begin with `-`.
        hex: &'a str,
    },
    /// `round BASE LENGTH`: show the rounding of a request for bounds.
    Round {
        /// The base, a word that does not begin with `-`.
        base: &'a str,
        /// The length, a word that does not begin with `-`.
        length: &'a str,
    },
    /// `judge [--origins] [FILE]`: judge the file, or standard input if no file is named.
    Judge {
        /// Whether the root of each capability in the last state is asked for.
        origins: bool,
        /// The file's name, which does not begin with `-`.
        file: Option<&'a str>,
    },
    /// `vectors FILE`: check a vector file.
    Vectors {
        /// The file's name, which does not begin with `-`.
        file: &'a str,
    },
}
