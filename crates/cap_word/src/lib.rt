//! The 128-bit capability word of CHERI Concentrate with 64-bit addresses: its fields, its layout in memory and its
//! text.
//!
//! A capability is a [`Word`] and a tag, which isn't part of the word. Nothing here allocates.
#![tactic(auto)]

mod digits;
mod fields;
mod layout;
mod memory;
mod text;
mod word;

pub use crate::digits::number_text;
pub use crate::fields::Fields;
pub use crate::layout::{join, split};
pub use crate::memory::{from_memory, to_memory};
pub use crate::text::{read_u64, read_word, take_bytes, word_text};
pub use crate::word::{Cap, Word, null};
