//! Tagged memory: stores of granules, each granule with a tag and sixteen bytes.
#![tactic(auto)]

mod block;
mod directory;
mod list_store;
mod order;
mod overwrites;
mod page_store;
mod region;
mod room;
mod store;
mod trees;

pub use crate::list_store::ListStore;
pub use crate::overwrites::overwrite;
pub use crate::page_store::PageStore;
pub use crate::store::{NoMemory, TaggedStore};
