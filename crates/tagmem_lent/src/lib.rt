//! Tagged memory in lent slots: a `TaggedStore` of `tagmem` that never allocates.
#![tactic(auto)]

mod lent_store;

pub use crate::lent_store::{LentStore, Slot};
