//! The judge for C without a heap: judges a log in memory, in slots that the caller lends, through
//! `include/capcheck_freestanding.h`.
//!
//! Each export calls the judge of the crates below and has its clauses, in terms of the numbers that C gets. Every
//! number is in an export's range. Nothing allocates: each granule that a log names takes one of the slots.
#![tactic(auto)]

mod explanations;
mod judges;
