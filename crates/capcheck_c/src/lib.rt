//! The C library: words, requests for bounds, operations, accesses and the lines of a log, called through
//! `include/capcheck.h`.
//!
//! Each export converts C's arguments to the types of the crates below, calls the function that it stands for, and
//! has that function's clauses, in terms of the halves of a word. Every number is in an export's range: what the
//! call below doesn't accept, the export refuses in its answer. Nothing here allocates or keeps a pointer.
#![tactic(auto)]

mod accesses;
mod clear_mode;
mod decoding;
mod explanations;
mod header_lines;
mod names;
mod operations;
mod read_lines;
mod read_run_lines;
mod requests;
mod run_lines;
mod step_lines;
mod values;
mod words;
