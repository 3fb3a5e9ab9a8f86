//! Judges worked logs, of machines and of allocators, and checks worked vector files. It names each row that gets another
//! answer or text than it states.
//!
//! A line of standard input after `>` is a call: its name, its operands and its answer, with a bar between them, and `~`
//! for a line feed. A call after `>>` has more than some 10,000 steps. Lines after `:` say what the calls below them are.
//!
//! Logs and vector files are rows, with an empty line after each. The first line of a row is a mark and a name: `#` for
//! a log that is judged in each way, `-` or `*` for one that is judged in few, `+` for a vector file. Then come its
//! lines, each after a mark: `|` for one that ends with a line feed, `~` for one that ends with a carriage return before
//! it, and `!` for bytes without a line feed. After them comes the text, each line after `=`: the verdict's line, and in
//! a row with `*` also the origins after a `yes`, and the diagnosis.
#![tactic(auto)]

mod calls;
mod made;
mod refusals;
mod rows;
mod told;
mod vector_files;
mod ways;

use crate::calls::call_holds;
use crate::rows::Row;
use std::alloc::{AllocError, Global};
use std::io;

fn main(rt: HostRuntime) -> io::Result<()> {
    let text = io::read_to_string(rt.alloc(), rt.stdin())?;
    let told = checked(rt.alloc(), &text)?;
    println!(rt; "{told}")
}

// A line for each row that gets another answer or text, and how many rows there are.
fn checked(alloc: Global, text: &str) -> Result<String, AllocError> {
    let mut told = String::new(alloc);
    let mut rows = 0u32;
    let mut row = Row::new(alloc);
    for line in text.split('\n') {
        if line.starts_with('>') {
            if !call_holds(alloc, line)? {
                told = format!(in alloc; "{told}another answer: {line}\n")?;
            }
            rows = rows.saturating_add(1);
        } else if !line.is_empty() {
            row.add(line)?;
        } else if !row.is_empty() {
            if !row.holds(alloc)? {
                told = format!(in alloc; "{told}another text: {}\n", row.name())?;
            }
            rows = rows.saturating_add(1);
            row = Row::new(alloc);
        }
    }
    format!(in alloc; "{told}{rows} rows")
}
