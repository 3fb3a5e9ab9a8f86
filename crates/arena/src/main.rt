//! What an allocator asks before it hands out 100,000 bytes.
#![tactic(auto)]

use cap_bounds::{align_mask, least_law, reach, round_length, sound};
use cap_word::Word;
use std::io;

fn main(rt: HostRuntime) -> io::Result<()> {
    let (base, length) = (0x1_0040, 100_000);
    println!(rt;
        "{} bytes from {:#x} on",
        round_length(length),
        base & align_mask(length)
    )?;

    let word = Word(0xffff1ffffbffd0000000000000001000);
    if sound(word) {
        println!(rt;
            "0xfff bytes at 0x1000 lie inside: {}",
            least_law(word, 0x1000, 0xfff)
        )?;
    }
    match reach(word) {
        Some((start, size)) => println!(rt; "a pointer may go {size:#x} bytes from {start:#x} on"),
        None => println!(rt; "a pointer may go anywhere"),
    }
}
