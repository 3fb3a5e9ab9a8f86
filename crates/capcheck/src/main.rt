//! Explains capability words, rounds requests for bounds, judges logs of capability operations, and checks vector
//! files.
#![tactic(auto)]

mod checks;
mod explanations;
mod judges;
#[cfg(test)]
mod rows;
mod runs;
#[cfg(test)]
mod surface;
#[cfg(test)]
mod tests;
mod words;

pub use crate::runs::{carry_out, run};
pub use crate::words::Order;
pub use crate::words::readers::read_words;
pub use cap_judge::{
    JudgeFault, JudgeToFault, Verdict, judge, judge_bytes, judge_in, judge_origins, judge_to,
    verdict_text,
};
use cap_log::WriteSink;
pub use cap_machine::Refusal;
use cap_program::{Fault, collect_words, exit_status, tell};
pub use cap_texts::{explain_text, round_text};
pub use cap_vectors::{VectorVerdict, vector_text, vectors};
use std::alloc::AllocError;
use std::fs::File;
use std::process::ExitCode;

fn main(rt: HostRuntime) -> ExitCode {
    ExitCode::from(match answer(&rt) {
        Ok(status) => status,
        Err(AllocError) => {
            let done = Err(Fault::NoMemory);
            tell(b"capcheck: ", done, &mut WriteSink::new(&mut rt.stderr()));
            exit_status(done)
        }
    })
}

// Runs the order that the words spell, on its input.
fn answer(rt: &HostRuntime) -> Result<u8, AllocError> {
    let texts = collect_words(rt)?.unwrap_or(Vec::new(rt.alloc()));
    let mut words = Vec::new(rt.alloc());
    for text in &texts {
        words.push(text.as_str())?;
    }
    let order = read_words(words.as_slice());
    let (out, errors) = (&mut rt.stdout(), &mut rt.stderr());
    Ok(match order {
        Some(
            Order::Judge {
                file: Some(path),
                ..
            }
            | Order::Vectors { file: path },
        ) => run(rt.alloc(), order, File::open(rt, path).ok(), out, errors),
        Some(Order::Judge { file: None, .. }) => run(
            rt.alloc(),
            order,
            Some(rt.stdin()),
            out,
            errors,
        ),
        _ => run(rt.alloc(), order, None::<File>, out, errors),
    })
}
