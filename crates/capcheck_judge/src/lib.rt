//! The judge for C: judges a log through `include/capcheck_judge.h`.
//!
//! Each export calls the judge of the crate below and has its clauses, in terms of the numbers that C gets. Every
//! number is in an export's range. Memory comes from the functions of `judge/heap.c`, when a judge is opened and
//! when a line names a granule for the first time. A call that keeps no judge open keeps none of it.
#![tactic(auto)]

// Takes the judge of a handle out, asks it, and puts it in again: what is answered then, or else what a call answers if the
// handle holds none.
macro_rules! ask {
    ($judge:ident, $alloc:ident, |$held:ident| $told:ident = $asked:expr, $answer:expr, else $none:expr) => {
        match $judge.take($alloc) {
            Some(mut $held) => {
                let $told = $asked;
                $judge.put($held);
                $answer
            }
            None => $none,
        }
    };
}

// What a call answers that hands over a line: whether a judge took it, and if so whether a line so far is faulty.
macro_rules! state {
    ($taken:expr, $faulty:expr) => {
        match $taken {
            Ok(()) => match $faulty {
                None => GOES_ON,
                Some(_) => NO,
            },
            Err(TakeFault::NoMemory) => NO_MEMORY,
            Err(TakeFault::NoLine) => NO_LINE,
        }
    };
}

// Writes a text into the room that C lends, and answers its length.
macro_rules! text {
    ($room:ident, |$sink:ident| $pushed:expr) => {{
        let mut $sink = TextSink::new($room);
        match $pushed {
            Ok(()) => $sink.length(),
            Err(PushFault) => 0,
        }
    }};
}

// What is done with a step of version 2, whatever its kind.
macro_rules! by_kind {
    ($any:expr, $step:ident => $done:expr) => {
        match $any {
            Step::Move($step) => $done,
            Step::ClearTag($step) => $done,
            Step::SetBounds($step) => $done,
            Step::SetBoundsExact($step) => $done,
            Step::SetAddr($step) => $done,
            Step::AndPerm($step) => $done,
            Step::Seal($step) => $done,
            Step::Unseal($step) => $done,
            Step::LoadCap($step) => $done,
            Step::StoreCap($step) => $done,
            Step::Load($step) => $done,
            Step::Store($step) => $done,
        }
    };
}

mod answers;
mod handle;
mod heaps;
mod held;
mod judges;
mod lines;
mod places;
mod reports;
mod run_answers;
mod run_handle;
mod run_lines;
mod run_places;
mod run_reports;
mod run_steps;
mod steps;
