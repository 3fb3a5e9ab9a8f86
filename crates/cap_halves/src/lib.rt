//! Words, capabilities, places and lines as C passes them: 128-bit numbers as two halves, tags as bytes, and a line as its
//! kind and its numbers; and the steps that C's numbers name. `capcheck_c` and `capcheck_judge` use it.
#![tactic(auto)]

pub mod halves;
pub mod kinds;
pub mod line_steps;
pub mod places;
pub mod run_steps;
pub mod values;
