//! The machine of runs: registers, special registers and tagged memory, the steps of whole programs, and the objects that
//! own what is held.
//!
//! A [`RunMachine`] is the machine of `cap_machine` with special registers beside it, and with the objects that were
//! handed out. An object owns places: the one whose capability it was made from, and those whose capabilities descend
//! from it. At no moment does an address lie in what two capabilities of different objects reach
//! ([`RunMachine::kept`]); without [`Asks::held`], in what those of two live objects reach.
#![tactic(auto)]

mod alone_puts;
mod asked_steps;
mod asks;
mod derivations;
mod ends;
mod granule_steps;
mod harts;
mod laws;
mod lines;
mod object_steps;
mod owned;
mod puts;
mod register_steps;
mod roots;
mod run_machine;
mod specials;
mod step_lines;
mod usual_steps;

pub use crate::asks::Asks;
pub use crate::ends::{RunEnd, RunRefusal};
pub use crate::harts::place_numbered;
pub use crate::laws::{
    accesses_lie_in_roots, accesses_stay_in_owners, asking_less_allows_more,
    first_refused_is_first, held_objects_are_met_exactly, lines_are_allowed_without_objects,
    lines_are_refused_by_choice, lines_end_by_choice, lines_stay_within, objects_are_safe,
    objects_own_what_descends, owned_accesses_are_of_owners, owned_accesses_have_owners,
    places_descend_from_one_root, runs_stay_within_roots, usual_lines_mean_the_same,
};
pub use crate::run_machine::RunMachine;
pub use crate::specials::Specials;
