//! The machine that a log is judged by: registers, tagged memory, and the steps on them.
//!
//! A [`Machine`] takes roots by `declare` and steps by `step`, over any store of granules. Each does what its
//! definition says, or is refused with its first failed check, and then nothing has changed. Every tagged word that
//! a machine holds is sound. It allocates only when a granule is named for the first time. Beside each capability
//! it keeps its origin: the place of the root that it descends from. `shown` tells what a step shows of the state
//! before it, for reports. Each kind of step is an [`Instruction`]. The laws [`steps_stay_within`],
//! [`bounds_are_cleared_exactly`], [`runs_clear_exactly`], [`authority_never_grows`], [`accesses_lie_inside`],
//! [`runs_end_in_accounts`], [`origins_follow_descent`] and [`origins_are_roots`] are about single steps and whole
//! runs.
#![tactic(auto)]

mod by_kind;
mod ends;
mod instructions;
mod laws;
mod limits;
mod machine;
mod recorded;
mod registers;
mod rules;
mod shown;

pub use crate::by_kind::{ByKind, MOST_BYTES, ROOM_AFTER_HEAD, by_head};
pub use crate::ends::StepEnd;
pub use crate::instructions::{
    Derivation, Instruction, Making, OfKind, Operation, OperationParts, WithStep, by_step,
};
pub use crate::laws::{
    accesses_lie_inside, authority_never_grows, bounds_are_cleared_exactly, origins_are_roots,
    origins_follow_descent, runs_clear_exactly, runs_end_in_accounts, steps_stay_within,
};
pub use crate::limits::Limits;
pub use crate::machine::{MOST_STEPS, Machine};
pub use crate::recorded::{Derived, Glanced, glance};
pub use crate::registers::Registers;
pub use crate::rules::{MOST_ROOTS, Rules};
pub use crate::shown::{Given, Reached, Request, Shown};
pub use cap_ops::Refusal;
