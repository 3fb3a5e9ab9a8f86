//! The operations on capabilities: each makes a capability from others, or refuses with the first check that fails.
//! A tagged result of a sound source is sound, has bounds inside the source's, and has no permission that the
//! source lacks. Nothing here allocates.
#![tactic(auto)]

mod access;
mod accesses;
mod addresses;
mod bits;
mod clear_mode;
mod derived_words;
mod faults;
mod kinds;
mod narrowing;
mod permissions;
mod recent;
mod refusal;
mod refusal_names;
mod roots;
mod sealing;

pub use crate::access::Access;
pub use crate::accesses::{loaded, may_access, may_access_soundly};
pub use crate::addresses::set_addr;
pub use crate::bits::{
    GLOBAL, PERMIT_LOAD, PERMIT_SEAL, PERMIT_STORE, PERMIT_STORE_CAPABILITY,
    PERMIT_STORE_LOCAL_CAPABILITY, PERMIT_UNSEAL,
};
pub use crate::clear_mode::{
    and_perm_clear, seal_clear, set_addr_clear, set_bounds_clear, unseal_clear,
};
pub use crate::derived_words::{DeriveFault, InvokeFault, SENTRY_TYPE, derive_fault, invoke_fault};
pub use crate::faults::OpFault;
pub use crate::kinds::Kind;
pub use crate::narrowing::{set_bounds, set_bounds_soundly};
pub use crate::permissions::{and_perm, clear_tag, perm_view};
pub use crate::recent::RecentAuthority;
pub use crate::refusal::Refusal;
pub use crate::refusal_names::{refusal_name_at, refusal_sentence_at};
pub use crate::roots::root_word;
pub use crate::sealing::{GREATEST_TYPE, UNSEALED_TYPE, seal, sealed, unseal};
