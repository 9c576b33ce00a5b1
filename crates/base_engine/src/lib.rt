//! The machine of a base: its state, and what each request replies and changes.
//!
//! `specs/State.antt` says what a state is, `specs/Refusals.antt` when a request is refused, and `specs/Steps.antt` what one does that
//! isn't. The laws of `laws` are proved of them, and `Engine` has the contracts of a base's calls.
#![tactic(auto)]

mod engine;
mod faults;
pub mod laws;

pub use engine::{CommitFault, EndFault, Engine};
