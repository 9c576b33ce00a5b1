//! A base that is kept on the disk: what it does for each request, over its store.
//!
//! `specs/Base.antt` says what contracts see of it, and which states of the machine it stands for.
#![tactic(auto)]

mod base;
mod blocks;
mod commands;
mod commits;
mod contents;
mod engine_base;
mod handles;
pub mod laws;
mod opening;
mod questions;
mod sessions;
mod stepping;

pub use base::Base;
