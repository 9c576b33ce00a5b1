//! The replies to a script's commands, and their texts.
#![tactic(auto)]

mod ack;
pub mod laws;
mod reply;
mod size;
mod table_line;
mod text;

pub use ack::ack_bytes;
pub use reply::{Refusal, Reply};
pub use table_line::{TableLine, TableLines};
pub use text::reply_bytes;

#[cfg(test)]
mod tests;
