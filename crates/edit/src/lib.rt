#![tactic(auto)]

mod aim;
pub mod create;
pub mod redo;
pub mod tombstone;
