#![tactic(auto)]

pub mod mark;
mod pile;
