#![tactic(auto)]

pub mod join;
