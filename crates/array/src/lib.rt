#![tactic(auto)]

pub mod array;
