#![tactic(auto)]

pub mod fill;
pub mod serve;
