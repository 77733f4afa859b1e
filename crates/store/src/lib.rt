#![tactic(auto)]

pub mod clocks;
pub mod kinds;
pub mod ranges;
pub mod records;
pub mod refusal;
pub mod tables;
