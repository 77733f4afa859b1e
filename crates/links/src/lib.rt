#![tactic(auto)]

pub mod agree;
pub mod holders;
pub mod lengths;
mod walks;
