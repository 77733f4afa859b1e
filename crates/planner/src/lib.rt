#![tactic(auto)]

pub mod planner;
