#![tactic(auto)]

pub mod call;
pub mod fault;
pub mod ids;
pub mod kind;
pub mod number;
pub mod slot;
