#![tactic(auto)]

pub mod block_iter;
mod position;
pub mod replay;
