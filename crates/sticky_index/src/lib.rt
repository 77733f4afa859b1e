#![tactic(auto)]

mod count;
pub mod index;
mod place;
mod resolve;
mod rest;
mod seat;
mod walk;
