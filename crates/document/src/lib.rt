#![tactic(auto)]

pub mod document;
pub mod examine;
mod fill;
pub mod find;
mod show;
mod slots;
mod text;
