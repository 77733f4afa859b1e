#![tactic(auto)]

pub mod client_source;
pub mod collect;
mod edge;
pub mod list_source;
pub mod range;
pub mod run;
pub mod slice;
pub mod slices;
pub mod source;
pub mod state;
mod unit;
pub mod values;
