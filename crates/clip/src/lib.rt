#![tactic(auto)]

pub mod answers;
pub mod clip;
pub mod count;
pub mod join;
pub mod limit;
pub mod made;
pub mod pair;
pub mod pairs;
#[cfg(test)]
mod tests;
pub mod walk;
