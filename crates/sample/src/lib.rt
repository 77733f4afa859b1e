#![tactic(auto)]

pub mod sample;
#[cfg(test)]
mod tests;
