// Small documents to try things on.
#![tactic(auto)]

mod records;
#[cfg(test)]
mod tests;
