// Text by RFC 3629: what a character is, how many a text has, and where each one lies.
#![tactic(auto)]

mod byte_range;
pub mod character;
pub mod first_byte;
mod planes;
#[cfg(test)]
mod tests;
pub mod text;
