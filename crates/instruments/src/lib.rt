//! Instruments that a discount curve is stripped from: what every kind owes, swaps and bonds, and the refusals of a book.
#![tactic(auto)]

pub mod bond;
pub mod class;
pub mod kind;
pub mod level;
pub mod limits;
pub mod refusal;
pub mod swap;
#[cfg(test)]
mod tests;
