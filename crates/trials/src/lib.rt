//! Trials of the book: a third kind of instrument, made only for them, and tests.
#![tactic(auto)]

#[cfg(test)]
mod figures;
#[cfg(test)]
mod follow;
pub mod loan;
#[cfg(test)]
mod places;
#[cfg(test)]
mod refusals;
