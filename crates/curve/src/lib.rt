//! A discount curve as two figures for each year: stripped from quotations, blended towards the ultimate forward rate, and asked.
#![tactic(auto)]

pub mod blend;
pub mod discount;
pub mod figures;
mod gap;
mod questions;
mod rates;
mod reserve;
mod search;
pub mod settle;
pub mod side;
mod step;
pub mod strip;
pub mod tables;
pub mod terms;
