//! The book: quotations of one kind in places that the caller lends, yearly cash flows, and the calls on them.
#![tactic(auto)]

pub mod call;
pub mod flow;
pub mod running;
mod settled;
mod table;
pub mod volume;
