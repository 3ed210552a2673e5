//! Lines of hexadecimal digits: how an input is cut into lines, how a line is read as a frame, and how an answer is written.
#![tactic(auto)]

pub mod answer;
mod digits;
pub mod frame;
pub mod hex;
pub mod letter;
pub mod lines;
mod open;
pub mod opening;
pub mod respond;
pub mod responder;
pub mod serve;
mod session;
#[cfg(test)]
mod tests;
