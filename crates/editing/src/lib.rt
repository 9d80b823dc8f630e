//! Editing a book with a mask of its idle rules beside it: a rule arrives at the end or leaves by its
//! number, and only the marks that can have changed are asked for again.
//!
//! No function has a `requires`. What the two calls reply, and what they leave in the blocks, the number
//! of rules and the mask, are equations with definitions of specs/Answers.antt; what the marks mean, and
//! what holds after every list of edits, is specs/Demand.antt.
#![tactic(auto)]

pub mod edits; // Arrive and Depart
pub mod laying; // bytes laid one behind the other
pub mod marking; // which rules are idle

pub use edits::{arrive, depart};
