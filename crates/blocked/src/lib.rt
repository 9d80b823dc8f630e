//! Data that no operation can open: rules of which some user and association stay closed.
//!
//! No function has a `requires`. What Blocked and Culprits answer is an equation with a definition of
//! specs/Answers.antt; what it means is specs/Demand.antt and specs/Minimal.antt.
#![tactic(auto)]

pub mod calls; // Blocked and Culprits
pub mod cells; // places of one action and leaf
pub mod dropping; // the few rules that close three cells
pub mod pairs; // pairs of operations beside one place
pub mod rows; // the third cells that stay closed beside two others
pub mod searching; // the first closed cell of a row, for one set of rules
pub mod tables; // what a search reads
pub mod users; // the first user

pub use calls::{blocked, culprits};

// Numbers, and 0 for none: the packed answer of the C interface has them so.
/// A user and an association that stay closed: for each reference 128 + 64 × action + leaf, 0 for an
/// absent one.
#[derive(Clone, Copy, Debug, PartialEq, Eq)]
pub struct Closed {
    pub user: u32,
    pub first: u32,
    pub second: u32,
    pub third: u32,
}
