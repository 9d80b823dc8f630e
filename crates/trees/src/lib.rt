//! Lineage trees, as text for the documentation.
//!
//! No function has a `requires`. What Tree answers and leaves in the buffer are equations with
//! definitions of specs/Answers.antt; what the text in the buffer is, specs/Demand.antt.
#![tactic(auto)]

mod drawing; // Tree
mod lines; // a tree's text
mod walking; // a tree's nodes, by the walk of an Apply and the walk of a Choose

pub use drawing::tree;

/// What Tree has written: the nodes, which are the lines, and the text's length in bytes.
#[derive(Clone, Copy, Debug, PartialEq, Eq)]
pub struct Written {
    pub nodes: u32,
    pub length: u32,
}
