//! The book of a policy: which byte strings are accepted as one, and why any other is not; the seal
//! of a block; and what the crates above read in an accepted book.
//!
//! No function has a `requires`, but a generic one that its closure may be called: a slice may have
//! any length and any bytes, a number any value. What the calls answer is an equation with a
//! definition of specs/Answers.antt.
#![tactic(auto)]

pub mod books; // an accepted book
pub mod bytes; // bytes of a slice at any index
pub mod categories; // the two hierarchies: descendants, leaves, support
pub mod checking; // Book check
pub mod fields; // the fields of the head blocks and of a rule block
pub mod head_tests; // the tests of the head blocks
pub mod refusal; // why something is refused
pub mod rule_tests; // the tests of a rule block
pub mod rules; // the leaf set of a reference, the users of a rule
pub mod sealing; // the check of a block, and Seal
pub mod sets; // sets of small numbers as words
pub mod testing; // tests and their outcome
pub mod words; // the words of a head, filled once a call

pub use books::Book;
pub use checking::check;
pub use refusal::Refusal;
pub use sealing::seal;

/// The two hierarchies of a book: blocks 0 and 1.
#[derive(Clone, Copy, Debug, PartialEq, Eq)]
pub enum Hierarchy {
    Users,
    Data,
}

/// The actions of source document 001: access is the parent of projection and condition.
#[derive(Clone, Copy, Debug, PartialEq, Eq)]
pub enum Action {
    Projection,
    Condition,
    Access,
}
