//! What an analyst has already seen, and what is held for him: a plan is asked for together with all that
//! its user was shown or may still be shown, and then committed or dropped.
//!
//! No function has a `requires`. What the three calls reply, and what they leave in the ledger, the tally
//! and the hold record, are equations with definitions of specs/Answers.antt; what holds after every list
//! of calls is specs/Demand.antt, and what two lists that are alike for a user give him is
//! specs/Alike.antt.
#![tactic(auto)]

pub mod asking; // Ask
pub mod counts; // the counts of a user
pub mod places; // the places of the hold record
pub mod settling; // Commit and Drop
pub mod words; // the words of a user

pub use asking::ask;
pub use settling::{commit, drop_hold};

/// How many plans were admitted, declined and dropped, for each user number.
// Three arrays side by side and no record for each user: the layout is the C interface's.
#[repr(C)]
#[derive(Clone, Copy)]
pub struct Tally {
    pub admitted: [u32; 32],
    pub declined: [u32; 32],
    pub dropped: [u32; 32],
}

/// Eight places, each with a user, the number of his hold and 32 words. A place is empty when its number
/// is 0.
// Three arrays side by side and no record for each place: the layout is the C interface's.
#[repr(C)]
#[derive(Clone, Copy)]
pub struct Holds {
    pub users: [u32; 8],
    pub numbers: [u32; 8],
    pub words: [u64; 256],
}

/// What an ask replies that nothing refuses: one that is held the number, one that is declined the mask
/// of the rules that its plan breaks together with its user's words and held plans.
#[derive(Clone, Copy, Debug, PartialEq, Eq)]
pub enum Asked {
    Held(u32),
    Declined(u32),
}
