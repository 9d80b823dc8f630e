//! Blocked. A case has the rule, and the book's length in bytes where that is not seven blocks. An
//! answer is a refusal, or open, or the user with an action and a leaf for each reference.
use crate::answers::{Answer, Refused, Text};
use crate::calls::{Call, Case};
use crate::records::Records;
use blocked::blocked;
use std::fmt;

/// What a reference has, as text; nothing for an absent one.
#[derive(Clone, Copy)]
struct Datum(u32);

impl fmt::Display for Datum {
    fn fmt<W: fmt::Write>(&self, f: &mut fmt::Formatter<W>) -> fmt::Result {
        let datum = self.0;
        let leaf = datum % 64;
        // By the numbers of `Closed`, which are the C interface's.
        match datum / 64 {
            2 => write!(f, " projection {leaf}"),
            3 => write!(f, " condition {leaf}"),
            _ if datum == 0 => Ok(()),
            _ => write!(f, " neither {datum}"),
        }
    }
}

/// The cases of Blocked.
pub struct Block;

impl Call for Block {
    type Kept = Records;

    const ROWS: bool = false;

    const LEAST: usize = 1;

    const MOST: usize = 2;

    fn answered(case: &Case<'_>, _: &mut Records) -> Answer {
        Ok(match blocked(case.book(1), case.numbers.number(0)) {
            Ok(None) => Text::of(" open"),
            Ok(Some(closed)) => {
                let user = closed.user;
                let first = Datum(closed.first);
                let second = Datum(closed.second);
                let third = Datum(closed.third);
                Text::of(format_args!(" user {user}{first}{second}{third}"))
            }
            Err(refusal) => Text::of(Refused(refusal)),
        })
    }
}
