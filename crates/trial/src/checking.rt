//! Book check. A case has the book's length in bytes where that is not seven blocks.
use crate::answers::{Answer, Refused, Text};
use crate::calls::{Call, Case};
use crate::records::Records;
use book::check;

/// The cases of Book check.
pub struct Check;

impl Call for Check {
    type Kept = Records;

    const ROWS: bool = false;

    const LEAST: usize = 0;

    const MOST: usize = 1;

    fn answered(case: &Case<'_>, _: &mut Records) -> Answer {
        Ok(match check(case.book(0)) {
            Ok(rules) => Text::of(format_args!(" accepted {rules}")),
            Err(refusal) => Text::of(Refused(refusal)),
        })
    }
}
