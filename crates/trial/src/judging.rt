//! Judge. A case has the user, the book's length in bytes where that is not seven blocks, and the
//! length at which the plan is cut, where it is. An answer is a refusal, or the mask of the broken
//! rules.
use crate::answers::{Answer, Refused, Text};
use crate::calls::{Call, Case};
use crate::records::Records;
use verdicts::judge;

/// The cases of Judge.
pub struct Judge;

impl Call for Judge {
    type Kept = Records;

    const ROWS: bool = true;

    const LEAST: usize = 1;

    const MOST: usize = 3;

    fn answered(case: &Case<'_>, _: &mut Records) -> Answer {
        let judged = judge(case.book(1), case.numbers.number(0), case.plan(2));
        Ok(match judged {
            Ok(broken) => Text::of(format_args!(" broken {}", broken.mask)),
            Err(refusal) => Text::of(Refused(refusal)),
        })
    }
}
