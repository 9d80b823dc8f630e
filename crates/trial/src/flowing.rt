//! Flows. A case has the number of words where that is not 32, and the length in bytes at which the
//! plan is cut, where it is. The words are all ones before the call.
use crate::accesses::Accesses;
use crate::answers::{Answer, Malformed, Refused, Text, either};
use crate::calls::{Call, Case};
use crate::records::Records;
use crate::text::front;
use lineage::flows;

/// The cases of Flows.
pub struct Flow;

impl Call for Flow {
    type Kept = Records;

    const ROWS: bool = true;

    const LEAST: usize = 0;

    const MOST: usize = 2;

    fn answered(case: &Case<'_>, _: &mut Records) -> Answer {
        let mut words = [u64::MAX; 40];
        let Some(lent) = words.get_mut(..case.numbers.length(0, 32)) else {
            return Err(Malformed);
        };
        let flowed = flows(front(case.book, 3584), case.plan(1), lent);
        Ok(match flowed {
            Ok(()) => Text::of(Accesses(front(&words, 32))),
            Err(refusal) => {
                let same = words.iter().all(|word| *word == u64::MAX);
                let kept = either(same, "unchanged", "changed");
                Text::of(format_args!("{}, words {kept}", Refused(refusal)))
            }
        })
    }
}
