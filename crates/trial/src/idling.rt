//! Idle. A case has the rule, the book's length in bytes where that is not seven blocks, and the
//! buffer's length and the byte that fills it (0 or 255) where those are not 36 and 255. An answer is a
//! refusal, or idle, or the user and the plan with the mask that Judge gives for both; then whether
//! the buffer's other bytes, and 16 bytes or more after it, are kept.
use crate::answers::{Answer, Malformed, Refused, Text, either};
use crate::calls::{Call, Case};
use crate::records::Records;
use crate::text::{front, rest};
use search::{Shown, idle};
use std::fmt;
use verdicts::judge;

/// A plan as text: a space and eight hexadecimal digits a row.
// policyreport prints the same, and no plainer in one: it would have to stand in a crate of the engine.
#[derive(Clone, Copy)]
struct Rows<'a>(&'a [u8]);

impl fmt::Display for Rows<'_> {
    fn fmt<W: fmt::Write>(&self, f: &mut fmt::Formatter<W>) -> fmt::Result {
        let (rows, _) = self.0.as_chunks::<4>();
        for row in rows {
            write!(f, " {:08x}", u32::from_be_bytes(*row))?;
        }
        Ok(())
    }
}

fn needed(case: &Case<'_>, user: u32, plan: &[u8], kept: &str) -> Text {
    let rows = Rows(plan);
    match judge(case.book(1), user, plan) {
        Ok(broken) => {
            let mask = broken.mask;
            Text::of(format_args!(" user {user} plan{rows} judged {mask}{kept}"))
        }
        Err(_) => Text::of(format_args!(" user {user} plan{rows} judged refused{kept}")),
    }
}

/// The cases of Idle.
pub struct Idle;

impl Call for Idle {
    type Kept = Records;

    const ROWS: bool = false;

    const LEAST: usize = 1;

    const MOST: usize = 4;

    fn answered(case: &Case<'_>, _: &mut Records) -> Answer {
        let [fill, ..] = case.numbers.or(3, 255).to_le_bytes();
        let mut buffer = [fill; 80];
        let Some(lent) = buffer.get_mut(..case.numbers.length(2, 36)) else {
            return Err(Malformed);
        };
        let found = idle(case.book(1), case.numbers.number(0), lent);
        let length = match found {
            // `as`: `usize` has no `From<u32>`
            Ok(Some(Shown { rows, .. })) => 4 * (rows as usize),
            _ => 0,
        };
        let same = rest(&buffer, length).iter().all(|byte| *byte == fill);
        let kept = either(same, " kept", " changed");
        Ok(match found {
            Ok(None) => Text::of(format_args!(" idle{kept}")),
            Ok(Some(shown)) => needed(case, shown.user, front(&buffer, length), kept),
            Err(refusal) => Text::of(format_args!("{}{kept}", Refused(refusal))),
        })
    }
}
