//! Culprits. A case has the rule, and the book's length in bytes where that is not seven blocks. An
//! answer is a refusal, or unblocked, or the other rules.
use crate::answers::{Answer, Refused, Text};
use crate::calls::{Call, Case};
use crate::records::Records;
use blocked::culprits;
use std::fmt;

/// The rules of a mask as text.
#[derive(Clone, Copy)]
struct Rules(u32);

impl fmt::Display for Rules {
    fn fmt<W: fmt::Write>(&self, f: &mut fmt::Formatter<W>) -> fmt::Result {
        if self.0 == 0 {
            return f.write_str(" none");
        }
        // the bits of a word are by number
        for rule in 0..32u32 {
            if self.0 >> rule & 1 == 1 {
                write!(f, " {rule}")?;
            }
        }
        Ok(())
    }
}

/// The cases of Culprits.
pub struct Culprits;

impl Call for Culprits {
    type Kept = Records;

    const ROWS: bool = false;

    const LEAST: usize = 1;

    const MOST: usize = 2;

    fn answered(case: &Case<'_>, _: &mut Records) -> Answer {
        Ok(match culprits(case.book(1), case.numbers.number(0)) {
            Ok(None) => Text::of(" unblocked"),
            Ok(Some(mask)) => Text::of(format_args!(" others{}", Rules(mask))),
            Err(refusal) => Text::of(Refused(refusal)),
        })
    }
}
