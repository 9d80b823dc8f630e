//! Tree. A case has the row, the buffer's length where that is not 2000 bytes, the length in bytes at
//! which the plan is cut where it is, and the book's length in bytes where that is not seven blocks. An
//! answer is a refusal, or the nodes, the text's length and the text with / for each line feed: of a
//! text above 400 bytes the first 200 and the last 40. Then whether the buffer's other bytes, which are
//! 255 before the call, and 16 bytes or more after it, are kept.
use crate::answers::{Answer, Malformed, Refused, Text, either};
use crate::calls::{Call, Case};
use crate::records::Records;
use crate::text::{front, rest};
use book::Refusal;
use std::fmt;
use trees::{Written, tree};

/// A text in one line.
#[derive(Clone, Copy)]
struct Lines<'a>(&'a [u8]);

fn write_lines<W: fmt::Write>(f: &mut fmt::Formatter<W>, text: &[u8]) -> fmt::Result {
    for byte in text {
        let shown = if *byte == b'\n' { b'/' } else { *byte };
        f.write_char(char::from(shown))?;
    }
    Ok(())
}

impl fmt::Display for Lines<'_> {
    fn fmt<W: fmt::Write>(&self, f: &mut fmt::Formatter<W>) -> fmt::Result {
        let text = self.0;
        let length = text.len();
        if length <= 400 {
            return write_lines(f, text);
        }
        write_lines(f, front(text, 200))?;
        f.write_str(" .. ")?;
        write_lines(f, rest(text, length.saturating_sub(40)))
    }
}

fn kept(buffer: &[u8], start: usize) -> &'static str {
    let same = rest(buffer, start).iter().all(|byte| *byte == 255);
    either(same, " kept", " changed")
}

fn said(drawn: Result<Written, Refusal>, buffer: &[u8]) -> Text {
    match drawn {
        Err(refusal) => {
            let kept = kept(buffer, 0);
            Text::of(format_args!("{}{kept}", Refused(refusal)))
        }
        Ok(Written { nodes, length }) => {
            // `as`: `usize` has no `From<u32>`
            let length = length as usize;
            let lines = Lines(front(buffer, length));
            let kept = kept(buffer, length);
            Text::of(format_args!(" nodes {nodes} bytes {length}: {lines}{kept}"))
        }
    }
}

/// The cases of Tree.
pub struct Draw;

impl Call for Draw {
    type Kept = Records;

    const ROWS: bool = true;

    const LEAST: usize = 1;

    const MOST: usize = 4;

    fn answered(case: &Case<'_>, _: &mut Records) -> Answer {
        let length = case.numbers.length(1, 2000);
        if 130_000 < length {
            return Err(Malformed);
        }
        // fixed memory: a program can't run out of it
        let mut buffer = [255; 130_016];
        let Some(lent) = buffer.get_mut(..length) else {
            return Err(Malformed);
        };
        let drawn = tree(case.book(3), case.plan(2), case.numbers.number(0), lent);
        Ok(said(drawn, &buffer))
    }
}
