//! Arrive and Depart. An arrival has the block of the book that arrives, and its length where that is not
//! 512; a departure has the rule. It finds the record as the case before it left it. An answer is a refusal
//! and whether all of the record is kept; or what is replied, the number of rules and the mask that stand
//! beside the blocks, and the blocks up to the last that is not zero: each by the number of the lowest block
//! of the book with the same bytes, a question mark where there is none.
use crate::answers::{Answer, Malformed, Refused, Text, either};
use crate::blocks::Record;
use crate::calls::{Call, Case, Line, Table};
use crate::text::{cut, front, rest};
use book::Refusal;
use editing::{arrive, depart};
use std::fmt;

/// The blocks of a record as text.
#[derive(Clone, Copy)]
struct Laid<'a> {
    blocks: &'a [u8],
    book: &'a [u8],
}

impl fmt::Display for Laid<'_> {
    fn fmt<W: fmt::Write>(&self, f: &mut fmt::Formatter<W>) -> fmt::Result {
        let (blocks, _) = self.blocks.as_chunks::<512>();
        let (book, _) = self.book.as_chunks::<512>();
        let laid = blocks
            .iter()
            .rev()
            .skip_while(|block| **block == [0; 512])
            .count();
        for block in blocks.iter().take(laid) {
            match book.iter().position(|other| *other == *block) {
                Some(number) => write!(f, " {number}")?,
                None => f.write_str(" ?")?,
            }
        }
        Ok(())
    }
}

fn said(case: &Case<'_>, edited: Result<u32, Refusal>, first: &Record, record: &Record) -> Text {
    match edited {
        Ok(mask) => {
            let rules = record.rules;
            let marks = record.marks;
            let laid = Laid {
                blocks: &record.blocks,
                book: case.book,
            };
            Text::of(format_args!(" replied {mask}, rules {rules}, marks {marks}, blocks{laid}"))
        }
        Err(refusal) => {
            let kept = either(first == record, "all kept", "not all kept");
            Text::of(format_args!("{}, {kept}", Refused(refusal)))
        }
    }
}

struct Arrive;

impl Call for Arrive {
    type Kept = Record;

    const ROWS: bool = false;

    const LEAST: usize = 1;

    const MOST: usize = 2;

    fn answered(case: &Case<'_>, record: &mut Record) -> Answer {
        let length = case.numbers.length(1, 512);
        let block = front(rest(case.book, 512 * case.numbers.length(0, 0)), length);
        if block.len() != length {
            return Err(Malformed);
        }
        let first = *record;
        let edited = arrive(
            &mut record.blocks,
            &mut record.rules,
            &mut record.marks,
            block,
        );
        Ok(said(case, edited, &first, record))
    }
}

struct Depart;

impl Call for Depart {
    type Kept = Record;

    const ROWS: bool = false;

    const LEAST: usize = 1;

    const MOST: usize = 1;

    fn answered(case: &Case<'_>, record: &mut Record) -> Answer {
        let rule = case.numbers.number(0);
        let first = *record;
        let edited = depart(
            &mut record.blocks,
            &mut record.rules,
            &mut record.marks,
            rule,
        );
        Ok(said(case, edited, &first, record))
    }
}

/// Each case names its own call, that is the part before all others.
pub struct Edit;

impl Table for Edit {
    type Kept = Record;

    fn tried(line: &Line<'_>, record: &mut Record) -> Answer {
        let (name, parts) = cut(line.parts, b'|');
        let line = Line { parts, ..*line };
        // By name, as the cases are data: what the program takes may not change.
        match name {
            b" arrive " => Arrive::tried(&line, record),
            b" depart " => Depart::tried(&line, record),
            _ => Err(Malformed),
        }
    }
}
