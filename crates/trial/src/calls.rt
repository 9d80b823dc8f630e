//! What the cases of a file try: a call on a book and a plan, or one that each case names.
use crate::answers::{Answer, Malformed};
use crate::books::build;
use crate::numbers;
use crate::numbers::Numbers;
use crate::plans::plan_of;
use crate::text::{cut, front};

/// What a case finds as the one before it left it, and a line that starts with @ sets.
pub trait Kept: Drop {
    fn fresh() -> Self;

    /// Sets all of it; false where the text is malformed. A book has the common edits.
    fn set(&mut self, common: &[u8], text: &[u8]) -> bool;
}

/// A line of a file: the edits that all books have, and what stands behind the label.
#[derive(Clone, Copy)]
pub struct Line<'a> {
    pub common: &'a [u8],
    pub parts: &'a [u8],
}

/// What a call is tried on.
#[derive(Clone, Copy)]
pub struct Case<'a> {
    pub numbers: Numbers,
    pub book: &'a [u8],
    pub plan: &'a [u8],
}

impl Case<'_> {
    /// The book, cut at the length that number i gives, or after seven blocks.
    pub fn book(&self, i: usize) -> &[u8] {
        front(self.book, self.numbers.length(i, 3584))
    }

    /// The plan, cut at the length that number i gives, or after 257 rows.
    pub fn plan(&self, i: usize) -> &[u8] {
        front(self.plan, self.numbers.length(i, 1028))
    }
}

/// A file's cases, tried one by one.
pub trait Table {
    type Kept: Kept;

    fn tried(line: &Line<'_>, kept: &mut Self::Kept) -> Answer;
}

/// A call on a book, and on a plan if its rows stand before the edits.
pub trait Call {
    type Kept: Kept;

    const ROWS: bool;

    /// The least numbers of a case, and the most.
    const LEAST: usize;

    const MOST: usize;

    fn answered(case: &Case<'_>, kept: &mut Self::Kept) -> Answer;
}

impl<C: Call> Table for C {
    type Kept = C::Kept;

    // What is malformed is tried too: the cases that follow find what it leaves.
    fn tried(line: &Line<'_>, kept: &mut Self::Kept) -> Answer {
        let (numbers, texts) = cut(line.parts, b'|');
        let Some(numbers) = numbers::read(numbers) else {
            return Err(Malformed);
        };
        if !numbers.within(C::LEAST, C::MOST) {
            return Err(Malformed);
        }
        let (rows, edits) = if C::ROWS {
            cut(texts, b'|')
        } else {
            (b"".as_slice(), texts)
        };
        let (blocks, sound) = build(line.common, edits);
        let plan = plan_of(rows);
        let case = Case {
            numbers,
            book: blocks.as_flattened(),
            plan: plan.rows.as_slice().as_flattened(),
        };
        let answer = C::answered(&case, kept)?;
        if sound && plan.sound {
            Ok(answer)
        } else {
            Err(Malformed)
        }
    }
}
