//! What the crates above read in a book. A case has the reader's number, what it asks for, the block
//! of the rule, and the book's length where that is not seven blocks. A set is written as its word:
//! the sum of 2 to the power i over its members i.
use crate::answers::{Answer, Malformed, Text};
use crate::calls::{Call, Case};
use crate::records::Records;
use crate::text::{front, rest};
use book::categories::support;
use book::rules::{covered_users, leaf_set};
use book::words::Words;

/// The cases of the readers.
pub struct Reader;

impl Call for Reader {
    type Kept = Records;

    const ROWS: bool = false;

    const LEAST: usize = 1;

    const MOST: usize = 4;

    fn answered(case: &Case<'_>, _: &mut Records) -> Answer {
        let book = case.book(3);
        let head = front(book, 2048);
        let rule = front(rest(book, 512 * case.numbers.length(2, 0)), 512);
        let asked = case.numbers.number(1);
        let [i, ..] = asked.to_le_bytes();
        let words = Words::of(head);
        // By number, as the cases name the readers: what the program takes may not change.
        let read = match case.numbers.number(0) {
            1 => words.users.leaves,
            2 => words.categories.leaves,
            3 => support(head, i),
            4 => words.supporters()[usize::from(i % 16)],
            5 => covered_users(&words, rule),
            6 => leaf_set(&words, rule, i),
            _ => return Err(Malformed),
        };
        Ok(Text::of(format_args!(" {read}")))
    }
}
