//! A record to edit, that is kept from case to case.
//!
//! It is set by text: the number of rules, the mask, and how many blocks are laid at the front where that
//! is not 4 more than the rules; then, after a bar, edits of the book from which these are taken, with zeros
//! behind them; and after another one edits of the record itself, made after the sealing.
use crate::books::{build, edit};
use crate::calls::Kept;
use crate::numbers;
use crate::text::cut;

/// Room for 36 blocks, the number of rules, and the mask of the idle ones.
#[derive(Clone, Copy, PartialEq)]
pub struct Record {
    pub blocks: [u8; 18432],
    pub rules: u32,
    pub marks: u32,
}

/// How many blocks a book of so many rules has, at most as many as the record has room for.
fn blocks_of(rules: u32) -> u32 {
    rules.min(32) + 4
}

impl Kept for Record {
    fn fresh() -> Record {
        Record {
            blocks: [0; 18432],
            rules: 0,
            marks: 0,
        }
    }

    // What is malformed is set too: the cases that follow find it.
    fn set(&mut self, common: &[u8], text: &[u8]) -> bool {
        let (numbers, edits) = cut(text, b'|');
        let (edits, later) = cut(edits, b'|');
        let (rules, marks, count, sound) = match numbers::read(numbers) {
            Some(numbers) => {
                let rules = numbers.number(0);
                let count = numbers.length(2, blocks_of(rules));
                (
                    rules,
                    numbers.number(1),
                    count,
                    numbers.within(2, 3) && count <= 36,
                )
            }
            None => (0, 0, 0, false),
        };
        let (mut blocks, built) = build(common, edits);
        if let Some(behind) = blocks.get_mut(count..) {
            behind.fill([0; 512]);
        }
        let edited = edit(&mut blocks, later);
        let (record, _) = self.blocks.as_chunks_mut::<512>();
        for (block, laid) in record.iter_mut().zip(&blocks) {
            *block = *laid;
        }
        self.rules = rules;
        self.marks = marks;
        sound && built && edited
    }
}
