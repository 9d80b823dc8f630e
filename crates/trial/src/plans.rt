//! Plans to try.
//!
//! Rows are text: the kind, a, b and c, and commas between the rows. Where a row stands more than
//! once, a star follows, then how many times, and what each row adds to a, b and c of the one before.
use crate::numbers;
use crate::numbers::Numbers;
use crate::text::cut;
use arrayvec::ArrayVec;

/// As many rows as fit in the blocks of a book to try.
const ROOM: usize = 4736;

// A flag beside the rows and no `Result`: what is malformed is tried too.
/// A plan, and whether its rows are well formed.
#[derive(Drop)]
pub struct Plan {
    /// Fixed memory: a program can't run out of it.
    pub rows: ArrayVec<[u8; 4], ROOM>,
    pub sound: bool,
}

impl Plan {
    /// What is no byte is malformed, and 0.
    fn byte(&mut self, value: u32) -> u8 {
        u8::try_from(value).unwrap_or_else(|_| {
            self.sound = false;
            0
        })
    }

    /// Adds a row, and those that repeat it. One without room is malformed.
    fn add(&mut self, row: &Numbers, more: &Numbers) {
        let mut values = [row.number(1), row.number(2), row.number(3)];
        // so many times, and each row is made from the one before
        for _ in 0..more.or(0, 1) {
            let [a, b, c] = values;
            let kind = self.byte(row.number(0));
            let bytes = [kind, self.byte(a), self.byte(b), self.byte(c)];
            if self.rows.try_push(bytes).is_err() {
                self.sound = false;
                break;
            }
            values = [
                a.wrapping_add(more.number(1)),
                b.wrapping_add(more.number(2)),
                c.wrapping_add(more.number(3)),
            ];
        }
    }

    /// Adds what stands between two commas; where nothing is written there is no row.
    fn read(&mut self, text: &[u8]) {
        let (row, more) = cut(text, b'*');
        match (numbers::read(row), numbers::read(more)) {
            (Some(row), Some(more)) if row.within(0, 0) && more.within(0, 0) => {}
            (Some(row), Some(more)) if row.within(4, 4) && more.within(0, 4) => {
                self.add(&row, &more)
            }
            _ => self.sound = false,
        }
    }
}

/// The plan of a text.
pub fn plan_of(text: &[u8]) -> Plan {
    let mut plan = Plan {
        rows: ArrayVec::new(),
        sound: true,
    };
    for part in text.split(|byte| *byte == b',') {
        plan.read(part);
    }
    plan
}
