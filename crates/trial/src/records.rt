//! Records to call on: words, of which the first are the ledger, a tally and a hold record.
//!
//! They are set by text, in four parts with bars between them: the counts that are not 0, the bits of the
//! words, the places, and the bits of their words. Commas stand between counts, bits and places.
//! Counts are a user, how many plans are admitted, how many declined and how many dropped where that is
//! not 0, and for how many users from there on where that is not one. A place is 0 to 7, its user, the
//! number of its hold, and how many places from there on are so where that is not one. Bits are a word, a
//! bit in it, how many bits from there on where that is not one, and in how many words from there on where
//! that is not one.
use crate::calls::Kept;
use crate::numbers::{Numbers, each};
use crate::text::cut;
use ledger::{Holds, Tally};

/// What Ask, commit and drop are called on.
#[derive(Clone, Copy)]
pub struct Records {
    /// The ledger, and what stands behind it.
    pub words: [u64; 2112],
    pub tally: Tally,
    pub holds: Holds,
}

/// The word that has the bits from first up to end.
fn bits(first: usize, end: usize) -> u64 {
    let mut word = 0;
    // the bits of a word are by number
    for bit in 0..64 {
        if (first..end).contains(&bit) {
            word |= 1 << bit;
        }
    }
    word
}

/// Sets bits in so many words from one on; false for what is past the end of a word or of the words.
fn set_bits<const N: usize>(words: &mut [u64; N], named: &Numbers) -> bool {
    let start = named.length(0, 0);
    let end = start + named.length(3, 1);
    let first_bit = named.length(1, 0);
    let end_bit = first_bit + named.length(2, 1);
    if !named.within(2, 4) || 64 < end_bit {
        return false;
    }
    let Some(part) = words.get_mut(start..end) else {
        return false;
    };
    let word = bits(first_bit, end_bit);
    for place in part {
        *place |= word;
    }
    true
}

/// Puts a number in the places of a range.
fn fill(numbers: &mut [u32], start: usize, end: usize, number: u32) {
    if let Some(part) = numbers.get_mut(start..end) {
        part.fill(number);
    }
}

/// Sets the counts of so many users from one on; false for what is past their end.
fn set_counts(tally: &mut Tally, named: &Numbers) -> bool {
    let start = named.length(0, 0);
    let end = start + named.length(4, 1);
    if !named.within(2, 5) || 32 < end {
        return false;
    }
    fill(&mut tally.admitted, start, end, named.number(1));
    fill(&mut tally.declined, start, end, named.number(2));
    fill(&mut tally.dropped, start, end, named.number(3));
    true
}

/// Sets the users and numbers of so many places from one on; false for what is past their end.
fn set_places(holds: &mut Holds, named: &Numbers) -> bool {
    let start = named.length(0, 0);
    let end = start + named.length(3, 1);
    if !named.within(3, 4) || 8 < end {
        return false;
    }
    fill(&mut holds.users, start, end, named.number(1));
    fill(&mut holds.numbers, start, end, named.number(2));
    true
}

impl Kept for Records {
    fn fresh() -> Records {
        Records {
            words: [0; 2112],
            tally: Tally {
                admitted: [0; 32],
                declined: [0; 32],
                dropped: [0; 32],
            },
            holds: Holds {
                users: [0; 8],
                numbers: [0; 8],
                words: [0; 256],
            },
        }
    }

    fn set(&mut self, _: &[u8], text: &[u8]) -> bool {
        let (counts, rest) = cut(text, b'|');
        let (seen, rest) = cut(rest, b'|');
        let (places, words) = cut(rest, b'|');
        *self = Records::fresh();
        let mut sound = each(counts, &mut self.tally, set_counts);
        sound &= each(seen, &mut self.words, set_bits);
        sound &= each(places, &mut self.holds, set_places);
        sound &= each(words, &mut self.holds.words, set_bits);
        sound
    }
}
