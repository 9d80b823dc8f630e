//! The words of a head, filled once a call and lent: whoever asks what a category has below it, or
//! whether it is a leaf, reads a word instead of going through the hierarchy again. They are the words of
//! any bytes, so a call fills them before it checks the book.
ghost use Rattle.std.specs.Prelude.{◌≡◌};
ghost use Rattle.book.specs.Inner.Reading.{SetAdded, count_in, parent_in};
ghost use Rattle.book.specs.Inner.Words.{CategoriesHold, HeadWords, SupportWord, SupportingWords, Within, subtree};

use crate::Hierarchy;
use crate::categories::{descendants, leaves, supports};
use crate::fields::count;
use crate::sets::{contains, single, word_if};

/// One hierarchy of a head: for each category the set of those under it, itself among them; the leaves;
/// how many categories there are.
#[derive(Clone, Copy)]
pub struct Categories {
    pub under: [u64; 64],
    pub leaves: u64,
    pub count: u8,
}

// The head is no field: public functions take any words, and promise by `HeadWords`.
/// Both hierarchies of a head, and for each data category the operations that it supports.
#[derive(Clone, Copy)]
pub struct Words {
    pub categories: Categories,
    pub users: Categories,
    pub supports: [u64; 64],
}

impl Categories {
    fn of(head: &[u8], which: Hierarchy) -> Categories
        ensures { CategoriesHold (count_in which head.now) (parent_in which head.now) result }
    {
        Categories {
            under: descendants(head, which),
            leaves: leaves(head, which),
            // a count is a byte: the check proves that the cast fits
            count: count(head, which) as u8,
        }
    }

    /// The categories under c. From 64 on there is no word, and nothing with a place in one is under c:
    /// the way up only goes down in number.
    pub fn under(&self, c: usize) -> u64
        ensures { Within self.now (λ count parent. subtree count parent c) result }
    {
        if 64 <= c {
            return 0;
        }
        self.under[c]
    }
}

impl Words {
    /// The words of any head.
    pub fn of(head: &[u8]) -> Words
        ensures { HeadWords head.now result }
    {
        Words {
            categories: Categories::of(head, Hierarchy::Data),
            users: Categories::of(head, Hierarchy::Users),
            supports: supports(head),
        }
    }

    /// The mask of the operations that data category c supports.
    pub fn support(&self, c: usize) -> u64
        ensures { SupportWord self.now c result }
    {
        if 64 <= c {
            return 0;
        }
        self.supports[c]
    }

    /// For each operation the data leaves that support it.
    pub fn supporters(&self) -> [u64; 16]
        ensures { SupportingWords self.now result }
    {
        let n = self.categories.count.min(64);
        let mut words = [0u64; 16];
        for c in 0..n {
            let at = usize::from(c);
            let mask = word_if(contains(self.categories.leaves, at), self.support(at));
            add_set(&mut words, single(at), mask);
        }
        words
    }
}

/// Adds a set to those of sixteen words whose number is an operation of the mask.
fn add_set(words: &mut [u64; 16], set: u64, mask: u64)
    ensures { SetAdded words.old set mask words.new }
{
    if mask == 0 {
        return;
    }
    for k in 0..16usize {
        if contains(mask, k) {
            words[k] |= set;
        }
    }
}
