//! What a rule block says of a book's leaves and users, from the words of the head.
ghost use Rattle.book.specs.Inner.Words.{CoveredUsers, LeafSet, Within, covered_leaves, under_some};

use crate::fields::{data_category, excluded_users, exclusions, user_category};
use crate::words::{Categories, Words};

/// The categories under some category of a list.
fn under_some(words: &Categories, list: &[u8]) -> u64
    ensures { Within words.now (under_some list.now) result }
{
    let mut found = 0u64;
    for c in list {
        found |= words.under(usize::from(*c));
    }
    found
}

/// The leaves under a category, less those under the excluded ones.
pub fn covered_leaves(words: &Categories, c: usize, excluded: &[u8]) -> u64
    ensures { Within words.now (covered_leaves c excluded.now) result }
{
    words.leaves & (words.under(c) & !under_some(words, excluded))
}

/// The leaf set of reference i.
pub fn leaf_set(words: &Words, rule: &[u8], i: u8) -> u64
    ensures { LeafSet words.now rule.now i result }
{
    covered_leaves(
        &words.categories,
        data_category(rule, i),
        exclusions(rule, i),
    )
}

/// The users that the rule covers.
pub fn covered_users(words: &Words, rule: &[u8]) -> u64
    ensures { CoveredUsers words.now rule.now result }
{
    covered_leaves(&words.users, user_category(rule), excluded_users(rule))
}
