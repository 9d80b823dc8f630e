//! The two hierarchies of a book. A parent is lower than its child, so that one pass over the numbers
//! settles each of these.
ghost use Rattle.std.specs.Prelude.{◌≡◌, ◌&&◌, ◌||◌, not, ℕ, ◌<◌, eqb, ltb};
ghost use Rattle.book.specs.Sets.{has, WordOf};
ghost use Rattle.book.specs.Hierarchies.{leaf};
ghost use Rattle.book.specs.Head.{support_of};
ghost use Rattle.book.specs.Inner.Reading.{count_in, parent_in};
ghost use Rattle.book.specs.Inner.Words.{Subtrees, Supports};

use crate::Hierarchy;
use crate::fields::{count, own_operations, parent, withdrawn_operations};
use crate::sets::{below, single};

/// For each category the set of those under it, itself among them. From the highest number down, each
/// adds to its parent what it has: by then all its children have added theirs. A root adds to itself.
pub fn descendants(head: &[u8], which: Hierarchy) -> [u64; 64]
    ensures { Subtrees which head.now result }
{
    let n = count(head, which).min(64);
    let mut words = [0u64; 64];
    // By number, as a category is one. `as u8` here and below: the check proves that it fits.
    for i in (0..n).rev() {
        let p = parent(head, which, i as u8).min(i);
        let own = words[i] | single(i);
        words[i] = own;
        words[p] |= own;
    }
    words
}

/// A set of categories with i's parent p added; a root names itself and does not count.
fn with_parent(set: u64, p: usize, i: usize) -> u64
    ensures { (c : ℕ) → has result c ≡ (has set c || (ltb c 64 && not (eqb i c || not (eqb p c)))) }
{
    if p == i {
        return set;
    }
    set | single(p)
}

/// The set of the categories that are the parent of no other.
pub fn leaves(head: &[u8], which: Hierarchy) -> u64
    ensures { WordOf (leaf (count_in which head.now) (parent_in which head.now)) result }
{
    let n = count(head, which);
    let mut parents = 0u64;
    for i in 0..n {
        let p = parent(head, which, i as u8);
        parents = with_parent(parents, p, i);
    }
    below(n) & !parents
}

/// The mask of the operations that data category d supports: what its parent supports, less what d
/// withdraws, and its own.
pub fn support(head: &[u8], d: u8) -> u64
    ensures { (result ≡ support_of head.now d) × (result < 65536) }
{
    let own = own_operations(head, d);
    let p = parent(head, Hierarchy::Data, d);
    // By recursion to the parent: a form that document 01 names.
    if p < usize::from(d) {
        let withdrawn = withdrawn_operations(head, d);
        return support(head, p as u8) & !withdrawn | own;
    }
    own
}

/// For each data category what it supports.
pub fn supports(head: &[u8]) -> [u64; 64]
    ensures { Supports head.now result }
{
    let n = count(head, Hierarchy::Data).min(64);
    let mut words = [0u64; 64];
    for d in 0..n {
        words[d] = support(head, d as u8);
    }
    words
}
