//! The accesses that can be had: their label is that of a column, and their operation is 0 or one
//! that the label supports and some function has.
ghost use Rattle.std.specs.Prelude.{◌≡◌, ℕ, ◌<◌, Bool};
ghost use Rattle.book.specs.Lists.{any, up_to};
ghost use Rattle.book.specs.Sets.{has, WordOf};
ghost use Rattle.search.specs.Obtainable.{labelled};
ghost use Rattle.search.specs.Inner.Table.{in_four, of_function, HadWith, HadHolds};

use book::categories::support;
use book::fields::{column_count, function_count, operation};
use book::sets::{contains, single};
use lineage::reach::label_set;

/// The union of the words that the caller's function gives for the numbers below n.
fn union_below<F: Fn(u8) -> u64>(n: u8, word: F) -> u64
    requires { (q : ℕ) → q < n → F.pre word q }
    ensures { (f : ℕ → ℕ → Bool) → ((q w : ℕ) → q < n → F.post word q w → WordOf (f q) w)
        → WordOf (λ i. any (λ q. f q i) (up_to n)) result }
{
    let mut found = 0;
    // A loop: `fold` with a closure that joins would be as long.
    for q in 0..n {
        found |= word(q);
    }
    found
}

/// The labels of the columns.
fn labels_of(head: &[u8]) -> u64
    ensures { WordOf (labelled head.now) result }
{
    // `as u8`, here and below: a count is a byte, and the check proves that it fits.
    union_below(column_count(head) as u8, |c| label_set(head, c))
}

/// The operations of the functions.
fn operations_of(head: &[u8]) -> u64
    ensures { WordOf (of_function head.now) result }
{
    union_below(function_count(head) as u8, |f| single(operation(head, f)))
}

/// The operations with which an access of label d can be had.
fn operations_for(head: &[u8], labels: u64, operations: u64, d: u8) -> u64
    ensures { HadWith head.now labels operations d result }
{
    if contains(labels, usize::from(d)) {
        1 | support(head, d) & operations
    } else {
        0
    }
}

/// Four masks of 16 bits as one word, what is above them cut off.
pub fn four(a: u64, b: u64, c: u64, d: u64) -> u64
    ensures { (i : ℕ) → i < 64 → has result i ≡ in_four a b c d i }
{
    a % 65536 + 65536 * (b % 65536) + 4294967296 * (c % 65536) + 281474976710656 * (d % 65536)
}

// `[u64; 32]` by value, both actions in one array: a form that document 01 names.
/// The set of the accesses that can be had, bit p % 64 of word p / 64 for the one at place p. Both
/// actions have the same words.
pub fn obtainable(head: &[u8]) -> [u64; 32]
    ensures { HadHolds head.now result }
{
    let labels = labels_of(head);
    let operations = operations_of(head);
    let of = |d| operations_for(head, labels, operations, d);
    let mut had = [0; 32];
    // By index: a word stands in both halves.
    for w in 0..16u8 {
        let d = 4 * w;
        let word = four(of(d), of(d + 1), of(d + 2), of(d + 3));
        had[usize::from(w)] = word;
        had[usize::from(16 + w)] = word;
    }
    had
}
