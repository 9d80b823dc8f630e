//! One rule against a set of accesses, given as 32 words: for each reference the operations with
//! which some access of the set fits it, and then at most 256 choices of the first two.
ghost use Rattle.std.specs.Prelude.{◌≡◌, ◌&&◌, ℕ, ◌<◌, ◌≤◌, [], length, get_or, replicate, ltb};
ghost use Rattle.book.specs.Sets.{has};
ghost use Rattle.verdicts.specs.Accesses.{held_by};
ghost use Rattle.verdicts.specs.Inner.Words.{mask_takes, OfferedIfSound, RefusedIfSound};
ghost use Rattle.verdicts.specs.Inner.Words.{Beside, MaskRow, third_refused, refused_beside, some_refused, TakenIfWhole};

use crate::actions::{Channel, channel_fits};
use book::fields::{action, reference_count, restriction_count};
use book::rules::leaf_set;
use book::sets::{contains, those_below};
use book::words::Words;
use std::array;

/// The operations with which some access of the set fits reference i; of an absent reference,
/// operation 0 alone.
fn offered(words: &Words, rule: &[u8], accesses: &[u64; 32], i: u8) -> u64
    ensures { OfferedIfSound words.now rule.now (held_by accesses.now) i result }
{
    if reference_count(rule) <= usize::from(i) {
        return 1;
    }
    let leaves = leaf_set(words, rule, i);
    let named = action(rule, i);
    let fitted = |does| if channel_fits(does, named) { leaves } else { 0 };
    let projected = fitted(Channel::Projection);
    let tested = fitted(Channel::Condition);
    those_below(16, |k| {
        let k = usize::from(k);
        (accesses[k] & projected) | (accesses[16 + k] & tested) != 0
    })
}

/// A mask as the operations it takes: a zero mask takes all sixteen.
pub fn all_if_zero(mask: u64) -> u64
    ensures { mask < 65536 → (k : ℕ) → has result k ≡ (ltb k 16 && mask_takes mask k) }
{
    if mask == 0 {
        return 65535;
    }
    mask
}

/// The operations that a restriction takes at each reference, by the bytes of its masks.
fn row_of(bytes: &[u8; 6]) -> [u64; 3]
    ensures { MaskRow bytes.now result }
{
    let [a, b, c, d, e, f] = *bytes;
    let mask = |high: u8, low: u8| u64::from(u16::from_be_bytes([high, low]));
    [
        all_if_zero(mask(a, b)),
        all_if_zero(mask(c, d)),
        all_if_zero(mask(e, f)),
    ]
}

/// The operations that restriction j takes at reference i, in row j.
fn taken(rule: &[u8]) -> [[u64; 3]; 8]
    ensures { TakenIfWhole rule.now result }
{
    // Tested here, so that no read below tests again.
    if rule.len() < 112 {
        return [[0; 3]; 8];
    }
    let n = restriction_count(rule);
    let (rows, _) = rule[64..112].as_chunks::<6>();
    array::from_fn(
        |j|
            requires { j < length rows.now }
            ensures there { j < n → MaskRow (get_or rows.entry.now j []) result }
            ensures absent { n ≤ j → result ≡ replicate 3 0 }
        { if j < n { row_of(&rows[j]) } else { [0; 3] } },
    )
}

/// The operations of the third reference that some restriction takes beside a and b.
fn taken_beside(masks: &[[u64; 3]; 8], a: usize, b: usize) -> u64
    ensures { Beside masks.now a b result }
{
    let mut found = 0u64;
    for row in masks {
        // `&`, since a branch at each restriction would cost more.
        if contains(row[0], a) & contains(row[1], b) {
            found |= row[2];
        }
    }
    found
}

/// Whether some operation of the third reference is taken by no restriction beside a and b.
fn third_refused(masks: &[[u64; 3]; 8], third: u64, a: usize, b: usize) -> bool
    ensures { result ≡ third_refused masks.now third a b }
{
    third & !taken_beside(masks, a, b) != 0
}

/// Whether some choice of operations with a first is taken by no restriction.
fn refused_beside(masks: &[[u64; 3]; 8], a: usize, second: u64, third: u64) -> bool
    ensures { result ≡ refused_beside masks.now second third a }
{
    (0..16).any(|b| contains(second, b) && third_refused(masks, third, a, b))
}

/// Whether some choice of operations is taken by no restriction.
fn some_refused(masks: &[[u64; 3]; 8], first: u64, second: u64, third: u64) -> bool
    ensures { result ≡ some_refused masks.now first second third }
{
    (0..16).any(|a| contains(first, a) && refused_beside(masks, a, second, third))
}

/// Whether some choice from the set is accepted by no restriction. Most rules end where a reference
/// is offered nothing.
pub fn breaks(words: &Words, rule: &[u8], accesses: &[u64; 32]) -> bool
    ensures { RefusedIfSound words.now rule.now (held_by accesses.now) result }
{
    let first = offered(words, rule, accesses, 0);
    if first == 0 {
        return false;
    }
    let second = offered(words, rule, accesses, 1);
    if second == 0 {
        return false;
    }
    let third = offered(words, rule, accesses, 2);
    if third == 0 {
        return false;
    }
    some_refused(&taken(rule), first, second, third)
}
