//! What breaks a rule beside two accesses, by the tables: a place stands for one reference, the two
//! given places for the others.
ghost use Rattle.std.specs.Prelude.{◌≡◌, false, ◌&&◌, not, ℕ, ◌+◌, ◌*◌, ◌%◌, ◌<◌, get_or};
ghost use Rattle.book.specs.Sets.{has};
ghost use Rattle.search.specs.Inner.Places.{in_places, PlacesOf};
ghost use Rattle.search.specs.Inner.Table.{meets, takes_words};
ghost use Rattle.search.specs.Inner.Closing.{accepted_at, meets_with, Masked};
ghost use Rattle.search.specs.Inner.Search.{asked, reference_at, accepts};

use crate::tables::{Question, RuleTable, met_words, taken_words};
use book::sets::{contains, word_at, word_if};

/// Whether place p meets reference i of rule q.
#[tactic(auto, unfolding(crate::specs::Inner::Table::meets))]
pub fn meets(t: &[RuleTable], q: u8, i: u8, p: usize) -> bool
    ensures { result ≡ meets t.now q i p }
{
    contains(word_at(met_words(t, q, i), p / 64), p % 64)
}

/// The operations that restriction j of rule q takes at reference i.
pub fn taken_word(t: &[RuleTable], q: u8, i: u8, j: u8) -> u64
    ensures { result ≡ get_or (takes_words t.now q i) j 0 }
{
    word_at(taken_words(t, q, i), usize::from(j))
}

/// The operations that some restriction takes at reference i beside place b at k and place c at l:
/// this is what the search does most.
pub fn accepted_beside(t: &[RuleTable], q: u8, i: u8, k: u8, l: u8, b: usize, c: usize) -> u64
    ensures { (p : ℕ) → has result (p % 64) ≡ accepted_at t.now q i k l b c p }
{
    let first = taken_words(t, q, k);
    let second = taken_words(t, q, l);
    let third = taken_words(t, q, i);
    let mut found = 0u64;
    // By index: three arrays go in step.
    for j in 0..8usize {
        let both = contains(first[j], b % 64) & contains(second[j], c % 64);
        found = found | word_if(both, third[j]);
    }
    found
}

/// The reference of a rule with n references that stands i-th.
pub fn reference_at(n: u8, i: u8) -> u8
    ensures { (result ≡ reference_at n i) × (result < 3) }
{
    // A remainder by 3: the cast is proved to fit, and `try_from` would be a branch.
    ((usize::from(i) + usize::from(n)) % 3) as u8
}

/// The operations of a third place that are accepted beside a and y.
pub fn accepted_third(ask: &Question, a: usize, y: usize) -> u64
    ensures { (p : ℕ) → has result (p % 64) ≡ asked accepts ask.now a y p }
{
    let third = reference_at(ask.references, 2);
    let first = reference_at(ask.references, 0);
    let second = reference_at(ask.references, 1);
    accepted_beside(ask.tables, ask.rule, third, first, second, a, y)
}

/// Each reference of a rule with the other two, in either order.
pub const ORDERS: [[u8; 3]; 6] = [
    [0, 1, 2],
    [0, 2, 1],
    [1, 0, 2],
    [1, 2, 0],
    [2, 0, 1],
    [2, 1, 0],
];

/// For each reference of rule q the operations that break it there, beside b and c in either order
/// of them.
pub fn closing_masks(t: &[RuleTable], q: u8, b: usize, c: usize) -> [u64; 3]
    ensures { Masked t.now q b c result }
{
    let mut masks = [0u64; 3];
    for [i, k, l] in ORDERS {
        if meets(t, q, k, b) & meets(t, q, l, c) {
            masks[usize::from(i)] |= !accepted_beside(t, q, i, k, l, b, c);
        }
    }
    masks
}

/// Takes out of a set the places that meet a reference of rule q with one of the operations given
/// for it, and says whether there were some.
pub fn take_closing(t: &[RuleTable], q: u8, masks: &[u64; 3], set: &mut [u64; 33]) -> bool
    ensures rest { PlacesOf (λ p. in_places set.old p && not (meets_with t.now q masks.now p)) set.new }
    ensures same { result ≡ false → set.new ≡ set.old }
{
    let first = met_words(t, q, 0);
    let second = met_words(t, q, 1);
    let third = met_words(t, q, 2);
    let mut some = false;
    // By index: four arrays go in step.
    for w in 0..33usize {
        let closing = first[w] & masks[0] | second[w] & masks[1] | third[w] & masks[2];
        let rest = set[w] & !closing;
        some |= rest != set[w];
        set[w] = rest;
    }
    some
}
