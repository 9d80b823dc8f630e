//! Pairs of operations, a second one and a third one, beside one first place: a second operation c and
//! a third operation d are bit 16 × (c % 4) + d of word c / 4. A rule accepts some pairs, in each of
//! the six orders in which three places stand for its references, so a few words tell whether any
//! pair is left that all rules accept.
ghost use Rattle.std.specs.Prelude.{◌≡◌, ◌&&◌, ℕ, ◌≤◌, ◌<◌, get_or, ltb};
ghost use Rattle.book.specs.Sets.{has};
ghost use Rattle.search.specs.Inner.Table.{meets};
ghost use Rattle.blocked.specs.Inner.Cells.{past_cells};
ghost use Rattle.blocked.specs.Inner.Pairs.{AcceptedWords, Answers, MasksHold, MetHolds, Narrowed};
ghost use Rattle.blocked.specs.Inner.Pairs.{OrderHolds, SlicesHold};

use crate::cells::PAST_CELLS;
use book::sets::{contains, single, those_below};
use search::closing::{meets, taken_word};
use search::obtaining::four;
use search::places::lowest;
use search::tables::{RuleTable, spread};

/// The references that the first, the second and the third place stand for.
#[derive(Clone, Copy)]
pub struct Order {
    pub first: u8,
    pub second: u8,
    pub third: u8,
}

const ORDERS: [Order; 6] = [
    Order {
        first: 1,
        second: 2,
        third: 0,
    },
    Order {
        first: 2,
        second: 1,
        third: 0,
    },
    Order {
        first: 2,
        second: 0,
        third: 1,
    },
    Order {
        first: 0,
        second: 2,
        third: 1,
    },
    Order {
        first: 0,
        second: 1,
        third: 2,
    },
    Order {
        first: 1,
        second: 0,
        third: 2,
    },
];

/// The rules whose reference i place p meets.
fn met_by(t: &[RuleTable], i: u8, p: usize) -> u64
    ensures { (q : ℕ) → has result q ≡ (ltb q 32 && meets t.now q i p) }
{
    those_below(32, |q| meets(t, q, i, p))
}

/// Fills in, for each cell and reference, the rules whose reference its first place meets.
pub fn fill_met(met: &mut [[u64; 3]; 132], t: &[RuleTable])
    ensures { MetHolds t.now met.new }
{
    // By index: the cell's number is what is asked about.
    for c in 0..PAST_CELLS {
        met[c] = [
            met_by(t, 0, 16 * c),
            met_by(t, 1, 16 * c),
            met_by(t, 2, 16 * c),
        ];
    }
}

/// For each order the rules of a set that first place a and the places of cell m meet.
pub fn row_masks(t: &[RuleTable], met: &[[u64; 3]; 132], rules: u64, a: usize, m: usize) -> [u64; 6]
    ensures { m < past_cells → MetHolds t.now met.now → MasksHold t.now rules a m result }
{
    let mut masks = [0u64; 6];
    if PAST_CELLS <= m {
        return masks;
    }
    let firsts = [met_by(t, 0, a), met_by(t, 1, a), met_by(t, 2, a)];
    let seconds = met[m];
    // By index: the orders and their masks go in step.
    for v in 0..6usize {
        let order = ORDERS[v];
        masks[v] = rules & firsts[usize::from(order.first)] & seconds[usize::from(order.second)];
    }
    masks
}

/// The pairs that some restriction of rule q accepts in an order, beside first place a.
fn accepted_words(t: &[RuleTable], q: u8, order: Order, a: usize) -> [u64; 4]
    ensures { AcceptedWords t.now q order.third order.first order.second a result }
{
    let mut found = [0u64; 4];
    for j in 0..8u8 {
        if !contains(taken_word(t, q, order.first, j), a % 64) {
            continue;
        }
        let seconds = taken_word(t, q, order.second, j);
        let thirds = taken_word(t, q, order.third, j);
        found = [
            found[0] | spread(seconds) & thirds,
            found[1] | spread(seconds >> 4) & thirds,
            found[2] | spread(seconds >> 8) & thirds,
            found[3] | spread(seconds >> 12) & thirds,
        ];
    }
    found
}

/// Fills in the same for each rule of a mask.
fn fill_order(slices: &mut [[u64; 4]; 32], t: &[RuleTable], mask: u64, order: Order, a: usize)
    ensures { OrderHolds t.now mask order.third order.first order.second a slices.new }
{
    // By its lowest member, as an iterator over the members of a word has no proof yet. A member is an
    // index, and below 32 here: the cast fits.
    let mut waiting = mask % 4294967296;
    while waiting != 0 {
        let q = lowest(waiting);
        waiting &= !single(q);
        slices[q % 32] = accepted_words(t, q as u8, order, a);
    }
}

/// The same for each order and its mask.
pub fn fill_slices(s: &mut [[[u64; 4]; 32]; 6], t: &[RuleTable], masks: &[u64; 6], a: usize)
    ensures { SlicesHold t.now masks.now a s.new }
{
    // By index: masks, orders and slices go in step.
    for v in 0..6usize {
        fill_order(&mut s[v], t, masks[v], ORDERS[v], a);
    }
}

/// Takes out the pairs that a rule of a set does not accept. It ends where none is left.
fn narrow(pairs: &mut [u64; 4], slices: &[[u64; 4]; 32], rules: u64)
    ensures left { Narrowed slices.now rules pairs.old pairs.new }
    ensures fewer { (w : ℕ) → w < 4 → get_or pairs.new w 0 ≤ get_or pairs.old w 0 }
{
    // By its lowest member, as above.
    let mut waiting = rules % 4294967296;
    while waiting != 0 {
        let q = lowest(waiting);
        waiting &= !single(q);
        let words = slices[q % 32];
        pairs[0] &= words[0];
        pairs[1] &= words[1];
        pairs[2] &= words[2];
        pairs[3] &= words[3];
        if (pairs[0] | pairs[1] | pairs[2] | pairs[3]) == 0 {
            return;
        }
    }
}

/// Whether some pair, its third operation among those of a cell, is accepted by every rule that the
/// cell meets too.
pub fn some_accepted(
    s: &[[[u64; 4]; 32]; 6],
    met: &[u64; 3],
    masks: &[u64; 6],
    pairs: &[u64; 4],
    third: u64,
) -> bool
    ensures { Answers s.now met.now masks.now pairs.now third result }
{
    let thirds = four(third, third, third, third);
    let mut rest = [
        pairs[0] & thirds,
        pairs[1] & thirds,
        pairs[2] & thirds,
        pairs[3] & thirds,
    ];
    // By index: masks, orders and slices go in step.
    for v in 0..6usize {
        let waiting = masks[v] & met[usize::from(ORDERS[v].third)];
        narrow(&mut rest, &s[v], waiting);
    }
    (rest[0] | rest[1] | rest[2] | rest[3]) != 0
}
