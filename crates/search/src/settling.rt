//! Second places that one rule settles: it takes every third place that the rule in question refuses
//! beside them, so they need not be looked at one by one.
ghost use Rattle.std.specs.Prelude.{◌≡◌, true};
ghost use Rattle.search.specs.Inner.Closing.{closes, remaining};
ghost use Rattle.search.specs.Inner.Search.{asked, TakesAll, SettledBeside, SettledWith, Settled, SettledAt, SettledBy};

use crate::closing::{ORDERS, accepted_beside, accepted_third, meets};
use crate::sifting::Takers;
use crate::tables::{Question, RuleTable, met_words};
use book::sets::{contains, single, those_below};

/// The turns in a row after which the rule that took last is asked: to ask costs as much as some
/// dozens of second places.
pub const SETTLING: u8 = 16;

/// Whether rule q takes every place of a set with none of r's own operations: each meets reference i
/// of q, with none of the others. Only `true` is promised: after `false` nothing is settled.
fn takes_all(t: &[RuleTable], q: u8, i: u8, thirds: &[u64; 33], own: u64, other: u64) -> bool
    ensures { result ≡ true → TakesAll t.now q i thirds.now own other }
{
    let met = met_words(t, q, i);
    let mut rest = 0u64;
    // By index: two arrays go in step.
    for w in 0..33usize {
        rest |= thirds[w] & !(own | met[w] & !other);
    }
    rest == 0
}

/// Whether rule q takes at i every third place that is refused beside a at k and y at l.
fn settles(
    ask: &Question,
    q: u8,
    i: u8,
    k: u8,
    l: u8,
    a: usize,
    thirds: &[u64; 33],
    y: usize,
) -> bool
    ensures { result ≡ true → asked SettledBeside ask.now q i k l a thirds.now y }
{
    let own = accepted_third(ask, a, y);
    let other = accepted_beside(ask.tables, q, i, k, l, a, y);
    takes_all(ask.tables, q, i, thirds, own, other)
}

/// The operations of a second place at l with which it does.
fn settled_operations(
    ask: &Question,
    q: u8,
    i: u8,
    k: u8,
    l: u8,
    a: usize,
    thirds: &[u64; 33],
) -> u64
    ensures { asked SettledWith ask.now q i k l a thirds.now result }
{
    those_below(64, |y| {
        settles(ask, q, i, k, l, a, thirds, usize::from(y))
    })
}

/// Takes out of the second places those that meet reference l with these operations, if a meets k.
fn take_settled_at(
    ask: &Question,
    q: u8,
    i: u8,
    k: u8,
    l: u8,
    a: usize,
    thirds: &[u64; 33],
    seconds: &mut [u64; 33],
)
    ensures { asked SettledAt ask.now q i k l a thirds.now seconds.old seconds.new }
{
    if !meets(ask.tables, q, k, a) {
        return;
    }
    let operations = settled_operations(ask, q, i, k, l, a, thirds);
    let met = met_words(ask.tables, q, l);
    // By index: two arrays go in step.
    for w in 0..33usize {
        seconds[w] &= !(met[w] & operations);
    }
}

/// Takes out of the second places those that rule q settles: one reference for the third place, one
/// for a and one for the second place, in each of the six ways.
fn take_settled(ask: &Question, q: u8, a: usize, thirds: &[u64; 33], seconds: &mut [u64; 33])
    ensures { asked Settled ask.now a thirds.now (closes ask.now.tables.now q a) seconds.old seconds.new }
{
    for [i, k, l] in ORDERS {
        take_settled_at(ask, q, i, k, l, a, thirds, seconds);
    }
}

/// Takes out of the second places those that the rule that took last settles, and marks it, if it
/// has done so often enough.
pub fn settle(
    ask: &Question,
    rules: u64,
    a: usize,
    thirds: &[u64; 33],
    turns: u8,
    seconds: &mut [u64; 33],
    takers: &mut Takers,
)
    ensures { asked SettledBy ask.now rules a thirds.now seconds.old takers.old.rules (remaining seconds.new takers.new) }
{
    let q = takers.last;
    if (turns == SETTLING) & ((q < 32) & contains(rules, usize::from(q))) {
        take_settled(ask, q, a, thirds, seconds);
        takers.rules |= single(usize::from(q));
    }
}
