//! The first three places, one for each reference of a rule, that break it and no rule of a set. The
//! references stand in their order with absent ones first, so the last one always stands third and
//! is never looped over.
ghost use Rattle.std.specs.Prelude.{◌&&◌, not, ◌%◌};
ghost use Rattle.book.specs.Sets.{has};
ghost use Rattle.search.specs.Inner.Places.{in_places, PlacesOf};
ghost use Rattle.search.specs.Inner.Closing.{remaining};
ghost use Rattle.search.specs.Inner.Search.{asked, candidate, solves, solves_in, solves_first, solves_beside, solves_pair};
ghost use Rattle.search.specs.Inner.Search.{Searched, SearchedSince, Thirds, Possible};

use crate::closing::{accepted_third, reference_at};
use crate::places::{NOWHERE, Places, first_from, is_empty};
use crate::settling::{SETTLING, settle};
use crate::sifting::{Takers, sift};
use crate::tables::{Question, met_words};

// `had` by value, here and below: a form that document 01 names.
/// The places that can be chosen for the reference that stands i-th.
pub fn candidates(ask: &Question, had: [u64; 32], i: u8) -> [u64; 33]
    ensures { PlacesOf (asked candidate ask.now had i) result }
{
    let reference = reference_at(ask.references, i);
    let mut found = [0u64; 33];
    if ask.references <= reference {
        found[32] = 1;
        return found;
    }
    let met = met_words(ask.tables, ask.rule, reference);
    // By index: three arrays go in step.
    for w in 0..32usize {
        found[w] = had[w] & met[w];
    }
    found
}

/// Takes out of a set the places with some operations.
pub fn take_operations(set: &mut [u64; 33], operations: u64)
    ensures { PlacesOf (λ p. in_places set.old p && not (has operations (p % 64))) set.new }
{
    for word in set.iter_mut() {
        *word &= !operations;
    }
}

/// Takes out of the third places those that don't break the rule beside a and y, or break one of the
/// set.
fn take_thirds(
    ask: &Question,
    rules: u64,
    a: usize,
    y: usize,
    places: &mut [u64; 33],
    takers: &mut Takers,
)
    ensures { asked Thirds ask.now rules a y (remaining places.old takers.old) (remaining places.new takers.new) }
{
    take_operations(places, accepted_third(ask, a, y));
    sift(ask.tables, rules, a, y, places, takers);
}

/// The first third place beside a and y.
fn beside_both(
    ask: &Question,
    rules: u64,
    a: usize,
    y: usize,
    thirds: &[u64; 33],
    takers: &mut Takers,
) -> Option<Places>
    ensures { SearchedSince (asked solves_pair ask.now a y thirds.now) rules takers.old.rules takers.new.rules result }
{
    let mut open = *thirds;
    take_thirds(ask, rules, a, y, &mut open, takers);
    let x = first_from(&open, 0)?;
    Some(Places {
        first: a,
        second: y,
        third: x,
    })
}

/// How often in a row the same rule took last. Nothing is promised of it: it only says when to ask
/// what that rule settles.
fn in_a_row(turns: u8, again: bool) -> u8 {
    if !again {
        return 0;
    }
    turns.min(SETTLING) + 1
}

/// The first second and third place beside first place a.
fn beside(
    ask: &Question,
    rules: u64,
    a: usize,
    seconds: &mut [u64; 33],
    thirds: &[u64; 33],
    takers: &mut Takers,
) -> Option<Places>
    ensures { SearchedSince (asked solves_beside ask.now a seconds.old thirds.now) rules takers.old.rules takers.new.rules result }
{
    if is_empty(thirds) {
        return None;
    }
    let mut turns = 0u8;
    let mut next = first_from(seconds, 0);
    // `while`: a turn takes places out of the set, and the next is asked for after it.
    while let Some(y) = next {
        let last = takers.last;
        if let Some(found) = beside_both(ask, rules, a, y, thirds, takers) {
            return Some(found);
        }
        turns = in_a_row(turns, last == takers.last);
        settle(ask, rules, a, thirds, turns, seconds, takers);
        next = first_from(seconds, y + 1);
    }
    None
}

/// The same where the sets still hold what breaks a rule beside a: it is dropped once.
fn beside_first(
    ask: &Question,
    rules: u64,
    a: usize,
    seconds: &[u64; 33],
    thirds: &[u64; 33],
    takers: &mut Takers,
) -> Option<Places>
    ensures { SearchedSince (asked solves_first ask.now a seconds.now thirds.now) rules takers.old.rules takers.new.rules result }
{
    let mut second = *seconds;
    sift(ask.tables, rules, a, NOWHERE, &mut second, takers);
    let mut third = *thirds;
    sift(ask.tables, rules, a, NOWHERE, &mut third, takers);
    beside(ask, rules, a, &mut second, &third, takers)
}

/// The first three places in three sets.
pub fn among(
    ask: &Question,
    rules: u64,
    firsts: &[u64; 33],
    seconds: &[u64; 33],
    thirds: &[u64; 33],
    takers: &mut Takers,
) -> Option<Places>
    ensures { SearchedSince (asked solves_in ask.now firsts.now seconds.now thirds.now) rules takers.old.rules takers.new.rules result }
{
    let mut next = first_from(firsts, 0);
    // `while`: an iterator over a set would be one of our own, and longer than this.
    while let Some(a) = next {
        if let Some(found) = beside_first(ask, rules, a, seconds, thirds, takers) {
            return Some(found);
        }
        next = first_from(firsts, a + 1);
    }
    None
}

/// The candidates of the reference that stands i-th, less what breaks a rule by itself.
pub fn alone(ask: &Question, had: [u64; 32], rules: u64, i: u8, takers: &mut Takers) -> [u64; 33]
    ensures { asked Possible ask.now had rules i takers.old.rules (remaining result takers.new) }
{
    let mut places = candidates(ask, had, i);
    sift(ask.tables, rules, NOWHERE, NOWHERE, &mut places, takers);
    places
}

/// The first three places that break the rule and none of a set; the one that took last has its
/// turn first.
pub fn search(ask: &Question, had: [u64; 32], rules: u64, takers: &mut Takers) -> Option<Places>
    ensures { Searched (asked solves ask.now had) rules 0 takers.new.rules result }
{
    takers.rules = 0;
    let firsts = alone(ask, had, rules, 0, takers);
    let seconds = alone(ask, had, rules, 1, takers);
    let thirds = alone(ask, had, rules, 2, takers);
    among(ask, rules, &firsts, &seconds, &thirds, takers)
}
