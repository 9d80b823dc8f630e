//! The first choice with the fewest functions, for the user that the search found. What the search
//! found is the first in document 01's order, so only lighter choices can come before it; they are
//! looked for weight by weight.
ghost use Rattle.std.specs.Prelude.{◌≡◌, ◌≤◌};
ghost use Rattle.search.specs.Inner.Search.{asked, NeedsFirst, triple_before};
ghost use Rattle.search.specs.Inner.Weight.{functions_at, lighter_places, solves_among, PartOf, SetsFor, Earlier};
ghost use Rattle.search.specs.Inner.Weight.{FirstOfPattern, FirstOfWeight, LightestOf};

use crate::places::Places;
use crate::searching::{alone, among, take_operations};
use crate::sifting::Takers;
use crate::tables::Question;
use crate::users::{Witness, others};

/// The places that can be chosen for each reference, less what breaks a rule by itself; and which
/// rule took last.
#[derive(Clone, Copy)]
pub struct Sets {
    pub firsts: [u64; 33],
    pub seconds: [u64; 33],
    pub thirds: [u64; 33],
    pub last: u8,
}

/// The bits of a word of places with operation 0, that of an absent reference among them.
const RAW: u64 = 0x0001000100010001;

/// The functions of the access at a place.
fn functions_at(p: usize) -> usize
    ensures { (result ≡ functions_at p) × (result ≤ 1) }
{
    if p % 16 == 0 { 0 } else { 1 }
}

/// The places of a set with a function where a pattern's lowest bit is set, or else those without.
fn part(set: &[u64; 33], pattern: u8) -> [u64; 33]
    ensures { PartOf set.now pattern result }
{
    let mut part = *set;
    take_operations(&mut part, if pattern % 2 == 0 { !RAW } else { RAW });
    part
}

/// The first three places with functions as a pattern says: bit 2 for the first, 1 for the second, 0
/// for the third.
fn of_pattern(ask: &Question, rules: u64, sets: &Sets, pattern: u8) -> Option<Places>
    ensures { asked FirstOfPattern ask.now rules sets.now pattern result }
{
    let mut takers = Takers {
        rules: 0,
        last: sets.last,
    };
    among(
        ask,
        rules,
        &part(&sets.firsts, pattern / 4),
        &part(&sets.seconds, pattern / 2),
        &part(&sets.thirds, pattern),
        &mut takers,
    )
}

/// The earlier of two.
fn earlier(one: Option<Places>, other: Option<Places>) -> Option<Places>
    ensures { Earlier one other result }
{
    match (one, other) {
        (None, _) => other,
        (_, None) => one,
        (Some(a), Some(b)) => if b < a { other } else { one },
    }
}

/// The first three places with so many functions.
fn of_weight(ask: &Question, rules: u64, sets: &Sets, weight: usize) -> Option<Places>
    ensures { asked FirstOfWeight ask.now rules sets.now weight result }
{
    let mut found = None;
    // A loop: a chain that ends in `min` or `fold` would be no plainer.
    for pattern in 0..8u8 {
        let functions = pattern / 4 % 2 + (pattern / 2 % 2 + pattern % 2);
        if usize::from(functions) == weight {
            found = earlier(found, of_pattern(ask, rules, sets, pattern));
        }
    }
    found
}

/// The first three places with as few functions as any, if some have fewer than so many.
fn lightest(ask: &Question, rules: u64, sets: &Sets, most: usize) -> Option<Places>
    ensures { LightestOf (asked solves_among ask.now rules sets.now) most result }
{
    // A loop: std has no lemma for `find_map` over a range.
    for weight in 0..most {
        let found = of_weight(ask, rules, sets, weight);
        if found.is_some() {
            return found;
        }
    }
    None
}

/// The candidates of the three references, less what breaks a rule by itself.
fn candidate_sets(ask: &Question, had: [u64; 32], rules: u64) -> Sets
    ensures { asked SetsFor ask.now had rules result }
{
    let mut takers = Takers { rules: 0, last: 0 };
    let firsts = alone(ask, had, rules, 0, &mut takers);
    let seconds = alone(ask, had, rules, 1, &mut takers);
    let thirds = alone(ask, had, rules, 2, &mut takers);
    Sets {
        firsts,
        seconds,
        thirds,
        last: takers.last,
    }
}

// `had` by value, here and above: a form that document 01 names.
/// The same user with the first of the choices that have the fewest functions.
pub fn fewest(
    ask: &Question,
    had: [u64; 32],
    covered: &[u64; 32],
    found: Option<Witness>,
) -> Option<Witness>
    ensures { asked (NeedsFirst triple_before) ask.now had covered.now found
        → asked (NeedsFirst lighter_places) ask.now had covered.now result }
{
    let Witness { user, places } = found?;
    let functions = functions_at(places.first)
        + (functions_at(places.second) + functions_at(places.third));
    if functions == 0 {
        return found;
    }
    let rules = others(covered, ask.rule, user);
    let sets = candidate_sets(ask, had, rules);
    let lighter = lightest(ask, rules, &sets, functions);
    Some(Witness {
        user,
        places: lighter.unwrap_or(places),
    })
}
