//! The first user for whom some association is closed. The rows are gone through once, and in each the
//! users that come before the one found so far. Where a set of rules leaves a row open, every part of
//! it does: so the rules of many users are tried together, and a user all of whose rules are in a set
//! that left the row open needs no search.
ghost use Rattle.std.specs.Prelude.{◌≡◌, ◌&&◌, ℕ, ◌+◌, ◌*◌, ◌≤◌, ◌<◌, ltb, IfSome};
ghost use Rattle.std.specs.Int.Bits.{bit_and};
ghost use Rattle.std.specs.List.{list_all, list_any};
ghost use Rattle.book.specs.Sets.{has};
ghost use Rattle.search.specs.Inner.Search.{covers_in};
ghost use Rattle.blocked.specs.Inner.Cells.{past_cells};
ghost use Rattle.blocked.specs.Inner.Rows.{lies_within};
ghost use Rattle.blocked.specs.Inner.Users.{covering_rules, limit_of, OwnRules};
ghost use Rattle.blocked.specs.Inner.Tables.{AllOpenBy, AskedBy, DeniedBy, FirstBy, GivenBy, OpenBy, ReadyBy, RowBy};
ghost use Rattle.blocked.specs.Inner.Tables.{UpToBy};

use crate::cells::{PAST_CELLS, has_cell};
use crate::searching::closed_third;
use crate::tables::{Row, Tables};
use book::sets::those_below;
use search::users::covers;

/// A user, and the three cells of its first association that stays closed.
#[derive(Clone, Copy)]
pub struct Denial {
    pub user: u8,
    pub first: usize,
    pub second: usize,
    pub third: usize,
}

// Two arrays and no array of pairs: `settled` and all promises read the open sets alone.
// The empty set and no `None`: it leaves each row open, so the promises take it like any other.
/// What is tried in a row: for each user, and at 32 for all together, a set of rules that leaves the
/// row open, the empty one where none is known; the set that it is tried with; where to look first.
/// Promises speak of the open sets alone.
#[derive(Clone, Copy)]
pub struct Trials {
    pub opened: [u64; 33],
    pub joined: [u64; 33],
    pub hint: u8,
}

/// The rules that cover user u.
pub fn covering(covered: &[u64; 32], u: u8) -> u64
    ensures { (q : ℕ) → has result q ≡ (ltb q 32 && covering_rules covered.now u q) }
{
    those_below(32, |q| covers(covered, q, u))
}

/// The rules that cover user u, if r is one of them; otherwise none.
fn rules_for(covered: &[u64; 32], r: u8, u: u8) -> u64
    ensures { (q : ℕ) → has result q ≡ (covers_in covered.now r u && (ltb q 32 && covering_rules covered.now u q)) }
{
    if covers(covered, r, u) {
        return covering(covered, u);
    }
    0
}

/// The same for each user.
fn own_rules(covered: &[u64; 32], r: u8) -> [u64; 32]
    ensures { OwnRules r covered.now result }
{
    let mut own = [0u64; 32];
    // By index: the user's number is what is asked about.
    for u in 0..32u8 {
        own[usize::from(u)] = rules_for(covered, r, u);
    }
    own
}

/// The rules of all users. No promise: they are only tried.
fn joint(own: &[u64; 32]) -> u64 {
    let mut found = 0u64;
    for rules in own {
        found |= *rules;
    }
    found
}

/// Some of all rules, if they leave a row open.
fn open_under(tables: &Tables, row: Row, rules: u64, hint: &mut u8) -> Option<u64>
    ensures { RowBy tables.now row
        → IfSome result (λ some. OpenBy tables.now row some) }
{
    let some = tables.all & rules;
    match closed_third(tables, row, some, &tables.scope.thirds, hint) {
        Some(_) => None,
        None => Some(some),
    }
}

// search's `settled` asks the other way round: whether one of the sets is among the rules.
/// Whether all rules of a set are in one of the sets: it spares a search.
fn settled(sets: &[u64; 33], rules: u64) -> bool
    ensures { result ≡ list_any (λ set. lies_within rules set) sets.now }
{
    sets.iter().any(|set| rules | *set == *set)
}

/// Whether those of all rules that are a user's are in a set, for every user.
fn all_settled(own: &[u64; 32], all: u64, set: u64) -> bool
    ensures { result ≡ list_all (λ rules. lies_within (bit_and all rules) set) own.now }
{
    own.iter().all(|rules| all & *rules | set == set)
}

/// Adds a user's rules that leave a row open to the sets that do: in the set of another user that was
/// tried with the same rules, if the row stays open; otherwise alone.
fn add_rules(tables: &Tables, row: Row, u: u8, rules: u64, trials: &mut Trials)
    ensures { RowBy tables.now row
        → OpenBy tables.now row rules
        → AllOpenBy tables.now row trials.old.opened
        → AllOpenBy tables.now row trials.new.opened }
{
    let own = usize::from(u % 32);
    // By index: the sets and those they are tried with go in step, and one of them is changed.
    for d in 0..32usize {
        if (trials.joined[d] != trials.joined[own]) | (trials.opened[d] == 0) {
            continue;
        }
        if let Some(wider) = open_under(tables, row, trials.opened[d] | rules, &mut trials.hint) {
            trials.opened[d] = wider;
            return;
        }
    }
    trials.opened[own] = rules;
}

/// The first third cell of a row that is closed to user u.
fn closed_to(tables: &Tables, row: Row, u: u8, rules: u64, trials: &mut Trials) -> Option<usize>
    ensures { RowBy tables.now row
        → AllOpenBy tables.now row trials.old.opened
        → AskedBy tables.now row (bit_and tables.now.all rules) trials.new.opened result }
{
    let own = tables.all & rules;
    if settled(&trials.opened, own) {
        return None;
    }
    let at = usize::from(u % 32);
    let open = open_under(tables, row, trials.joined[at], &mut trials.hint);
    trials.opened[at] = open.unwrap_or(0);
    if settled(&trials.opened, own) {
        return None;
    }
    match closed_third(tables, row, own, &tables.scope.thirds, &mut trials.hint) {
        Some(third) => Some(third),
        None => {
            add_rules(tables, row, u, own, trials);
            None
        }
    }
}

/// The first user below a limit to whom a row is closed.
fn denied_in(
    tables: &Tables,
    row: Row,
    own: &[u64; 32],
    limit: u8,
    trials: &mut Trials,
) -> Option<Denial>
    ensures { RowBy tables.now row
        → limit ≤ 32 → DeniedBy tables.now row own.now limit result }
{
    let open = open_under(tables, row, trials.joined[32], &mut trials.hint);
    let every = open.unwrap_or(0);
    trials.opened = [0; 33];
    trials.opened[32] = every;
    if all_settled(own, tables.all, every) {
        return None;
    }
    for u in 0..limit.min(32) {
        if let Some(third) = closed_to(tables, row, u, own[usize::from(u)], trials) {
            return Some(Denial {
                user: u,
                first: row.first,
                second: row.second,
                third,
            });
        }
    }
    None
}

/// Parts the sets that the users are tried with in the next row: one under which this row is not open
/// is parted as the row parted it.
fn part(own: &[u64; 32], trials: &mut Trials) {
    if trials.opened[32] != 0 {
        return;
    }
    let before = trials.joined;
    // By index: four arrays go in step, and one of them is changed.
    for u in 0..32usize {
        for d in 0..32usize {
            let open = trials.opened[d];
            if (before[d] == before[u]) & (open != 0) & (own[u] & !open == 0) {
                trials.joined[u] = open;
            }
        }
    }
}

/// The users before whom others are looked for: all, where none is found yet.
fn limit_of(found: Option<Denial>) -> u8
    ensures { result ≡ limit_of found }
{
    match found {
        Some(denial) => denial.user,
        None => 32,
    }
}

/// The first user to whom one of some rows, or one row more, is closed.
fn denied_by_row(
    tables: &Tables,
    row: Row,
    own: &[u64; 32],
    before: Option<Denial>,
    trials: &mut Trials,
) -> Option<Denial>
    ensures { RowBy tables.now row
        → UpToBy tables.now own.now (past_cells * row.first + row.second) before
        → UpToBy tables.now own.now (past_cells * row.first + (row.second + 1)) result }
{
    let earlier = denied_in(tables, row, own, limit_of(before), trials);
    part(own, trials);
    earlier.or(before)
}

/// The same for the rows beside first cell l.
fn denied_beside(
    tables: &Tables,
    own: &[u64; 32],
    l: usize,
    before: Option<Denial>,
    trials: &mut Trials,
) -> Option<Denial>
    ensures { GivenBy tables.now → l < past_cells
        → UpToBy tables.now own.now (past_cells * l) before
        → UpToBy tables.now own.now (past_cells * (l + 1)) result }
{
    if !has_cell(&tables.scope.firsts, l) {
        return before;
    }
    let mut found = before;
    for m in 0..PAST_CELLS {
        if !has_cell(&tables.scope.seconds, m) {
            continue;
        }
        let row = Row {
            first: l,
            second: m,
        };
        found = denied_by_row(tables, row, own, found, trials);
    }
    found
}

/// The first user, and the first cells for it, by the tables.
pub fn first_denied(tables: &Tables, r: u8) -> Option<Denial>
    ensures { ReadyBy tables.now → FirstBy tables.now r result }
{
    let own = own_rules(&tables.covered, r);
    let mut trials = Trials {
        opened: [0; 33],
        joined: [joint(&own); 33],
        hint: 0,
    };
    let mut found: Option<Denial> = None;
    for l in 0..PAST_CELLS {
        found = denied_beside(tables, &own, l, found, &mut trials);
    }
    found
}
