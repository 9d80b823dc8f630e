//! The few rules that close three cells together with rule r: the others are dropped by trial, from the
//! highest number down.
ghost use Rattle.std.specs.Prelude.{◌≡◌, Bool, true, ℕ, ◌<◌};
ghost use Rattle.book.specs.Sets.{has};
ghost use Rattle.blocked.specs.Few.{after_trials, without};
ghost use Rattle.blocked.specs.Inner.Few.{Dropped, Keeps, Told};
ghost use Rattle.blocked.specs.Inner.Tables.{CellsBy, OneBy, ToldBy};

use crate::cells::only_cell;
use crate::searching::closed_third;
use crate::tables::{Row, Tables};
use crate::users::Denial;
use book::sets::{contains, single};

/// The rules that are left of some once rule q has been tried: it is dropped where a cell of the third
/// places stays closed without it. Rule r is not tried.
fn dropped(
    tables: &Tables,
    row: Row,
    thirds: &[u64; 33],
    r: u8,
    q: u8,
    rules: u64,
    hint: &mut u8,
) -> u64
    ensures { (passes : (ℕ → Bool) → Bool) (n counts : ℕ) → q < 32
        → OneBy tables.now row thirds.now n counts → ToldBy tables.now row thirds.now n r counts passes
        → Keeps r counts rules → Dropped passes r counts q rules result }
{
    if (q == r) | !contains(rules, usize::from(q)) {
        return rules;
    }
    let fewer = rules & !single(usize::from(q));
    match closed_third(tables, row, fewer, thirds, hint) {
        Some(_) => fewer,
        None => rules,
    }
}

/// The rules that are left of those that count, but for r.
pub fn few(tables: &Tables, r: u8, rules: u64, denial: Denial) -> u64
    ensures { (passes : (ℕ → Bool) → Bool)
        → CellsBy tables.now denial rules → has rules r ≡ true
        → Told tables.now.rules tables.now.scope denial.first denial.second denial.third r rules passes
        → (q : ℕ) → has result q ≡ after_trials passes 32 (without (has rules) r) q }
{
    let thirds = only_cell(&tables.scope.thirds, denial.third);
    let row = Row {
        first: denial.first,
        second: denial.second,
    };
    let mut hint = 0u8;
    let mut left = rules;
    for q in (0..32u8).rev() {
        left = dropped(tables, row, &thirds, r, q, left, &mut hint);
    }
    left & !single(usize::from(r))
}
