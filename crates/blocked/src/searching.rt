//! Rows, for one set of rules: the first third cell beside a first and a second cell that stays
//! closed.
ghost use Rattle.book.specs.Sets.{has};
ghost use Rattle.blocked.specs.Inner.Tables.{PreparedBy, ThereBy, ThirdBy};

use crate::rows::closed_row;
use crate::tables::{Row, Tables};
use search::places::first_from;

/// The first cell of some third places that some rules close in a row. The search begins where the
/// hint says, and leaves there where to begin the next one; no promise speaks of it.
pub fn closed_third(
    tables: &Tables,
    row: Row,
    rules: u64,
    thirds: &[u64; 33],
    hint: &mut u8,
) -> Option<usize>
    ensures { PreparedBy tables.now (has rules) thirds.now → ThereBy tables.now row
        → ThirdBy tables.now row (has rules) thirds.now result }
{
    let rest = closed_row(tables, row, rules, thirds, hint);
    let x = first_from(&rest, 0)?;
    Some(x / 16)
}
