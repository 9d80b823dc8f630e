//! Which leaves reach each row of a plan, and with which operation: seventeen words a row. Word k is for
//! operation k. Leaves without an operation are in word 0 while they may take one, and in word 16 once
//! they have passed an Apply with two rows. One pass up the rows, whatever the number of paths.
ghost use Rattle.std.specs.Prelude.{◌≡◌, ℕ, ◌≤◌, ◌<◌, eqb, get_or, replicate};
ghost use Rattle.std.specs.Int.Bits.{bit_or};
ghost use Rattle.book.specs.Lists.{any};
ghost use Rattle.book.specs.Sets.{WordOf};
ghost use Rattle.book.specs.Inner.Words.{HeadWords};
ghost use Rattle.lineage.specs.Paths.{labels};
ghost use Rattle.lineage.specs.Inner.Table.{Brought, ByOperation, ColumnReached, Mixed, Operated};
ghost use Rattle.lineage.specs.Inner.Table.{PlanSound, Reached, RowStep, word};

use crate::rows::Row;
use book::fields::{label, operation};
use book::sets::{join, single};
use book::words::Words;

/// The labels of a column.
#[tactic(auto, using(crate::proofs::Steps::label_word))]
pub fn label_set(head: &[u8], column: u8) -> u64
    ensures { WordOf (λ d. any (eqb d) (labels head.now column)) result }
{
    single(label(head, column))
}

/// The words of row r joined to others; past the table's end there are none.
fn bring(row: &mut [u64; 17], reach: &[[u64; 17]; 64], r: u8)
    ensures { (w : ℕ) → w < 17 → get_or row.new w 0 ≡ bit_or (get_or row.old w 0) (word reach.now r w) }
{
    if let Some(below) = reach.get(usize::from(r)) {
        join(row, below);
    }
}

/// An Apply with one row, whose function has operation o: the leaves that support it and have none yet
/// take it.
#[tactic(auto, using(crate::proofs::Steps::operated_zero, crate::proofs::Steps::operated_past, crate::proofs::Steps::operated_some))]
fn operate(row: &mut [u64; 17], o: usize, supporting: &[u64; 16])
    ensures { Operated row.old o supporting.now row.new }
{
    if o == 0 || 16 <= o {
        return;
    }
    let taken = row[0] & supporting[o];
    row[0] &= !taken;
    row[o] |= taken;
}

/// An Apply with two rows: the leaves without an operation can take none any more.
#[tactic(auto, using(crate::proofs::Steps::mixed_row))]
fn mix(row: &mut [u64; 17])
    ensures { Mixed row.old row.new }
{
    row[16] |= row[0];
    row[0] = 0;
}

/// The words of a Column row.
fn column_reach(head: &[u8], column: u8) -> [u64; 17]
    ensures { ColumnReached head.now column result }
{
    let mut row = [0u64; 17];
    row[0] = label_set(head, column);
    row
}

/// The words of two rows, joined.
fn brought(reach: &[[u64; 17]; 64], first: u8, second: u8) -> [u64; 17]
    ensures { Brought reach.now first second result }
{
    let mut row = [0u64; 17];
    bring(&mut row, reach, first);
    bring(&mut row, reach, second);
    row
}

/// The words of row i, given those of the lower rows: no other row is read where the kind names none.
#[tactic(auto, using(crate::proofs::Steps::no_row_used, crate::proofs::Steps::no_row_unknown))]
fn row_reach(
    head: &[u8],
    plan: &[u8],
    supporting: &[u64; 16],
    reach: &[[u64; 17]; 64],
    i: u8,
) -> [u64; 17]
    ensures { RowStep head.now plan.now supporting.now reach.now i result }
{
    let Some(read) = Row::read(plan, i) else {
        return [0u64; 17];
    };
    match read {
        Row::Column { column } => column_reach(head, column),
        Row::Apply {
            function,
            first,
            second,
        } => match second {
            None => {
                let mut row = [0u64; 17];
                bring(&mut row, reach, first);
                operate(&mut row, operation(head, function), supporting);
                row
            }
            Some(second) => {
                let mut row = brought(reach, first, second);
                mix(&mut row);
                row
            }
        },
        Row::Choose { first, second, .. } => brought(reach, first, second),
        Row::Used { .. } => [0u64; 17],
    }
}

/// The leaves that reach row r, by operation: word 0 has all that have none.
pub fn by_operation(reach: &[[u64; 17]], r: u8) -> [u64; 16]
    ensures { ByOperation reach.now r result }
{
    let mut words = [0u64; 16];
    if let Some(row) = reach.get(usize::from(r)) {
        words.copy_from_slice(&row[..16]);
        words[0] |= row[16];
    }
    words
}

/// The words of the first n rows, from row 0 up, written where the caller keeps them: by value they
/// would be copied. The table is empty before.
pub fn fill_reach(reach: &mut [[u64; 17]; 64], head: &[u8], words: &Words, plan: &[u8], n: u8)
    ensures { HeadWords head.now words.now → PlanSound head.now plan.now
        → n ≤ 64 → reach.old ≡ replicate 64 (replicate 17 0)
        → Reached head.now plan.now n reach.new }
{
    let supporting = words.supporters();
    for i in 0..n.min(64) {
        let row = row_reach(head, plan, &supporting, reach, i);
        reach[usize::from(i)] = row;
    }
}
