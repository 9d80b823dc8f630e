//! The shown plan of a choice, and where it goes.
ghost use Rattle.std.specs.Prelude.{◌≡◌, [], ◌∷◌, ◌++◌, ◌+◌, ◌*◌, ◌≤◌, ◌<◌, take};
ghost use Rattle.search.specs.Inner.Places.{choice_at, rows_for};
ghost use Rattle.search.specs.Inner.First.{WithAccess, PlanCopied};
ghost use Rattle.search.specs.Shown.{column_for, function_for, last_row, shown_plan};

use crate::places::{NOWHERE, Places, rows_at};
use book::fields::{column_count, function_count, operation};
use book::sets::contains;
use lineage::reach::label_set;

/// The lowest column with a label.
fn column_for(head: &[u8], d: usize) -> u8
    ensures { d < 64 → result ≡ column_for head.now d }
{
    // 0 where there is none, as the definition says. A count is a byte, so `as u8` fits, as below.
    (0..column_count(head) as u8)
        .find(|c| contains(label_set(head, *c), d))
        .unwrap_or(0)
}

/// The lowest function with an operation.
fn function_for(head: &[u8], k: usize) -> u8
    ensures { result ≡ function_for head.now k }
{
    (0..function_count(head) as u8)
        .find(|f| operation(head, *f) == k)
        .unwrap_or(0)
}

// The kinds' numbers, as bytes of the format: in the engine only this writes a plan.

/// Row n of a plan.
fn write_row(plan: &mut [u8; 36], n: usize, row: [u8; 4])
    ensures { n < 9 → take (4 * n + 4) plan.new ≡ take (4 * n) plan.old ++ row }
{
    if n < 9 {
        plan[4 * n..4 * n + 4].copy_from_slice(&row);
    }
}

/// The last row for an access, which names the row before it.
fn write_last(plan: &mut [u8; 36], before: usize, channel: usize)
    ensures { before < 8 → take (4 * before + 8) plan.new ≡ take (4 * before + 4) plan.old ++ last_row before channel }
{
    if before < 8 {
        let kind = if channel == 0 { 4 } else { 5 };
        write_row(plan, before + 1, [kind, before as u8, 0, 0]);
    }
}

/// The rows for the access at place p, from row n on.
fn write_access(head: &[u8], plan: &mut [u8; 36], n: usize, p: usize)
    ensures { WithAccess head.now n p plan.old plan.new }
{
    if NOWHERE <= p || 8 <= n {
        return;
    }
    write_row(plan, n, [1, column_for(head, p / 16 % 64), 0, 0]);
    if p % 16 == 0 {
        write_last(plan, n, p / 1024);
    } else {
        write_row(plan, n + 1, [2, function_for(head, p % 16), n as u8, 255]);
        write_last(plan, n + 1, p / 1024);
    }
}

/// The rows of the shown plan of the choice at three places.
pub fn row_count(places: Places) -> usize
    ensures { (result ≡ rows_for places.first places.second places.third) × (result ≤ 9) }
{
    rows_at(places.first) + (rows_at(places.second) + rows_at(places.third))
}

/// The shown plan of the choice at three places, and what is past it.
pub fn shown_plan(head: &[u8], places: Places) -> [u8; 36]
    ensures { take (4 * rows_for places.first places.second places.third) result
        ≡ shown_plan head.now (choice_at places.first places.second places.third) }
{
    let one = rows_at(places.first);
    let two = one + rows_at(places.second);
    let mut plan = [0; 36];
    write_access(head, &mut plan, 0, places.first);
    write_access(head, &mut plan, one, places.second);
    write_access(head, &mut plan, two, places.third);
    plan
}

/// The first bytes of a plan, at the buffer's front.
pub fn write_plan(buffer: &mut [u8], plan: &[u8; 36], count: usize)
    ensures { PlanCopied plan.now count buffer.old buffer.new }
{
    let count = count.min(plan.len());
    if count <= buffer.len() {
        buffer[..count].copy_from_slice(&plan[..count]);
    }
}
