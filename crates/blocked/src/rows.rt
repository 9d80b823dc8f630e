//! A row: the third cells that stay closed beside a first and a second cell. One place of the first
//! cell after the other opens some of them.
ghost use Rattle.std.specs.Prelude.{◌<◌};
ghost use Rattle.book.specs.Sets.{has};
ghost use Rattle.blocked.specs.Inner.Cells.{past_cells};
ghost use Rattle.blocked.specs.Inner.Pairs.{Asked, Prepared, SecondPairs};
ghost use Rattle.blocked.specs.Inner.Tables.{LeftBy, PreparedBy, TriedBy};

use crate::cells::{cell_word, inside, remove_cell};
use crate::pairs::{fill_slices, row_masks, some_accepted};
use crate::tables::{Row, Tables};
use search::places::{first_from, is_empty};
use search::tables::spread;

/// The pairs of a second place of cell m and any third operation.
fn second_pairs(seconds: &[u64; 33], m: usize) -> [u64; 4]
    ensures { m < past_cells → SecondPairs seconds.now m result }
{
    let word = cell_word(seconds, m);
    [
        spread(word),
        spread(word >> 4),
        spread(word >> 8),
        spread(word >> 12),
    ]
}

/// Takes out each cell that some pair opens, and tells whether there is one. Nothing is promised of
/// that: it only says where to look first.
fn remove_open(
    places: &mut [u64; 33],
    s: &[[[u64; 4]; 32]; 6],
    met: &[[u64; 3]; 132],
    masks: &[u64; 6],
    pairs: &[u64; 4],
) -> bool
    ensures { Asked s.now met.now masks.now pairs.now past_cells places.old places.new }
{
    let mut opens = false;
    // From one place that is left to the next: to ask all 132 cells costs more.
    let mut next = first_from(places, 0);
    while let Some(x) = next {
        let n = x / 16;
        if some_accepted(s, &met[n], masks, pairs, cell_word(places, n)) {
            remove_cell(places, n);
            opens = true;
        }
        next = first_from(places, 16 * n + 16);
    }
    opens
}

/// Takes out the third cells that the k-th place of the row's first cell opens, and tells as above
/// whether there is one.
fn tried(tables: &Tables, row: Row, rules: u64, k: u8, places: &mut [u64; 33]) -> bool
    ensures { row.first < past_cells → row.second < past_cells → k < 16
        → Prepared tables.now.rules tables.now.met (has rules) tables.now.scope.seconds places.old
        → TriedBy tables.now row rules k places.old places.new }
{
    let a = 16 * (row.first % 256) + usize::from(k % 16);
    if !inside(&tables.scope.firsts, a) {
        return false;
    }
    let masks = row_masks(&tables.rules, &tables.met, rules, a, row.second);
    let mut slices = [[[0u64; 4]; 32]; 6];
    fill_slices(&mut slices, &tables.rules, &masks, a);
    let pairs = second_pairs(&tables.scope.seconds, row.second);
    remove_open(places, &slices, &tables.met, &masks, &pairs)
}

/// Of some third places those that are left, by whole cells, when every place of the row's first cell
/// has been tried: these stay closed. The first to open something is tried first the next time.
pub fn closed_row(
    tables: &Tables,
    row: Row,
    rules: u64,
    thirds: &[u64; 33],
    hint: &mut u8,
) -> [u64; 33]
    ensures { row.first < past_cells → row.second < past_cells
        → PreparedBy tables.now (has rules) thirds.now
        → LeftBy tables.now row rules thirds.now result }
{
    let from = *hint % 16;
    let mut places = *thirds;
    let mut opener: Option<u8> = None;
    for j in 0..16u8 {
        if is_empty(&places) {
            break;
        }
        let k = (from + j) % 16;
        let opens = tried(tables, row, rules, k, &mut places);
        opener = opener.or(opens.then_some(k));
    }
    *hint = opener.unwrap_or(from);
    places
}
