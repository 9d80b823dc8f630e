//! Cells: the sixteen places of one action and leaf. Cell c has the places 16 × c to 16 × c + 15, and
//! 128 is the cell of an absent reference.
ghost use Rattle.std.specs.Prelude.{◌≡◌, ◌&&◌, not, ◌*◌, ◌/◌, ◌<◌, eqb};
ghost use Rattle.search.specs.Inner.Places.{in_places, past_places, PlacesOf};
ghost use Rattle.blocked.specs.Inner.Cells.{in_cell, past_cells};
ghost use Rattle.blocked.specs.Inner.Pairs.{CellOperations};

use book::sets::contains;
use search::places::PAST_PLACES;

/// One past the last cell that 33 words have room for.
pub const PAST_CELLS: usize = 132;

// Places and cells stay numbers: a narrower type would ask more of these public functions.

/// Whether a place is in a set.
pub fn inside(set: &[u64; 33], p: usize) -> bool
    ensures { p < past_places → result ≡ in_places set.now p }
{
    if PAST_PLACES <= p {
        return false;
    }
    contains(set[p / 64], p % 64)
}

/// Whether some place of cell c is in a set.
pub fn has_cell(set: &[u64; 33], c: usize) -> bool
    ensures { c < past_cells → result ≡ in_cell set.now c }
{
    cell_word(set, c) != 0
}

/// The operations with which the places of cell c are in a set.
pub fn cell_word(set: &[u64; 33], c: usize) -> u64
    ensures members { c < past_cells → CellOperations set.now c result }
    ensures small { result < 65536 }
{
    if PAST_CELLS <= c {
        return 0;
    }
    (set[c / 4] >> (16 * (c % 4))) % 65536
}

/// Takes cell c out of a set.
pub fn remove_cell(set: &mut [u64; 33], c: usize)
    ensures { c < past_cells → PlacesOf (λ p. in_places set.old p && not (eqb (p / 16) c)) set.new }
{
    if PAST_CELLS <= c {
        return;
    }
    set[c / 4] &= !(65535u64 << (16 * (c % 4)));
}

/// The places of cell c in a set.
pub fn only_cell(set: &[u64; 33], c: usize) -> [u64; 33]
    ensures { c < past_cells → PlacesOf (λ p. in_places set.now p && eqb (p / 16) c) result }
{
    let mut rest = [0u64; 33];
    if PAST_CELLS <= c {
        return rest;
    }
    rest[c / 4] = set[c / 4] & (65535u64 << (16 * (c % 4)));
    rest
}
