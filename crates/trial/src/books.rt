//! Books to try: the small shop of document 01, with bytes changed.
//!
//! Edits are text: a block, an offset in it, a byte, and how many times it stands there where that is
//! not once; commas between the edits.
use crate::numbers::{Numbers, each};
use crate::text::cut;
use book::seal;

// By value: what tries the calls may copy, and a lent buffer would be no plainer.
/// One block more than the longest book has.
pub type Blocks = [[u8; 512]; 37];

/// Zeros alone.
pub const ZEROS: Blocks = [[0; 512]; 37];

/// Makes one edit. What is no byte, or past the end, is malformed; the rest is written all the same.
fn change(blocks: &mut Blocks, edit: &Numbers) -> bool {
    if !edit.within(3, 4) {
        return false;
    }
    let bytes = blocks.as_flattened_mut();
    let start = 512 * edit.length(0, 0) + edit.length(1, 0);
    let count = edit.length(3, 1);
    let end = start + count;
    let length = bytes.len();
    let Ok(byte) = u8::try_from(edit.number(2)) else {
        return count == 0;
    };
    if let Some(part) = bytes.get_mut(start..end.min(length)) {
        part.fill(byte);
    }
    end <= length || count == 0
}

/// Makes edits; false where one is malformed.
pub fn edit(blocks: &mut Blocks, edits: &[u8]) -> bool {
    each(edits, blocks, change)
}

/// The small shop, unsealed, with copies of its rule 2 up to the end.
fn shop() -> Blocks {
    let mut blocks = ZEROS;
    edit(
        &mut blocks,
        b"
        0 0 1, 0 1 3,
        1 0 2, 1 1 5, 1 8 1, 1 11 1, 1 16 6,
        2 0 3, 2 1 4, 2 2 2, 2 3 3, 2 4 4, 2 5 255,
        3 0 4, 3 1 3, 3 3 1, 3 4 2,
        4 0 5, 4 1 2, 4 8 1, 4 16 1 2, 4 32 4, 4 33 1, 4 67 6,
        5 0 5, 5 1 1, 5 8 1, 5 16 4, 5 17 3, 5 65 2,
        6 0 5, 6 1 2, 6 2 1, 6 8 1, 6 16 1 2, 6 32 4, 6 33 1, 6 67 2
        ",
    );
    let rule = blocks[6];
    blocks[7..].fill(rule);
    blocks
}

// A flag beside the blocks and no `Result`: what is malformed is tried too.
/// The small shop with the edits of a table and those of a case, sealed, and with those that stand
/// after a bar, made after that; and whether all of them are well formed.
pub fn build(common: &[u8], edits: &[u8]) -> (Blocks, bool) {
    let (before, after) = cut(edits, b'|');
    let mut blocks = shop();
    let mut sound = edit(&mut blocks, common);
    sound &= edit(&mut blocks, before);
    for block in &mut blocks {
        let _ = seal(block);
    }
    sound &= edit(&mut blocks, after);
    (blocks, sound)
}
