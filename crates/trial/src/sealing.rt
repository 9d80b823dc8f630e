//! Seal. A case has a length and the edits of a space of zeros, of which the first bytes are sealed,
//! twice, and all of it compared with what it was. A check holds where Book check does not refuse
//! block 0 for it: the space has the length of a book.
use crate::answers::{Answer, Malformed, Refused, Text, either};
use crate::books::{ZEROS, edit};
use crate::calls::{Line, Table};
use crate::numbers;
use crate::records::Records;
use crate::text::{cut, front, rest};
use book::{Refusal, check, seal};

fn check_holds(space: &[u8]) -> bool {
    check(front(space, 2048)) != Err(Refusal::BlockCheck { block: 0 })
}

/// Whether all is as it was but for the bytes of the check.
fn others_kept(space: &[u8], first: &[u8]) -> bool {
    front(space, 510) == front(first, 510) && rest(space, 512) == rest(first, 512)
}

/// What Seal answered, and what became of the space's other bytes.
fn said(sealed: Result<(), Refusal>, space: &[u8], first: &[u8], again: &str) -> Text {
    match sealed {
        Ok(()) => {
            let stored = match rest(space, 510) {
                [high, low, ..] => u16::from_be_bytes([*high, *low]),
                _ => 0,
            };
            let holds = either(check_holds(space), "holds", "fails");
            let others = either(others_kept(space, first), "unchanged", "changed");
            Text::of(format_args!(" done, check {stored} {holds}, other bytes {others}, {again}"))
        }
        Err(refusal) => {
            let kept = either(space == first, "unchanged", "changed");
            Text::of(format_args!("{}, {kept}, {again}", Refused(refusal)))
        }
    }
}

/// The cases of Seal.
pub struct Seal;

impl Table for Seal {
    type Kept = Records;

    fn tried(line: &Line<'_>, _: &mut Records) -> Answer {
        let (numbers, edits) = cut(line.parts, b'|');
        let mut blocks = ZEROS;
        let sound = edit(&mut blocks, edits);
        let length = match numbers::read(numbers) {
            Some(numbers) if sound && numbers.within(1, 1) => numbers.length(0, 0),
            _ => return Err(Malformed),
        };
        let first = blocks;
        let Some(lent) = blocks.as_flattened_mut().get_mut(..length) else {
            return Err(Malformed);
        };
        let sealed = seal(lent);
        let once = blocks;
        if let Some(lent) = blocks.as_flattened_mut().get_mut(..length) {
            let _ = seal(lent);
        }
        let again = either(
            blocks == once,
            "the same when sealed again",
            "not the same when sealed again",
        );
        Ok(said(sealed, once.as_flattened(), first.as_flattened(), again))
    }
}
