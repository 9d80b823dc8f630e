//! Ask, commit and drop. A case has the user, for a commit or a drop the number, then the book's length in
//! bytes and the ledger's in words where those are not seven blocks and 1024, and for an ask the length at
//! which the plan is cut, where it is. It finds the records as the case before it left them. An answer is
//! a refusal; or what is replied, the user's counts, after a commit his words, and every place that is not
//! what it was. At the end it says whether all else is kept: the words, also behind the ledger, and the
//! counts of others.
use crate::accesses::Accesses;
use crate::answers::{Answer, Malformed, Refused, Text, either};
use crate::calls::{Call, Case, Line, Table};
use crate::records::Records;
use crate::text::{cut, front, rest};
use book::Refusal;
use ledger::{Asked, Holds, Tally, ask, commit, drop_hold};
use std::fmt;

/// The 32 words of a user, or of a place.
fn words_of(words: &[u64], user: usize) -> &[u64] {
    front(rest(words, user.saturating_mul(32)), 32)
}

/// How many of a user's plans were admitted, declined and dropped.
fn counts_of(tally: &Tally, user: usize) -> [Option<u32>; 3] {
    [
        tally.admitted.get(user).copied(),
        tally.declined.get(user).copied(),
        tally.dropped.get(user).copied(),
    ]
}

/// A place of the hold record.
#[derive(Clone, Copy, PartialEq)]
struct Place<'a> {
    user: u32,
    number: u32,
    words: &'a [u64],
}

fn place_of(holds: &Holds, i: usize) -> Place<'_> {
    Place {
        user: holds.users.get(i).copied().unwrap_or(0),
        number: holds.numbers.get(i).copied().unwrap_or(0),
        words: words_of(&holds.words, i),
    }
}

impl fmt::Display for Place<'_> {
    fn fmt<W: fmt::Write>(&self, f: &mut fmt::Formatter<W>) -> fmt::Result {
        let Place {
            user,
            number,
            words,
        } = *self;
        if user == 0 && number == 0 && words.iter().all(|word| *word == 0) {
            return f.write_str(" empty");
        }
        write!(f, " user {user} number {number}{}", Accesses(words))
    }
}

/// What a call leaves, beside what it found.
#[derive(Clone, Copy)]
struct Change<'a> {
    user: usize,
    /// Whether what the user has seen may grow.
    commits: bool,
    first: &'a Records,
    now: &'a Records,
}

impl Change<'_> {
    fn same_counts(&self, user: usize) -> bool {
        counts_of(&self.first.tally, user) == counts_of(&self.now.tally, user)
    }

    fn same_place(&self, i: usize) -> bool {
        place_of(&self.first.holds, i) == place_of(&self.now.holds, i)
    }

    fn all_kept(&self) -> bool {
        self.first.words == self.now.words
            && (0..32).all(|user| self.same_counts(user))
            && (0..8).all(|i| self.same_place(i))
    }

    /// Whether the words are what they were, but for the user's where a commit may join to them, and the
    /// counts of others.
    fn rest_kept(&self) -> bool {
        let mut same = (0..32).all(|user| user == self.user || self.same_counts(user));
        for (i, (first, now)) in self.first.words.iter().zip(&self.now.words).enumerate() {
            same &= *first == *now || (self.commits && i / 32 == self.user);
        }
        same
    }
}

impl fmt::Display for Change<'_> {
    fn fmt<W: fmt::Write>(&self, f: &mut fmt::Formatter<W>) -> fmt::Result {
        f.write_str(", tally")?;
        for count in counts_of(&self.now.tally, self.user) {
            write!(f, " {}", count.unwrap_or(0))?;
        }
        if self.commits {
            write!(
                f,
                ", words{}",
                Accesses(words_of(&self.now.words, self.user))
            )?;
        }
        // a place is named by its number
        for i in 0..8 {
            if !self.same_place(i) {
                write!(f, ", place {i}{}", place_of(&self.now.holds, i))?;
            }
        }
        write!(
            f,
            ", the rest {}",
            either(self.rest_kept(), "kept", "changed")
        )
    }
}

/// What an ask replied, as text.
#[derive(Clone, Copy)]
struct Replied(Asked);

impl fmt::Display for Replied {
    fn fmt<W: fmt::Write>(&self, f: &mut fmt::Formatter<W>) -> fmt::Result {
        match self.0 {
            Asked::Held(number) => write!(f, "held {number}"),
            Asked::Declined(mask) => write!(f, "declined {mask}"),
        }
    }
}

/// The number that is committed or dropped, as text.
#[derive(Clone, Copy)]
struct Settled(u32);

impl fmt::Display for Settled {
    fn fmt<W: fmt::Write>(&self, f: &mut fmt::Formatter<W>) -> fmt::Result {
        write!(f, "settled {}", self.0)
    }
}

/// What is replied, and what has changed.
fn said<R: fmt::Display + Drop>(
    case: &Case<'_>,
    commits: bool,
    replied: Result<R, Refusal>,
    first: &Records,
    records: &Records,
) -> Text {
    let change = Change {
        user: case.numbers.length(0, 0),
        commits,
        first,
        now: records,
    };
    match replied {
        Ok(reply) => Text::of(format_args!(" {reply}{change}")),
        Err(refusal) => {
            let kept = either(change.all_kept(), "all kept", "not all kept");
            Text::of(format_args!("{}, {kept}", Refused(refusal)))
        }
    }
}

struct Ask;

impl Call for Ask {
    type Kept = Records;

    const ROWS: bool = true;

    const LEAST: usize = 1;

    const MOST: usize = 4;

    fn answered(case: &Case<'_>, records: &mut Records) -> Answer {
        let user = case.numbers.number(0);
        let first = *records;
        let Some(words) = records.words.get(..case.numbers.length(2, 1024)) else {
            return Err(Malformed);
        };
        let asked = ask(
            case.book(1),
            user,
            case.plan(3),
            words,
            &mut records.tally,
            &mut records.holds,
        );
        let replied = asked.map(|asked| Replied(asked));
        Ok(said(case, false, replied, &first, records))
    }
}

struct Commit;

impl Call for Commit {
    type Kept = Records;

    const ROWS: bool = false;

    const LEAST: usize = 2;

    const MOST: usize = 4;

    fn answered(case: &Case<'_>, records: &mut Records) -> Answer {
        let user = case.numbers.number(0);
        let number = case.numbers.number(1);
        let first = *records;
        let Some(words) = records.words.get_mut(..case.numbers.length(3, 1024)) else {
            return Err(Malformed);
        };
        let settled = commit(
            case.book(2),
            user,
            number,
            words,
            &mut records.tally,
            &mut records.holds,
        );
        let replied = settled.map(|number| Settled(number));
        Ok(said(case, true, replied, &first, records))
    }
}

// Beside Commit and no plainer as one: a drop reads the words that a commit writes.
struct DropHold;

impl Call for DropHold {
    type Kept = Records;

    const ROWS: bool = false;

    const LEAST: usize = 2;

    const MOST: usize = 4;

    fn answered(case: &Case<'_>, records: &mut Records) -> Answer {
        let user = case.numbers.number(0);
        let number = case.numbers.number(1);
        let first = *records;
        let Some(words) = records.words.get(..case.numbers.length(3, 1024)) else {
            return Err(Malformed);
        };
        let settled = drop_hold(
            case.book(2),
            user,
            number,
            words,
            &mut records.tally,
            &mut records.holds,
        );
        let replied = settled.map(|number| Settled(number));
        Ok(said(case, false, replied, &first, records))
    }
}

/// Each case names its own call, that is the part before all others.
pub struct Reserve;

impl Table for Reserve {
    type Kept = Records;

    fn tried(line: &Line<'_>, records: &mut Records) -> Answer {
        let (name, parts) = cut(line.parts, b'|');
        let line = Line { parts, ..*line };
        // By name, as the cases are data: what the program takes may not change.
        match name {
            b" ask " => Ask::tried(&line, records),
            b" commit " => Commit::tried(&line, records),
            b" drop " => DropHold::tried(&line, records),
            _ => Err(Malformed),
        }
    }
}
