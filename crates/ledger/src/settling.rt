//! Commit and Drop: a held plan is admitted or forgotten, and its place is free for the next.
ghost use Rattle.std.specs.Prelude.{◌≡◌, ◌<◌, Ok, Err, IfOk};
ghost use Rattle.book.specs.Tests.{answered};
ghost use Rattle.ledger.specs.Places.{place_of};
ghost use Rattle.ledger.specs.Answers.{commit_ledger, commit_tally, drop_tally, settle_answer, settle_holds, settle_tests};
ghost use Rattle.ledger.specs.Histories.{Commit, Drop};
ghost use Rattle.ledger.specs.Demand.{Continues, SettleAccepted};

use crate::words::{join_words, test_ledger, words_of};
use crate::{Holds, Tally};
use book::{Book, Refusal};
use verdicts::judging::test_user;

/// What committing and dropping test: the place of the number that the user holds, or the refusal.
fn settle(book: &[u8], user: u32, number: u32, ledger: &[u64], holds: &Holds) -> Result<u8, Refusal>
    ensures place { result
        ≡ answered (settle_tests book.now user number ledger.now holds.now) Err
        (Ok (place_of holds.now user number)) }
    ensures within { IfOk result (λ p. p < 8) }
{
    let book = Book::new(book)?;
    test_user(&book.words, user)?;
    test_ledger(ledger)?;
    holds.place_of(user, number).ok_or(Refusal::NotHeld)
}

// `commit` and `drop_hold` stay two, as the C interface has both: they share `settle`.
/// Commit: the held plan's words are joined to the user's; no rule is tested, as asking has tested them.
/// A refusal leaves ledger, tally and hold record as they were.
pub fn commit(
    book: &[u8],
    user: u32,
    number: u32,
    ledger: &mut [u64],
    tally: &mut Tally,
    holds: &mut Holds,
) -> Result<u32, Refusal>
    ensures answer { result ≡ settle_answer book.now user number ledger.old holds.old }
    ensures tally { tally.new ≡ commit_tally book.now user number ledger.old holds.old tally.old }
    ensures holds { holds.new ≡ settle_holds book.now user number ledger.old holds.old }
    ensures ledger { ledger.new ≡ commit_ledger book.now user number ledger.old holds.old }
    ensures settled { SettleAccepted book.now user number ledger.old holds.old
        → result ≡ Ok number }
    ensures continues { Continues book.now (record { user = user; call = Commit number })
        (record { ledger = ledger.old; tally = tally.old; holds = holds.old })
        (record { ledger = ledger.new; tally = tally.new; holds = holds.new }) }
{
    let place = settle(book, user, number, ledger, holds)?;
    join_words(ledger, user, &words_of(&holds.words, u32::from(place)));
    tally.count_admitted(user);
    holds.free(u32::from(place));
    Ok(number)
}

/// Drop: the held plan is forgotten. A refusal leaves tally and hold record as they were.
pub fn drop_hold(
    book: &[u8],
    user: u32,
    number: u32,
    ledger: &[u64],
    tally: &mut Tally,
    holds: &mut Holds,
) -> Result<u32, Refusal>
    ensures answer { result ≡ settle_answer book.now user number ledger.now holds.old }
    ensures tally { tally.new ≡ drop_tally book.now user number ledger.now holds.old tally.old }
    ensures holds { holds.new ≡ settle_holds book.now user number ledger.now holds.old }
    ensures settled { SettleAccepted book.now user number ledger.now holds.old
        → result ≡ Ok number }
    ensures continues { Continues book.now (record { user = user; call = Drop number })
        (record { ledger = ledger.now; tally = tally.old; holds = holds.old })
        (record { ledger = ledger.now; tally = tally.new; holds = holds.new }) }
{
    let place = settle(book, user, number, ledger, holds)?;
    tally.count_dropped(user);
    holds.free(u32::from(place));
    Ok(number)
}
