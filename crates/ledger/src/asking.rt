//! Ask: a plan is joined with its user's words and held plans, judged, and held or declined.
ghost use Rattle.std.specs.Prelude.{◌≡◌, ◌<◌, ◌+◌, Ok, Err, IfOk, IfSome, is_some, ltb};
ghost use Rattle.book.specs.Tests.{answered};
ghost use Rattle.ledger.specs.Places.{empty_place};
ghost use Rattle.ledger.specs.Answers.{ask_accesses, ask_answer, ask_holds, ask_tally, asked_by, given_to};
ghost use Rattle.ledger.specs.Histories.{Ask};
ghost use Rattle.ledger.specs.Demand.{AskAccepted, Asks, Continues};
ghost use Rattle.ledger.specs.Inner.Steps.{MaskWith, room_tests};

use crate::counts::count_of;
use crate::words::{test_ledger, words_of};
use crate::{Asked, Holds, Tally};
use book::sets::join;
use book::{Book, Refusal};
use lineage::accesses::accesses;
use verdicts::judging::{broken_by, test_judge};

/// How many numbers a user was given: his admitted, dropped and held plans.
#[tactic(auto, unfolding(crate::specs::Answers::given_to, crate::specs::Counts::counts_of))]
fn given_to(user: u32, tally: &Tally, holds: &Holds) -> u64
    ensures given { result ≡ given_to user tally.now holds.now }
    ensures small { result < 17179869184 }
{
    // `as`: `u64` has no `From<usize>`.
    u64::from(count_of(&tally.admitted, user))
        + u64::from(count_of(&tally.dropped, user))
        + holds.held_count(user) as u64
}

/// A user's next number; none once he has asked a million times. His counts alone tell, and 64 bits hold
/// their sum.
#[tactic(auto, unfolding(crate::specs::Answers::asked_by, crate::specs::Counts::counts_of))]
fn next_number(user: u32, tally: &Tally, holds: &Holds) -> Option<u32>
    ensures found { is_some result ≡ ltb (asked_by user tally.now holds.now) 1000000 }
    ensures number { IfSome result (λ n. n ≡ given_to user tally.now holds.now + 1) }
{
    let given = given_to(user, tally, holds);
    if given + u64::from(count_of(&tally.declined, user)) < 1000000 {
        // Below a million here: the check proves that the cast fits.
        return Some(given as u32 + 1);
    }
    None
}

/// The tests of the ledger, of the counts, of the places: the user's next number and the lowest empty
/// place, or the refusal.
fn room(user: u32, ledger: &[u64], tally: &Tally, holds: &Holds) -> Result<(u32, u8), Refusal>
    ensures room { result ≡ answered (room_tests user ledger.now tally.now holds.now) Err
        (Ok (given_to user tally.now holds.now + 1, empty_place holds.now)) }
    ensures within { IfOk result (λ found. found.1 < 8) }
{
    test_ledger(ledger)?;
    let number = next_number(user, tally, holds).ok_or(Refusal::CountsFull)?;
    let place = holds.empty_place().ok_or(Refusal::PlacesFull)?;
    Ok((number, place))
}

/// The mask of the rules that a user breaks with these words, his own and those of his held plans.
fn mask_with(book: &Book, user: u32, ledger: &[u64], holds: &Holds, words: &[u64; 32]) -> u32
    ensures { MaskWith book.now.bytes.now user ledger.now holds.now words.now result }
{
    let mut all = words_of(ledger, user);
    let held = holds.held_words(user);
    join(&mut all, &held);
    join(&mut all, words);
    broken_by(book.bytes, &book.words, user, &all)
}

// Ledger, tally and hold record are three arguments: the C interface has three pointers.
/// Ask: the plan is held, under its user's next number, where it breaks no rule together with his words
/// and his held plans. A refusal leaves tally and hold record as they were.
pub fn ask(
    book: &[u8],
    user: u32,
    plan: &[u8],
    ledger: &[u64],
    tally: &mut Tally,
    holds: &mut Holds,
) -> Result<Asked, Refusal>
    ensures answer { result ≡ ask_answer book.now user plan.now ledger.now tally.old holds.old }
    ensures tally { tally.new ≡ ask_tally book.now user plan.now ledger.now tally.old holds.old }
    ensures holds { holds.new ≡ ask_holds book.now user plan.now ledger.now tally.old holds.old }
    ensures asks { AskAccepted book.now user plan.now ledger.now tally.old holds.old
        → Asks book.now user
        (ask_accesses book.now user plan.now ledger.now tally.old holds.old)
        (given_to user tally.old holds.old) result }
    ensures continues { Continues book.now (record { user = user; call = Ask plan.now })
        (record { ledger = ledger.now; tally = tally.old; holds = holds.old })
        (record { ledger = ledger.now; tally = tally.new; holds = holds.new }) }
{
    let book = test_judge(book, user, plan)?;
    let (number, place) = room(user, ledger, tally, holds)?;
    let words = accesses(book.bytes, &book.words, plan);
    let mask = mask_with(&book, user, ledger, holds, &words);
    if mask != 0 {
        tally.count_declined(user);
        return Ok(Asked::Declined(mask));
    }
    holds.put(u32::from(place), user, number, &words);
    Ok(Asked::Held(number))
}
