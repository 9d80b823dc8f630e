//! The places of the hold record. A place is empty when its number is 0.
ghost use Rattle.std.specs.Prelude.{◌≡◌, ℕ, ◌<◌, IfSome, List, is_some, not, unwrap_or};
ghost use Rattle.ledger.specs.Places.{eight_held, empty_place, freed, held_at, held_count, holds_number, number_at, place_of, placed, taken};
ghost use Rattle.ledger.specs.Inner.Steps.{HeldWords, lowest, passing, places_with};

use crate::Holds;
use crate::words::words_of;
use book::sets::join;

/// Whether a place is a user's, by users and numbers; none past the end is.
#[tactic(auto, unfolding(crate::specs::Places::held_at, crate::specs::Places::taken))]
fn held_at(users: &[u32; 8], numbers: &[u32; 8], user: u32, p: u8) -> bool
    ensures { (words : List ℕ) → result ≡ held_at (places_with users.now numbers.now words) user p }
{
    numbers.get(usize::from(p)).is_some_and(|n| *n != 0) && users.get(usize::from(p)) == Some(&user)
}

/// The words of a user's held plans, joined, by the parts of a hold record. The words may be any number.
#[tactic(auto, using(crate::proofs::PlaceLaws::gather_none, crate::proofs::PlaceLaws::gather_more, crate::proofs::PlaceLaws::gather_past, crate::proofs::PlaceLaws::gather_all))]
pub fn held_words(users: &[u32; 8], numbers: &[u32; 8], words: &[u64], user: u32) -> [u64; 32]
    ensures { HeldWords (places_with users.now numbers.now words.now) user result }
{
    let mut all = [0; 32];
    for p in 0..8u8 {
        if held_at(users, numbers, user, p) {
            join(&mut all, &words_of(words, u32::from(p)));
        }
    }
    all
}

impl Holds {
    /// Whether a place holds a plan; none past the end does.
    #[tactic(auto, unfolding(crate::specs::Places::taken))]
    fn is_taken(&self, p: u8) -> bool
        ensures { result ≡ taken self.now p }
    {
        self.numbers.get(usize::from(p)).is_some_and(|n| *n != 0)
    }

    /// Whether a place holds a plan of a user.
    fn is_held_by(&self, user: u32, p: u8) -> bool
        ensures { result ≡ held_at self.now user p }
    {
        held_at(&self.users, &self.numbers, user, p)
    }

    /// Whether a place holds the plan of a user and a number.
    #[tactic(auto, unfolding(crate::specs::Places::number_at, crate::specs::Places::held_at, crate::specs::Places::taken))]
    fn has_number(&self, user: u32, number: u32, p: u8) -> bool
        ensures { result ≡ number_at self.now user number p }
    {
        self.is_held_by(user, p) && self.numbers.get(usize::from(p)) == Some(&number)
    }

    // The chain of `held_count` alone: only so does the search follow it.
    fn places_of(&self, user: u32) -> usize
        ensures count { result ≡ passing (held_at self.now user) }
        ensures within { result < 9 }
    {
        (0..8u8).filter(|p| self.is_held_by(user, *p)).count()
    }

    // The chain of `place_of`, likewise.
    fn first_with(&self, user: u32, number: u32) -> Option<u8>
        ensures place { result ≡ lowest (number_at self.now user number) }
        ensures within { IfSome result (λ p. p < 8) }
    {
        (0..8u8).find(|p| self.has_number(user, number, *p))
    }

    /// How many places are a user's.
    #[tactic(auto, using(crate::proofs::PlaceLaws::held_passing))]
    pub fn held_count(&self, user: u32) -> usize
        ensures count { result ≡ held_count self.now user }
        ensures within { result < 9 }
    {
        self.places_of(user)
    }

    /// The lowest empty place.
    pub fn empty_place(&self) -> Option<u8>
        ensures found { is_some result ≡ not (eight_held self.now) }
        ensures place { unwrap_or result 8 ≡ empty_place self.now }
        ensures within { IfSome result (λ p. p < 8) }
    {
        (0..8u8).find(|p| !self.is_taken(*p))
    }

    /// The lowest place with that user and number.
    #[tactic(auto, using(crate::proofs::PlaceLaws::lowest_number, crate::proofs::PlaceLaws::number_some))]
    pub fn place_of(&self, user: u32, number: u32) -> Option<u8>
        ensures found { is_some result ≡ holds_number self.now user number }
        ensures place { unwrap_or result 8 ≡ place_of self.now user number }
        ensures within { IfSome result (λ p. p < 8) }
    {
        self.first_with(user, number)
    }

    /// The words of a user's held plans, joined.
    pub fn held_words(&self, user: u32) -> [u64; 32]
        ensures { HeldWords self.now user result }
    {
        held_words(&self.users, &self.numbers, &self.words, user)
    }

    /// A plan is put into a place: its user, its number and its words. Past the end nothing is.
    #[tactic(auto, using(crate::proofs::WordLaws::written_in_place), unfolding(crate::specs::Places::placed))]
    pub fn put(&mut self, p: u32, user: u32, number: u32, words: &[u64; 32])
        ensures { p < 8 → self.new ≡ placed self.old p user number words.now }
    {
        if p < 8 {
            // `as`: `usize` has no `From<u32>`.
            let at = p as usize;
            self.users[at] = user;
            self.numbers[at] = number;
            self.words[32 * at..32 * at + 32].copy_from_slice(words);
        }
    }

    /// A place is freed: all zero.
    #[tactic(auto, unfolding(crate::specs::Places::freed))]
    pub fn free(&mut self, p: u32)
        ensures { p < 8 → self.new ≡ freed self.old p }
    {
        self.put(p, 0, 0, &[0; 32]);
    }
}
