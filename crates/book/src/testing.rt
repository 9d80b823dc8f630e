//! Tests and their outcome. A call's tests run in document 01's order, and the first that fails gives
//! the refusal.
ghost use Rattle.std.specs.Prelude.{◌≡◌, ◌<◌, ◌∷◌, [], ℕ, Ok, Err, OnOk, IfErr};
ghost use Rattle.book.specs.Tests.{first_failing};
ghost use Rattle.book.specs.Refusals.{between, zeros};

use crate::Refusal;
use crate::bytes::part;

/// The outcome of one test.
#[tactic(auto, unfolding(crate::specs::Tests::first_failing))]
pub fn ensure(passes: bool, refusal: Refusal) -> Result<(), Refusal>
    ensures { result ≡ first_failing ((refusal, passes) ∷ []) }
{
    if passes { Ok(()) } else { Err(refusal) }
}

/// The first refusal of a test's outcomes below n: none, or that of the lowest number that is refused.
pub fn first_refusal<F: Fn(u8) -> Result<(), Refusal>>(n: u8, test: F) -> Result<(), Refusal>
    requires { (i : ℕ) → i < n → F.pre test i }
    ensures passed { OnOk result ((i : ℕ) → i < n → F.post test i (Ok tt)) }
    ensures refused { IfErr result (λ refusal. (i : ℕ) × (i < n) × F.post test i (Err refusal)
        × ((j : ℕ) → j < i → F.post test j (Ok tt))) }
{
    for i in 0..n {
        test(i)?;
    }
    Ok(())
}

/// Whether n is at least low and at most high.
#[tactic(auto, unfolding(crate::specs::Refusals::between))]
pub fn within(low: usize, high: usize, n: usize) -> bool
    ensures { result ≡ between low high n }
{
    (low..=high).contains(&n)
}

/// Whether the bytes from start on and below end are zero.
pub fn zeros(s: &[u8], start: usize, end: usize) -> bool
    ensures { result ≡ zeros s.now start end }
{
    let mut seen = 0u8;
    for byte in part(s, start, end.saturating_sub(start)) {
        seen |= *byte;
    }
    seen == 0
}
