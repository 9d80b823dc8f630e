//! The counts of the tally: three for each user number.
ghost use Rattle.std.specs.Prelude.{◌≡◌, get_or};
ghost use Rattle.ledger.specs.Counts.{raised, raised_for};

use crate::Tally;

/// The count of a user; zero past the end.
pub fn count_of(counts: &[u32; 32], user: u32) -> u32
    ensures { result ≡ get_or counts.now user 0 }
{
    // `as`, here and below: `usize` has no `From<u32>`.
    counts.get(user as usize).copied().unwrap_or(0)
}

// By value below the count raised in place: a form that document 01 names.
/// A count stays at its top value.
#[tactic(auto, unfolding(crate::specs::Counts::raised))]
fn raised(count: u32) -> u32
    ensures { result ≡ raised count }
{
    count.saturating_add(1)
}

/// One more for a user, in the hands of the counts' owner; nothing past the end.
#[tactic(auto, unfolding(crate::specs::Counts::raised_for))]
fn raise(counts: &mut [u32; 32], user: u32)
    ensures { counts.new ≡ raised_for counts.old user }
{
    if user < 32 {
        let at = user as usize;
        counts[at] = raised(counts[at]);
    }
}

impl Tally {
    // Three methods: one for all would take which count it is, and match on that.
    /// One more plan of a user was admitted.
    pub fn count_admitted(&mut self, user: u32)
        ensures { self.new ≡ record self.old { admitted = raised_for self.old.admitted user } }
    {
        raise(&mut self.admitted, user);
    }

    /// One more plan of a user was declined.
    pub fn count_declined(&mut self, user: u32)
        ensures { self.new ≡ record self.old { declined = raised_for self.old.declined user } }
    {
        raise(&mut self.declined, user);
    }

    /// One more plan of a user was dropped.
    pub fn count_dropped(&mut self, user: u32)
        ensures { self.new ≡ record self.old { dropped = raised_for self.old.dropped user } }
    {
        raise(&mut self.dropped, user);
    }
}
