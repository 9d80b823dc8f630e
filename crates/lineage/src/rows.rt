//! The rows of a plan, read at any index, and the faulty ones. A plan may have any length.
ghost use Rattle.std.specs.Prelude.{◌≡◌, ◌≤◌, ◌<◌};
ghost use Rattle.lineage.specs.Rows.{is_value, kind_byte, kind_of, names, row_a, row_b, row_c, row_holds};
ghost use Rattle.lineage.specs.Answers.{plan_length_holds, plan_tests, row_tests};
ghost use Rattle.lineage.specs.Inner.Reading.{IsGiven, IsRead, number_of, zeros_after};
ghost use Rattle.book.specs.Lists.{flat, up_to};
ghost use Rattle.book.specs.Tests.{first_failing};

use book::Refusal;
use book::bytes::byte_at;
use book::fields::{column_count, function_count};
use book::testing::{ensure, first_refusal};

/// What an access does with its leaf: source document 001's "action channel".
#[derive(Clone, Copy, Debug, PartialEq, Eq)]
pub enum Channel {
    Projection,
    Condition,
}

impl Channel {
    // No `From`: `channel.index()` says which number it is, `usize::from(channel)` would not.
    /// Its number in an access.
    pub fn index(self) -> usize
        ensures value { result ≡ number_of self }
        ensures small { result < 2 }
    {
        match self {
            Channel::Projection => 0,
            Channel::Condition => 1,
        }
    }
}

/// A row, read by its kind.
#[derive(Clone, Copy, Debug, PartialEq, Eq)]
pub enum Row {
    /// A column of the book.
    Column {
        column: u8,
    },
    /// A function of one row or of two.
    Apply {
        function: u8,
        first: u8,
        second: Option<u8>,
    },
    /// One row or another, as a third decides.
    Choose {
        by: u8,
        first: u8,
        second: u8,
    },
    /// A row that is output, or tested by a condition.
    Used {
        channel: Channel,
        row: u8,
    },
}

impl Row {
    /// Row i of a plan. The numbers of all kinds, and 255 for no second row, are read here: every
    /// other number is no kind. `is_value` and the walks of trees ask by the number too.
    #[tactic(auto, using(crate::proofs::PlanLaws::kind_other), unfolding(crate::specs::Rows::kind_at, crate::specs::Rows::kind_of))]
    pub fn read(plan: &[u8], i: u8) -> Option<Row>
        ensures { IsRead plan.now i result }
    {
        let a = row_a(plan, i);
        let b = row_b(plan, i);
        let c = row_c(plan, i);
        // A match over the kinds: a form that document 01 names.
        match kind(plan, i) {
            1 => Some(Row::Column { column: a }),
            2 => Some(Row::Apply {
                function: a,
                first: b,
                second: if c == 255 { None } else { Some(c) },
            }),
            3 => Some(Row::Choose {
                by: a,
                first: b,
                second: c,
            }),
            4 => Some(Row::Used {
                channel: Channel::Projection,
                row: a,
            }),
            5 => Some(Row::Used {
                channel: Channel::Condition,
                row: a,
            }),
            _ => None,
        }
    }
}

/// The row whose accesses row i gives, and by which channel: what decides a Choose is tested.
#[tactic(auto, unfolding(crate::specs::Accesses::gives))]
pub fn given(plan: &[u8], i: u8) -> Option<(Channel, u8)>
    ensures { IsGiven plan.now i result }
{
    match Row::read(plan, i)? {
        Row::Column { .. } | Row::Apply { .. } => None,
        Row::Choose { by, .. } => Some((Channel::Condition, by)),
        Row::Used { channel, row } => Some((channel, row)),
    }
}

// Plan and row number stay two arguments: a row of any bytes has no fact for a type to hold.
// Read byte by byte at an offset, as these promise: a plan may end inside a row.

/// The byte of row i that says its kind.
pub fn kind(plan: &[u8], i: u8) -> usize
    ensures { (result ≡ kind_byte plan.now i) × (result ≤ 255) }
{
    usize::from(byte_at(plan, 4 * usize::from(i)))
}

// Three and no byte by number: the definitions and promises have a, b and c.

/// Byte a of row i.
pub fn row_a(plan: &[u8], i: u8) -> u8
    ensures { result ≡ row_a plan.now i }
{
    byte_at(plan, 4 * usize::from(i) + 1)
}

/// Byte b of row i.
pub fn row_b(plan: &[u8], i: u8) -> u8
    ensures { result ≡ row_b plan.now i }
{
    byte_at(plan, 4 * usize::from(i) + 2)
}

/// Byte c of row i.
pub fn row_c(plan: &[u8], i: u8) -> u8
    ensures { result ≡ row_c plan.now i }
{
    byte_at(plan, 4 * usize::from(i) + 3)
}

// By number: what this public function promises of one may not change.
/// Whether a kind's row has a value, so that other rows may name it.
#[tactic(auto, using(crate::proofs::PlanLaws::value_test))]
pub fn is_value(kind: usize) -> bool
    ensures { result ≡ is_value (kind_of kind) }
{
    (1 <= kind) & (kind <= 3)
}

/// Whether row i may name row r.
#[tactic(auto, unfolding(crate::specs::Rows::kind_at, crate::specs::Rows::names))]
fn names(plan: &[u8], i: u8, r: u8) -> bool
    ensures { result ≡ names plan.now i r }
{
    (r < i) & is_value(kind(plan, r))
}

/// Whether b and c of row i are zero.
fn zeros_after(plan: &[u8], i: u8) -> bool
    ensures { result ≡ zeros_after plan.now i }
{
    (row_b(plan, i) == 0) & (row_c(plan, i) == 0)
}

/// Whether row i is not faulty.
#[tactic(auto, unfolding(crate::specs::Rows::row_holds, crate::specs::Rows::sound_as))]
pub fn row_holds(head: &[u8], plan: &[u8], i: u8) -> bool
    ensures { result ≡ row_holds head.now plan.now i }
{
    match Row::read(plan, i) {
        Some(Row::Column { column }) => {
            (usize::from(column) < column_count(head)) & zeros_after(plan, i)
        }
        Some(
            Row::Apply {
                function,
                first,
                second,
            },
        ) => {
            (usize::from(function) < function_count(head))
                & (names(plan, i, first) & second.is_none_or(|r| names(plan, i, r)))
        }
        Some(Row::Choose { by, first, second }) => {
            names(plan, i, by) & (names(plan, i, first) & names(plan, i, second))
        }
        Some(Row::Used { row, .. }) => names(plan, i, row) & zeros_after(plan, i),
        None => false,
    }
}

/// The test 22 of row i.
#[tactic(auto, unfolding(crate::specs::Answers::row_tests))]
fn test_row(head: &[u8], plan: &[u8], i: u8) -> Result<(), Refusal>
    ensures { result ≡ first_failing (row_tests head.now plan.now i) }
{
    ensure(row_holds(head, plan, i), Refusal::FaultyRow { row: i })
}

/// The test 22 of the first n rows: the lowest faulty row is refused.
fn test_rows(head: &[u8], plan: &[u8], n: u8) -> Result<(), Refusal>
    ensures { result ≡ first_failing (flat (row_tests head.now plan.now) (up_to n)) }
{
    first_refusal(n, |i| test_row(head, plan, i))
}

#[tactic(auto, unfolding(crate::specs::Answers::plan_length_holds))]
fn plan_length_holds(n: usize) -> bool
    ensures { result ≡ plan_length_holds n }
{
    (n % 4 == 0) & (n <= 256)
}

/// The tests 21 and 22.
pub fn test_plan(head: &[u8], plan: &[u8]) -> Result<(), Refusal>
    ensures { result ≡ first_failing (plan_tests head.now plan.now) }
{
    ensure(plan_length_holds(plan.len()), Refusal::PlanLength)?;
    // At most 64: the cast is proved to fit, and `try_from` would be a branch.
    test_rows(head, plan, (plan.len() / 4) as u8)
}
