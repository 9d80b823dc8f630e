//! The thirteen calls for C and Rust, each answer packed in one number (specs/Packing.antt). What the
//! numbers of Judge, Idle, Blocked, Culprits, Ask, Commit, Drop, Arrive, Depart and Tree mean is
//! specs/Demands.antt. A slice is a pointer and a length in elements, a record or an array a pointer.
//! No call asks anything of the bytes or the numbers it is given.
#![tactic(auto)]

ghost use Rattle.std.specs.Prelude.{◌≡◌, ◌%◌, ℕ};
ghost use Rattle.book.specs.Answers.{check_answer, seal_answer, seal_bytes};
ghost use Rattle.lineage.specs.Answers.{flows_answer, flows_words};
ghost use Rattle.verdicts.specs.Answers.{judge_answer};
ghost use Rattle.ledger.specs.Answers.{ask_answer, ask_holds, ask_tally, commit_ledger, commit_tally, drop_tally};
ghost use Rattle.ledger.specs.Answers.{settle_answer, settle_holds};
ghost use Rattle.search.specs.Answers.{idle_answer, idle_buffer};
ghost use Rattle.blocked.specs.Answers.{blocked_answer, culprits_answer};
ghost use Rattle.editing.specs.Answers.{arrive_answer, arrive_blocks, arrive_marks, arrive_rules};
ghost use Rattle.editing.specs.Answers.{depart_answer, depart_blocks, depart_marks, depart_rules};
ghost use Rattle.trees.specs.Answers.{tree_answer, tree_buffer};
ghost use Rattle.capi.specs.Demands.{ArriveSays, AskSays, BlockedSays, CommitSays, CulpritsSays, DepartSays};
ghost use Rattle.capi.specs.Demands.{DropSays, IdleSays, JudgeSays, TreeSays};
ghost use Rattle.capi.specs.Packing.{answer_packed, asked_value, blocked_packed, blocked_value, check_packed};
ghost use Rattle.capi.specs.Packing.{culprits_packed, culprits_value, done_value, edit_packed, flows_packed, idle_packed, idle_value};
ghost use Rattle.capi.specs.Packing.{judge_packed, judge_value, number_value, refusal_packed, reply_packed};
ghost use Rattle.capi.specs.Packing.{seal_packed, settle_packed, tree_packed, tree_value};

use blocked::{Closed, blocked, culprits};
use book::{Refusal, check, seal};
use editing::{arrive, depart};
use ledger::{Asked, Holds, Tally, ask, commit, drop_hold};
use lineage::flows;
use search::{Shown, idle};
use trees::{Written, tree};
use verdicts::{Broken, judge};

// Numbers for answers, refusals and none, one function a call: the C interface has them so.

/// What a call says where nothing refuses it, as a number.
trait Answer: Drop {
    ghost value: { Self → ℕ };

    fn value(self) -> u64
        ensures { result ≡ value self };
}

impl Answer for () {
    ghost value = { done_value };

    #[tactic(auto, unfolding(crate::specs::Packing::packed, crate::specs::Packing::done_value))]
    fn value(self) -> u64 {
        0
    }
}

impl Answer for u32 {
    ghost value = { number_value };

    #[tactic(auto, unfolding(crate::specs::Packing::packed, crate::specs::Packing::number_value))]
    fn value(self) -> u64 {
        u64::from(self)
    }
}

// For u64 as for u32: an impl for all `Into<u64>` would overlap with the others.
impl Answer for u64 {
    ghost value = { number_value };

    #[tactic(auto, unfolding(crate::specs::Packing::packed, crate::specs::Packing::number_value))]
    fn value(self) -> u64 {
        self
    }
}

impl Answer for Broken {
    ghost value = { judge_value };

    #[tactic(auto, unfolding(crate::specs::Packing::packed, crate::specs::Packing::judge_value))]
    fn value(self) -> u64 {
        u64::from(self.mask)
    }
}

impl Answer for Option<Shown> {
    ghost value = { idle_value };

    #[tactic(auto, unfolding(crate::specs::Packing::packed, crate::specs::Packing::idle_value))]
    fn value(self) -> u64 {
        self.map_or(
            0,
            |shown| 256 * u64::from(shown.user) + u64::from(shown.rows),
        )
    }
}

impl Answer for Option<Closed> {
    ghost value = { blocked_value };

    #[tactic(auto, unfolding(crate::specs::Packing::packed, crate::specs::Packing::blocked_value))]
    fn value(self) -> u64 {
        match self {
            None => 0,
            Some(closed) => {
                16777216 * u64::from(closed.user)
                    + u64::from(closed.first)
                    + 256 * u64::from(closed.second)
                    + 65536 * u64::from(closed.third)
            }
        }
    }
}

impl Answer for Asked {
    ghost value = { asked_value };

    #[tactic(auto, unfolding(crate::specs::Packing::packed, crate::specs::Packing::asked_value))]
    fn value(self) -> u64 {
        match self {
            Asked::Held(number) => 4294967296 + u64::from(number),
            Asked::Declined(mask) => u64::from(mask),
        }
    }
}

impl Answer for Written {
    ghost value = { tree_value };

    #[tactic(auto, unfolding(crate::specs::Packing::packed, crate::specs::Packing::tree_value))]
    fn value(self) -> u64 {
        1048576 * u64::from(self.nodes.saturating_sub(1)) + u64::from(self.length)
    }
}

/// An answer as one number: its value, or the refusal's number and place above the value's 32 bits.
#[tactic(auto, unfolding(crate::specs::Packing::packed, crate::specs::Packing::refusal_packed))]
fn pack<A: Answer>(answer: Result<A, Refusal>) -> u64
    ensures { result ≡ answer_packed A.value answer }
{
    match answer {
        Ok(said) => said.value(),
        Err(refusal) => {
            let number = u64::from(refusal.number());
            let place = u64::from(refusal.place());
            1099511627776 * number + 4294967296 * place
        }
    }
}

/// Book check.
#[tactic(auto, unfolding(crate::specs::Packing::check_packed))]
#[unsafe(no_mangle)]
pub extern "C" fn pspec_check(book: &[u8]) -> u64
    ensures { result ≡ check_packed (check_answer book.now) }
{
    pack(check(book))
}

/// Seal.
#[tactic(auto, unfolding(crate::specs::Packing::seal_packed))]
#[unsafe(no_mangle)]
pub extern "C" fn pspec_seal(block: &mut [u8]) -> u64
    ensures answer { result ≡ seal_packed (seal_answer block.old) }
    ensures block { block.new ≡ seal_bytes block.old }
{
    pack(seal(block))
}

/// Flows.
#[tactic(auto, unfolding(crate::specs::Packing::flows_packed))]
#[unsafe(no_mangle)]
pub extern "C" fn pspec_flows(book: &[u8], plan: &[u8], words: &mut [u64]) -> u64
    ensures answer { result ≡ flows_packed (flows_answer book.now plan.now words.old) }
    ensures words { words.new ≡ flows_words book.now plan.now words.old }
{
    pack(flows(book, plan, words))
}

/// Judge.
#[tactic(auto, unfolding(crate::specs::Packing::judge_packed))]
#[unsafe(no_mangle)]
pub extern "C" fn pspec_judge(book: &[u8], user: u32, plan: &[u8]) -> u64
    ensures answer { result ≡ judge_packed (judge_answer book.now user plan.now) }
    ensures says { JudgeSays book.now user plan.now result }
{
    pack(judge(book, user, plan))
}

/// Idle.
#[tactic(auto, unfolding(crate::specs::Packing::idle_packed))]
#[unsafe(no_mangle)]
pub extern "C" fn pspec_idle(book: &[u8], rule: u32, buffer: &mut [u8]) -> u64
    ensures answer { result ≡ idle_packed (idle_answer book.now rule buffer.old) }
    ensures buffer { buffer.new ≡ idle_buffer book.now rule buffer.old }
    ensures says { IdleSays book.now rule buffer.old buffer.new result }
{
    pack(idle(book, rule, buffer))
}

/// Blocked.
#[tactic(auto, unfolding(crate::specs::Packing::blocked_packed))]
#[unsafe(no_mangle)]
pub extern "C" fn pspec_blocked(book: &[u8], rule: u32) -> u64
    ensures answer { result ≡ blocked_packed (blocked_answer book.now rule) }
    ensures says { BlockedSays book.now rule result }
{
    pack(blocked(book, rule))
}

/// The few rules with the asking one among them. A mask is given for rules below 32 alone: the remainder
/// is for the shift.
#[tactic(auto, using(crate::proofs::PackedLaws::asking_shift), unfolding(crate::specs::Packing::culprits_value, crate::specs::Packing::packed))]
fn with_asking(rule: u32, few: Option<u32>) -> u64
    ensures { result ≡ culprits_value (rule % 32) few }
{
    few.map_or(0, |mask| u64::from(mask) + (1u64 << (rule % 32)))
}

/// Culprits: the mask has the asking rule too.
#[unsafe(no_mangle)]
pub extern "C" fn pspec_culprits(book: &[u8], rule: u32) -> u64
    ensures answer { result ≡ culprits_packed rule (culprits_answer book.now rule) }
    ensures says { CulpritsSays book.now rule result }
{
    pack(culprits(book, rule).map(|few| with_asking(rule, few)))
}

/// Ask.
#[tactic(auto, unfolding(crate::specs::Packing::reply_packed))]
#[unsafe(no_mangle)]
pub extern "C" fn pspec_ask(
    book: &[u8],
    user: u32,
    plan: &[u8],
    ledger: &[u64],
    tally: &mut Tally,
    holds: &mut Holds,
) -> u64
    ensures answer { result ≡ reply_packed (ask_answer book.now user plan.now ledger.now tally.old holds.old) }
    ensures tally { tally.new ≡ ask_tally book.now user plan.now ledger.now tally.old holds.old }
    ensures holds { holds.new ≡ ask_holds book.now user plan.now ledger.now tally.old holds.old }
    ensures says { AskSays book.now user plan.now ledger.now tally.old tally.new holds.old holds.new result }
{
    pack(ask(book, user, plan, ledger, tally, holds))
}

/// Commit.
#[tactic(auto, unfolding(crate::specs::Packing::settle_packed))]
#[unsafe(no_mangle)]
pub extern "C" fn pspec_commit(
    book: &[u8],
    user: u32,
    number: u32,
    ledger: &mut [u64],
    tally: &mut Tally,
    holds: &mut Holds,
) -> u64
    ensures answer { result ≡ settle_packed (settle_answer book.now user number ledger.old holds.old) }
    ensures tally { tally.new ≡ commit_tally book.now user number ledger.old holds.old tally.old }
    ensures holds { holds.new ≡ settle_holds book.now user number ledger.old holds.old }
    ensures ledger { ledger.new ≡ commit_ledger book.now user number ledger.old holds.old }
    ensures says { CommitSays book.now user number ledger.old ledger.new tally.old tally.new
        holds.old holds.new result }
{
    pack(commit(book, user, number, ledger, tally, holds))
}

/// Drop.
#[tactic(auto, unfolding(crate::specs::Packing::settle_packed))]
#[unsafe(no_mangle)]
pub extern "C" fn pspec_drop(
    book: &[u8],
    user: u32,
    number: u32,
    ledger: &[u64],
    tally: &mut Tally,
    holds: &mut Holds,
) -> u64
    ensures answer { result ≡ settle_packed (settle_answer book.now user number ledger.now holds.old) }
    ensures tally { tally.new ≡ drop_tally book.now user number ledger.now holds.old tally.old }
    ensures holds { holds.new ≡ settle_holds book.now user number ledger.now holds.old }
    ensures says { DropSays book.now user number ledger.now tally.old tally.new
        holds.old holds.new result }
{
    pack(drop_hold(book, user, number, ledger, tally, holds))
}

/// What Arrive and Depart answer, as one number: the new mask whole, or the refusal.
#[tactic(auto, unfolding(crate::specs::Packing::edit_packed))]
fn pack_edit(edited: Result<u32, Refusal>) -> u64
    ensures { result ≡ edit_packed edited }
{
    pack(edited.map(|mask| u64::from(mask)))
}

/// Arrive.
#[unsafe(no_mangle)]
pub extern "C" fn pspec_arrive(
    blocks: &mut [u8; 18432],
    rules: &mut u32,
    marks: &mut u32,
    block: &[u8],
) -> u64
    ensures answer { result ≡ edit_packed (arrive_answer blocks.old rules.old block.now marks.old) }
    ensures blocks { blocks.new ≡ arrive_blocks blocks.old rules.old block.now }
    ensures rules { rules.new ≡ arrive_rules blocks.old rules.old block.now }
    ensures marks { marks.new ≡ arrive_marks blocks.old rules.old block.now marks.old }
    ensures says { ArriveSays
        (record { blocks = blocks.old; rules = rules.old; marks = marks.old })
        (record { blocks = blocks.new; rules = rules.new; marks = marks.new })
        block.now result }
{
    pack_edit(arrive(blocks, rules, marks, block))
}

/// Depart.
#[unsafe(no_mangle)]
pub extern "C" fn pspec_depart(
    blocks: &mut [u8; 18432],
    rules: &mut u32,
    marks: &mut u32,
    rule: u32,
) -> u64
    ensures answer { result ≡ edit_packed (depart_answer blocks.old rules.old rule marks.old) }
    ensures blocks { blocks.new ≡ depart_blocks blocks.old rules.old rule }
    ensures rules { rules.new ≡ depart_rules blocks.old rules.old rule }
    ensures marks { marks.new ≡ depart_marks blocks.old rules.old rule marks.old }
    ensures says { DepartSays
        (record { blocks = blocks.old; rules = rules.old; marks = marks.old })
        (record { blocks = blocks.new; rules = rules.new; marks = marks.new })
        rule result }
{
    pack_edit(depart(blocks, rules, marks, rule))
}

/// Tree.
#[tactic(auto, unfolding(crate::specs::Packing::tree_packed))]
#[unsafe(no_mangle)]
pub extern "C" fn pspec_tree(book: &[u8], plan: &[u8], row: u32, buffer: &mut [u8]) -> u64
    ensures answer { result ≡ tree_packed (tree_answer book.now plan.now row buffer.old) }
    ensures buffer { buffer.new ≡ tree_buffer book.now plan.now row buffer.old }
    ensures says { TreeSays book.now plan.now row buffer.old buffer.new result }
{
    pack(tree(book, plan, row, buffer))
}
