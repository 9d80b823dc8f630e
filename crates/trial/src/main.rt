//! Tries the calls on books, blocks and plans of every kind. The cases are data, with the answers
//! that are worked out from documents 01 and 02 beside them; a case that answers something else gets
//! a line, and each file one with its counts.
#![tactic(auto)]

mod accesses; // accesses as text
mod answers; // answers as text
mod blocking; // Blocked
mod blocks; // a record of blocks to edit
mod books; // building books to try
mod calls; // what the cases of a file try
mod cases; // a file's lines
mod causing; // Culprits
mod checking; // Book check
mod drawing; // Tree
mod edits; // Arrive and Depart
mod flowing; // Flows
mod idling; // Idle
mod judging; // Judge
mod numbers; // reading numbers
mod plans; // building plans to try
mod reading; // what the crates above read in a book
mod records; // a ledger, a tally and a hold record to call on
mod reserving; // Ask, commit and drop
mod sealing; // Seal
mod text; // parts of a text

use blocking::Block;
use cases::try_file;
use causing::Culprits;
use checking::Check;
use drawing::Draw;
use edits::Edit;
use flowing::Flow;
use idling::Idle;
use judging::Judge;
use reading::Reader;
use reserving::Reserve;
use sealing::Seal;
use std::io;

fn main(rt: HostRuntime) -> io::Result<()> {
    try_file::<Check, _>(&rt, "check.cases")?;
    try_file::<Seal, _>(&rt, "seal.cases")?;
    try_file::<Flow, _>(&rt, "flows.cases")?;
    try_file::<Judge, _>(&rt, "judge.cases")?;
    try_file::<Idle, _>(&rt, "idle.cases")?;
    try_file::<Block, _>(&rt, "blocked.cases")?;
    try_file::<Culprits, _>(&rt, "culprits.cases")?;
    try_file::<Reserve, _>(&rt, "ledger.cases")?;
    try_file::<Reserve, _>(&rt, "tally.cases")?;
    try_file::<Reserve, _>(&rt, "holds.cases")?;
    try_file::<Reserve, _>(&rt, "records.cases")?;
    try_file::<Reserve, _>(&rt, "refusals.cases")?;
    try_file::<Edit, _>(&rt, "edits.cases")?;
    try_file::<Draw, _>(&rt, "tree.cases")?;
    try_file::<Reader, _>(&rt, "readers.cases")?;
    Ok(())
}
