//! The report: reads small.book and prints one line a rule, idle or the first user and plan that
//! break it alone.
#![tactic(auto)]

use book::{Refusal, check};
use search::idle;
use std::io::Read;
use std::{fs, io};

/// One byte more than the longest book: a longer file is refused for its length.
const LIMIT: usize = 18433;

// The first rows of a plan, eight hexadecimal digits each. Beside trial's `Rows`: see there.
fn rows(rt: &impl Print, plan: &[u8], count: u32) -> io::Result<()> {
    let (rows, _) = plan.as_chunks::<4>();
    // `as`: `usize` has no `From<u32>`
    for row in rows.iter().take(count as usize) {
        print!(rt; " {:08x}", u32::from_be_bytes(*row))?;
    }
    Ok(())
}

/// The line of a rule.
fn line(rt: &impl Print, book: &[u8], rule: u32) -> io::Result<()> {
    let mut plan = [0; 36];
    let answer = idle(book, rule, &mut plan);
    print!(rt; "rule {rule}")?;
    match answer {
        Ok(None) => print!(rt; " idle")?,
        Ok(Some(shown)) => {
            print!(rt; " user {} plan", shown.user)?;
            rows(rt, &plan, shown.rows)?;
        }
        Err(_) => print!(rt; " refused")?,
    }
    println!(rt)
}

fn refused(rt: &impl Print, refusal: Refusal) -> io::Result<()> {
    println!(rt; "refused {} block {}", refusal.number(), refusal.place())
}

fn report(rt: &impl Print, book: &[u8]) -> io::Result<()> {
    match check(book) {
        Err(refusal) => refused(rt, refusal),
        Ok(count) => {
            // a rule is asked for and named by its number
            for rule in 0..count {
                line(rt, book, rule)?;
            }
            Ok(())
        }
    }
}

// Reads into the buffer until it is full or the input ends, and answers how many bytes that were. Beside
// trial's: see there.
fn fill(input: &mut impl Read, buffer: &mut [u8]) -> io::Result<usize> {
    let mut filled = 0;
    while filled < buffer.len() {
        let count = input.read(&mut buffer[filled..])?;
        if count == 0 {
            break;
        }
        filled += count;
    }
    Ok(filled)
}

fn main(rt: HostRuntime) -> io::Result<()> {
    // fixed memory: a program can't run out of it
    let mut room = [0; LIMIT];
    let length = match fs::open(&rt, "small.book") {
        Ok(mut file) => fill(&mut file, &mut room)?,
        // a file that can't be opened counts as empty
        Err(_) => 0,
    };
    report(&rt, room.get(..length).unwrap_or(&room))
}
