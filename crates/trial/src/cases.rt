//! A file of cases, a line a case. A line that starts with # is a comment; one that starts with +
//! has edits for every case below it, up to the next such line; one that starts with @ sets the ledger,
//! the tally and the hold record, or the record to edit. What stands before = in a case is a label and what
//! is tried, with bars between the parts; what stands after it is the answer expected.
use crate::answers::{Malformed, Text};
use crate::calls::{Kept, Line, Table};
use crate::text::{cut, front};
use std::io::Read;
use std::rt::Files;
use std::{fs, io};

/// A file that takes so many bytes may go on.
const FILE_ROOM: usize = 65536;

#[derive(Clone, Copy)]
struct Count {
    cases: u64,
    right: u64,
}

impl Count {
    fn add(&mut self, right: bool) {
        self.cases = self.cases.saturating_add(1);
        self.right = self.right.saturating_add(u64::from(right));
    }
}

fn report(rt: &impl Print, label: &[u8], expected: &[u8], mut answer: Text) -> io::Result<()> {
    let mut said = Text::of("");
    said.add(label);
    said.add(b"- expected");
    said.add(expected);
    said.add(b", answered");
    rt.write_all(said.bytes())?;
    answer.add(b"\n");
    rt.write_all(answer.bytes())
}

/// A line end, which no line of a file can expect.
fn report_malformed(rt: &impl Print, label: &[u8], expected: &[u8]) -> io::Result<()> {
    report(rt, label, expected, Text::of(" malformed\n"))
}

/// Whether the case answers what it expects.
fn holds<T: Table, R: Print>(
    rt: &R,
    common: &[u8],
    line: &[u8],
    kept: &mut T::Kept,
) -> io::Result<bool> {
    let (case, expected) = cut(line, b'=');
    let (label, parts) = cut(case, b'|');
    match T::tried(&Line { common, parts }, kept) {
        Ok(answer) => {
            if answer.is(expected) {
                return Ok(true);
            }
            report(rt, label, expected, answer)?;
        }
        Err(Malformed) => report_malformed(rt, label, expected)?,
    }
    Ok(false)
}

/// A line of records that is malformed counts as a case that fails.
fn counted<T: Table, R: Print>(rt: &R, file: &[u8]) -> io::Result<Count> {
    let mut count = Count { cases: 0, right: 0 };
    let mut kept = T::Kept::fresh();
    let mut common = file.get(..0).unwrap_or(file);
    for line in file.split(|byte| *byte == b'\n') {
        match line {
            [] | [b'#', ..] => {}
            [b'+', edits @ ..] => common = edits,
            [b'@', text @ ..] => {
                if !kept.set(common, text) {
                    report_malformed(rt, line, b" records")?;
                    count.add(false);
                }
            }
            _ => count.add(holds::<T, R>(rt, common, line, &mut kept)?),
        }
    }
    Ok(count)
}

// Reads into the buffer until it is full or the input ends, and answers how many bytes that were. By hand, as
// std's `read_to_end` allocates. policyreport has the same lines: no crate below both reads files.
fn fill(input: &mut impl Read, buffer: &mut [u8]) -> io::Result<usize> {
    let mut filled = 0;
    while filled < buffer.len() {
        let count = input.read(&mut buffer[filled..])?;
        if count == 0 {
            break;
        }
        filled += count;
    }
    Ok(filled)
}

/// Tries the cases of a file, and prints a line with its counts.
pub fn try_file<T: Table, R: Files + Print>(rt: &R, name: &str) -> io::Result<()> {
    // fixed memory: a program can't run out of it
    let mut room = [0; FILE_ROOM];
    let length = match fs::open(rt, name) {
        Ok(mut file) => fill(&mut file, &mut room)?,
        // a file that can't be opened counts as empty
        Err(_) => 0,
    };
    if length >= FILE_ROOM {
        return println!(rt; "{name}: too long");
    }
    let Count { cases, right } = counted::<T, R>(rt, front(&room, length))?;
    println!(rt; "{name}: {cases} cases, {right} as expected")
}
