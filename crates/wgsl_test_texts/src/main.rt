//! Checks rows of texts: each file that the arguments name holds rows, each of them a text, how it
//! is read, and what is wanted of it. Each row that does not hold is printed with what was got,
//! and at the end how many hold.
#![tactic(auto)]

mod check;
mod depths;
mod discovered;
mod facts;
mod failing;
mod faults;
mod kinds;
mod layouts;
mod literals;
mod made;
mod minified;
mod modules;
mod names;
mod parts;
mod paths;
mod programs;
mod renamed;
mod row;
mod shortest;
mod snippets;
mod streams;
mod text;
mod tokens;
mod trees;

use check::report_of;
use row::Row;
use std::process::ExitCode;
use std::rt::{Env, Files};
use std::{fs, io};

/// How many rows hold, and how many do not.
#[derive(Clone, Copy, Default)]
struct Count {
    held: usize,
    failed: usize,
}

impl Count {
    fn add(self, other: Count) -> Count {
        Count {
            held: self.held.saturating_add(other.held),
            failed: self.failed.saturating_add(other.failed),
        }
    }
}

/// Checks the row that is in a block of lines, and prints it if it does not hold.
fn check_block<R: Print + AllocGlobal>(rt: &R, file: &str, block: &str) -> io::Result<Count> {
    let row = Row::of_block(rt.alloc(), block)?;
    if row.fields.is_empty() {
        return Ok(Count::default());
    }
    let report = report_of(rt.alloc(), &row)?;
    if report.is_empty() {
        return Ok(Count { held: 1, failed: 0 });
    }
    println!(rt; "{file}: {}\n{report}", row.shows)?;
    Ok(Count { held: 0, failed: 1 })
}

/// Checks the rows of a file.
fn check_file<R: Files + Print + AllocGlobal>(rt: &R, file: &str) -> io::Result<Count> {
    let text = fs::read_to_string(rt, file)?;
    let mut count = Count::default();
    for block in text.split("\n\n") {
        count = count.add(check_block(rt, file, block)?);
    }
    Ok(count)
}

/// Checks the files that the arguments name.
fn check_files<R: Files + Env + Print + AllocGlobal>(rt: &R) -> io::Result<Count> {
    let mut whole = Count::default();
    for file in std::env::args(rt)?.skip(1) {
        whole = whole.add(check_file(rt, file.as_str())?);
    }
    println!(rt; "{} rows hold, {} do not", whole.held, whole.failed)?;
    Ok(whole)
}

fn main(rt: HostRuntime) -> io::Result<ExitCode> {
    let whole = check_files(&rt)?;
    Ok(ExitCode::from(u8::from(whole.failed > 0 || whole.held == 0)))
}
