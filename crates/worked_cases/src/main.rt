//! Runs worked cases through the gateway's one call over desks in memory and over files, and compares all that it answers and
//! writes.
#![tactic(auto)]

mod audits;
mod case;
mod checks;
mod damage;
mod files;

use audits::is_audited;
use case::passes;
use checks::{failing_calls, is_made, is_no_command};
use damage::is_told;
use files::is_run;
use std::process::ExitCode;
use std::{fs, io};

/// A file of which each line is one check.
#[derive(Clone, Copy)]
enum Table {
    /// The names of the cases.
    Cases,
    /// Words that are no command.
    Words,
    /// Damaged captures: a case, a place in its left capture, the octets written there or a dash where it ends there, and the
    /// fault with its offset.
    Damages,
    /// Words of a make, and the line that it writes.
    Makes,
    /// The status of a run over files, and its words.
    Files,
    /// A case, perhaps an octet of it that is changed, and what an audit of its files answers.
    Audits,
}

impl Table {
    fn file(self) -> &'static str {
        match self {
            Table::Cases => "passing.txt",
            Table::Words => "no_commands.txt",
            Table::Damages => "damages.txt",
            Table::Makes => "makes.txt",
            Table::Files => "files.txt",
            Table::Audits => "audits.txt",
        }
    }

    fn label(self) -> &'static str {
        match self {
            Table::Cases => "case",
            Table::Words => "no command",
            Table::Damages => "damage",
            Table::Makes => "made",
            Table::Files => "status",
            Table::Audits => "audit",
        }
    }
}

/// The cases that are run again with each call of the desk failing in turn.
const FAILING: &str = "udp_left_to_right a_morning fragments_joined";

fn is_right(rt: &HostRuntime, table: Table, line: &str) -> io::Result<bool> {
    match table {
        Table::Cases => passes(rt, line),
        Table::Words => is_no_command(rt, line),
        Table::Damages => is_told(rt, line),
        Table::Makes => is_made(rt, line),
        Table::Files => is_run(rt, line),
        Table::Audits => is_audited(rt, line),
    }
}

// How many lines of a table fail.
fn run_table(rt: &HostRuntime, table: Table) -> io::Result<u64> {
    let label = table.label();
    let lines = fs::read_to_string(rt, table.file())?;
    let mut failed = 0u64;
    for line in lines.lines() {
        if is_right(rt, table, line)? {
            println!(rt; "{label} '{line}': ok")?;
        } else {
            println!(rt; "{label} '{line}': FAILED")?;
            failed = failed.saturating_add(1);
        }
    }
    Ok(failed)
}

// How many cases fail with a call failing.
fn run_failing_calls(rt: &HostRuntime) -> io::Result<u64> {
    let mut failed = 0u64;
    for name in FAILING.split_whitespace() {
        match failing_calls(rt, name)? {
            Some(calls) => println!(rt; "{name} with each of {calls} calls failing: ok")?,
            None => {
                println!(rt; "{name} with a call failing: FAILED")?;
                failed = failed.saturating_add(1);
            }
        }
    }
    Ok(failed)
}

fn run(rt: &HostRuntime) -> io::Result<bool> {
    let cases = run_table(rt, Table::Cases)?;
    let words = run_table(rt, Table::Words)?;
    let damages = run_table(rt, Table::Damages)?;
    let makes = run_table(rt, Table::Makes)?;
    let files = run_table(rt, Table::Files)?;
    let audits = run_table(rt, Table::Audits)?;
    let calls = run_failing_calls(rt)?;
    let told = cases == 0 && words == 0 && damages == 0 && makes == 0 && files == 0;
    Ok(told && audits == 0 && calls == 0)
}

fn main(rt: HostRuntime) -> ExitCode {
    match run(&rt) {
        Ok(true) => ExitCode::SUCCESS,
        _ => ExitCode::FAILURE,
    }
}
