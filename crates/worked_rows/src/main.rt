//! Runs rows that are data. `worked_rows LIST..` takes each list of rows, runs each row through the top call over
//! objects in memory, and prints a line for each: `NAME ok`, or `NAME: ` and what differs. Its status is 0 where all
//! rows passed, 1 where one did not, and 2 where a list could not be read.
#![tactic(auto)]

mod comparing;
mod expected;
mod given;
mod judging;
mod lines;
mod lists;
mod parts;

use byte_streams::DiskFiles;
use judging::judge_list;
use std::process::ExitCode;
use std::{env, io};

/// Judges the rows of the lists that the words name.
fn main(rt: HostRuntime) -> io::Result<ExitCode> {
    let words: Vec<String> = env::args(&rt)?.collect(rt.alloc())?;
    let mut files = DiskFiles::new(rt.alloc(), &rt);
    let mut status = 0;
    for list in words.iter().skip(1) {
        let verdicts = match judge_list(rt.alloc(), list, &mut files) {
            Ok(verdicts) => verdicts,
            Err(error) => {
                eprintln!(rt; "worked_rows: {list}: {error}")?;
                return Ok(ExitCode::from(2));
            }
        };
        for verdict in &verdicts {
            println!(rt; "{verdict}")?;
            if !verdict.has_passed() {
                status = 1;
            }
        }
    }
    Ok(ExitCode::from(status))
}
