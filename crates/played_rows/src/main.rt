//! Runs rows that are data over the machine and over the revelation. `played_rows ROW.. [revelation [timed] FILE..]`
//! takes the file of each row over the machine, and behind the word `revelation` class files and files of rows over
//! what is marked. It prints a line for each row, `ROW ok`, or `ROW: ` and what came in place of what the row says,
//! then how many rows passed. Behind the word `timed` it prints what the revelation and the linker took of the
//! processor in each row in its place. Its status is 0 where all passed, 1 where one did not, and 2 where a file of the
//! revelation could not be read.
#![tactic(auto)]

mod finding;
mod machine;
mod names;
mod revelation;
mod words;

use crate::machine::judging::judge;
use crate::revelation::judging::judge_all;
use crate::revelation::parts::read_files;
use byte_streams::DiskFiles;
use std::process::ExitCode;
use std::{env, io};

/// Where the word stands behind which those of the revelation stand: behind all, where there is none.
fn divided_at(words: &[String]) -> usize {
    match words.iter().position(|word| word.as_str() == "revelation") {
        Some(place) => place,
        None => words.len(),
    }
}

/// Whether what was taken is asked for by the word at this place.
fn is_timed(words: &[String], place: usize) -> bool {
    match words.get(place) {
        Some(word) => word.as_str() == "timed",
        None => false,
    }
}

/// Judges the rows that the words name.
fn main(rt: HostRuntime) -> io::Result<ExitCode> {
    let words: Vec<String> = env::args(&rt)?.collect(rt.alloc())?;
    let mut files = DiskFiles::new(rt.alloc(), &rt);
    let mut passed = 0u64;
    let mut failed = 0u64;
    let place = divided_at(&words);
    for row in words[..words.len().min(place)].iter().skip(1) {
        match judge(rt.alloc(), row, &mut files) {
            Ok(None) => {
                println!(rt; "{row} ok")?;
                passed = passed.saturating_add(1);
            }
            Ok(Some(failure)) => {
                println!(rt; "{row}: {failure}")?;
                failed = failed.saturating_add(1);
            }
            Err(error) => {
                println!(rt; "{row}: {error}")?;
                failed = failed.saturating_add(1);
            }
        }
    }
    let behind = place.saturating_add(1);
    let timed = is_timed(&words, behind);
    let first = if timed {
        behind.saturating_add(1)
    } else {
        behind
    };
    let paths = &words[words.len().min(first)..];
    let input = match read_files(rt.alloc(), paths, &mut files) {
        Ok(input) => input,
        Err(error) => {
            eprintln!(rt; "played_rows: {error}")?;
            return Ok(ExitCode::from(2));
        }
    };
    let verdicts = judge_all(&rt, rt.alloc(), &input, timed)?;
    for verdict in &verdicts {
        println!(rt; "{}", verdict.line)?;
        if verdict.has_passed {
            passed = passed.saturating_add(1);
        } else {
            failed = failed.saturating_add(1);
        }
    }
    println!(rt; "{passed} rows passed, {failed} did not")?;
    Ok(ExitCode::from(if failed == 0 { 0 } else { 1 }))
}
