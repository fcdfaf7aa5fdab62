//! What the program answers in place of a report.

ghost use Rattle.std.specs.Prelude.{◌≡◌, ◌⊎◌, true, false, unwrap_or, [], None, IfOk};
ghost use Rattle.std.specs.String.{string_bytes};
ghost use Rattle.byte_streams.specs.Streams.{PutsAll, Rose};
ghost use Rattle.command_line.specs.Words.{text, texts};
ghost use Rattle.jfluid_cli.specs.Contents.{word_at as word_in};
ghost use Rattle.jfluid_cli.specs.Refusals.{status_of, cause_of, refusal_line, told_of_fetch, told_of_file};
ghost use Rattle.jfluid_cli.specs.Refusals.{line_word as line_told, plan_cause as plan_told};
ghost use Rattle.jfluid_cli.specs.Sinks.{PutsOrRose, sink_view};

use crate::causes::{admission_cause, class_in};
use byte_streams::Sink;
use class_reader::ReadError;
use code_admission::AdmitError;
use plan_text::{LineCause, PlanError};
use std::alloc::{AllocError, Global};

/// Why the program gives no report. Each has a status, and a line that is put to the report.
#[derive(Debug, Drop)]
pub enum Refusal {
    /// clap refuses the words, or they ask for help. Its text is put: status 2.
    Clap(String),
    /// A word is no text, or a rule of the program's own refuses what clap takes: status 2.
    Words,
    /// The plan has this fault: status 2.
    Plan(PlanError),
    /// The file at this position is the first that is no class file, and this is its first fault:
    /// status 3.
    NotRead(u32, ReadError),
    /// The program is not admitted, and this is its first fault: status 3.
    NotAdmitted(AdmitError),
    /// A take of the input failed: status 5.
    InputFailed,
    /// A put of the program's output failed: status 6.
    OutFailed,
    /// The plan's file could not be fetched: status 7.
    PlanNotFetched,
    /// The file at this position could not be fetched: status 7.
    NotFetched(u32),
    /// Status 9.
    NoMemory,
    /// There are more than 16,777,216 bytes of input: status 11.
    InputTooLong,
}

impl Refusal {
    /// The exit status.
    pub fn status(&self) -> u8
        ensures { result ≡ status_of self.now }
    {
        match self {
            Refusal::Clap(_) | Refusal::Words | Refusal::Plan(_) => 2,
            Refusal::NotRead(..) | Refusal::NotAdmitted(_) => 3,
            Refusal::InputFailed => 5,
            Refusal::OutFailed => 6,
            Refusal::PlanNotFetched | Refusal::NotFetched(_) => 7,
            Refusal::NoMemory => 9,
            Refusal::InputTooLong => 11,
        }
    }
}

/// What is told of a fault: its name and its number.
fn cause(alloc: Global, fault: ReadError) -> Result<String, AllocError>
    ensures { IfOk result (λ cause. string_bytes cause ≡ cause_of fault) }
{
    match fault {
        ReadError::TooLong => String::from_str(alloc, "TooLong"),
        ReadError::Truncated(at) => format!(in alloc; "Truncated {at}"),
        ReadError::BadMagic => String::from_str(alloc, "BadMagic"),
        ReadError::BadVersion(major) => format!(in alloc; "BadVersion {major}"),
        ReadError::BadTag(at) => format!(in alloc; "BadTag {at}"),
        ReadError::BadUtf8(at) => format!(in alloc; "BadUtf8 {at}"),
        ReadError::BadIndex(entry) => format!(in alloc; "BadIndex {entry}"),
        ReadError::BadRef(at) => format!(in alloc; "BadRef {at}"),
        ReadError::BadLength(at) => format!(in alloc; "BadLength {at}"),
        ReadError::Trailing(at) => format!(in alloc; "Trailing {at}"),
        ReadError::NoMemory => String::from_str(alloc, "NoMemory"),
    }
}

/// The name of what is wrong with a line of a plan.
fn line_word(cause: LineCause) -> &'static str
    ensures { result.now ≡ line_told cause }
{
    match cause {
        LineCause::Utf8 => "Utf8",
        LineCause::Unknown => "Unknown",
        LineCause::Number => "Number",
        LineCause::Name => "Name",
        LineCause::Root => "Root",
        LineCause::Twice => "Twice",
    }
}

/// What is told of a plan: the name of its fault, and its line.
fn plan_cause(alloc: Global, fault: &PlanError) -> Result<String, AllocError>
    ensures { IfOk result (λ cause. string_bytes cause ≡ plan_told fault.now) }
{
    match fault {
        PlanError::TooLong => String::from_str(alloc, "TooLong"),
        PlanError::BadLine(number, cause) => {
            let word = line_word(*cause);
            format!(in alloc; "BadLine {number} {word}")
        }
        PlanError::Backwards(number) => format!(in alloc; "Backwards {number}"),
        PlanError::AlreadySelected(number) => format!(in alloc; "AlreadySelected {number}"),
        PlanError::NotSelected(number) => format!(in alloc; "NotSelected {number}"),
        PlanError::TooMany(number) => format!(in alloc; "TooMany {number}"),
        PlanError::NoMemory => String::from_str(alloc, "NoMemory"),
    }
}

/// The line of a plan that is refused.
fn plan_line(alloc: Global, fault: &PlanError) -> Result<String, AllocError>
    ensures { IfOk result (λ line.
        string_bytes line ≡ refusal_line (Refusal.Plan fault.now) None []) }
{
    let cause = plan_cause(alloc, fault)?;
    format!(in alloc; "jfluid: plan: {cause}\n")
}

/// The word of the file at a position.
pub fn word_at<'a>(files: &[&'a str], at: u32) -> &'a str
    ensures { result.now ≡ word_in (texts files.now) at }
{
    match files.get(at as usize) {
        Some(word) => word,
        None => "",
    }
}

/// The line of a file that is not read.
fn fault_line(alloc: Global, fault: ReadError, file: &str) -> Result<String, AllocError>
    ensures { IfOk result (λ line. string_bytes line ≡ told_of_file file.now (cause_of fault)) }
{
    let cause = cause(alloc, fault)?;
    format!(in alloc; "jfluid: {file}: {cause}\n")
}

/// The line of a file that is not fetched.
fn fetch_line(alloc: Global, file: &str) -> Result<String, AllocError>
    ensures { IfOk result (λ line. string_bytes line ≡ told_of_fetch file.now) }
{
    format!(in alloc; "jfluid: {file}: fetch failed\n")
}

/// The line of a program that is not admitted.
fn admission_line(alloc: Global, fault: AdmitError, files: &[&str]) -> Result<String, AllocError>
    ensures { IfOk result (λ line.
        string_bytes line ≡ refusal_line (Refusal.NotAdmitted fault) None (texts files.now)) }
{
    let cause = admission_cause(alloc, fault)?;
    match class_in(fault) {
        Some(at) => {
            let file = word_at(files, at);
            format!(in alloc; "jfluid: {file}: {cause}\n")
        }
        None => format!(in alloc; "jfluid: {cause}\n"),
    }
}

/// The word of the plan's file, if there is one.
fn plan_word(plan: Option<&str>) -> &str
    ensures { result.now ≡ unwrap_or (text plan.entry) [] }
{
    match plan {
        Some(word) => word,
        None => "",
    }
}

/// The line of a refusal; a plan's file and a class file are called by their words.
fn line(
    alloc: Global,
    refusal: &Refusal,
    plan: Option<&str>,
    files: &[&str],
) -> Result<String, AllocError>
    ensures { IfOk result (λ line.
        string_bytes line ≡ refusal_line refusal.now (text plan.entry) (texts files.now)) }
{
    match refusal {
        Refusal::Clap(text) => String::from_str(alloc, text.as_str()),
        Refusal::Words => String::from_str(alloc, "jfluid: words refused\n"),
        Refusal::Plan(fault) => plan_line(alloc, fault),
        Refusal::NotRead(at, fault) => fault_line(alloc, *fault, word_at(files, *at)),
        Refusal::NotAdmitted(fault) => admission_line(alloc, *fault, files),
        Refusal::InputFailed => String::from_str(alloc, "jfluid: input failed\n"),
        Refusal::OutFailed => String::from_str(alloc, "jfluid: output failed\n"),
        Refusal::PlanNotFetched => fetch_line(alloc, plan_word(plan)),
        Refusal::NotFetched(at) => fetch_line(alloc, word_at(files, *at)),
        Refusal::NoMemory => String::from_str(alloc, "jfluid: no memory\n"),
        Refusal::InputTooLong => String::from_str(alloc, "jfluid: input too long\n"),
    }
}

/// Puts bytes to the report, and answers whether it had no fault. What a fault does to the status is its caller's: the
/// line of a refusal leaves the status as it is, and a report that was not put ends with 8.
pub fn put_bytes<P: Sink>(report: &mut P, bytes: &[u8]) -> bool
    ensures put { let old = sink_view (P.taken report.old) (P.faults report.old) in
        let new = sink_view (P.taken report.new) (P.faults report.new) in
        PutsOrRose old new bytes.now }
    ensures whole { result ≡ true → PutsAll (P.taken report.old) (P.taken report.new) bytes.now }
    ensures without_fault { result ≡ true → P.faults report.new ≡ P.faults report.old }
    ensures failed { result ≡ false → Rose (P.faults report.old) (P.faults report.new) }
{
    report.put(bytes).is_ok()
}

/// Puts the line of a refusal, and answers which refusal it was in the end: where no memory is left
/// for the line, that.
pub fn tell<P: Sink>(
    alloc: Global,
    refusal: Refusal,
    plan: Option<&str>,
    files: &[&str],
    report: &mut P,
) -> Refusal
    ensures which { (result ≡ refusal) ⊎ (result ≡ Refusal.NoMemory) }
    ensures line { let old = sink_view (P.taken report.old) (P.faults report.old) in
        let new = sink_view (P.taken report.new) (P.faults report.new) in
        PutsOrRose old new (refusal_line result (text plan.entry) (texts files.now)) }
{
    match line(alloc, &refusal, plan, files) {
        Ok(line) => {
            let _put = put_bytes(report, line.as_bytes());
            refusal
        }
        Err(_) => {
            let _put = put_bytes(report, b"jfluid: no memory\n");
            Refusal::NoMemory
        }
    }
}
