//! The top call: from the words to a status.

ghost use Rattle.std.specs.Prelude.{◌≡◌, ◌≤◌, ◌<◌, ◌⊎◌, ℕ, List, false, Ok, Err, None, Some, MatchResult, IfOk, IfErr, IsOk, IsSomeAnd, OnOk};
ghost use Rattle.plan_text.specs.Numbers.{greatest_steps};
ghost use Rattle.command_line.specs.Raw.{AreTexts};
ghost use Rattle.command_line.specs.Words.{IsSound, read_in, texts};
ghost use Rattle.profile_session.specs.Answers.{Gathers};
ghost use Rattle.jfluid_cli.specs.Actions.{CanBeTaken};
ghost use Rattle.byte_streams.specs.Streams.{PutsPrefix};
ghost use Rattle.jfluid_cli.specs.Calls.{IsRun, IsShown, IsAnswered, call_of};
ghost use Rattle.jfluid_cli.specs.Images.{images_of};
ghost use Rattle.jfluid_cli.specs.Stages.{IsStopped, IsSameRun, IsCarried};
ghost use Rattle.jfluid_cli.specs.Runs.{IsFresh, IsGoing, IsPlanned, PutsAtMost, SameProgram};
ghost use Rattle.jfluid_cli.specs.Sinks.{IsUntold, sink_view, with_sinks};
ghost use Rattle.jfluid_cli.specs.Words.{words_accepted};

use crate::devices::Devices;
use crate::images::show;
use crate::input::take;
use crate::kept::Kept;
use crate::loading::prepare;
use crate::making::make;
use crate::refusal::{Refusal, tell};
use crate::running::{Stop, run_all};
use crate::words::{read, texts_in};
use byte_streams::{Files, Sink, Source};
use command_line::Words;
use jf_bytes::{NoMemory, Seq};
use profile_session::Session;
use std::alloc::Global;

/// Answers for a run that was carried out, or that stopped.
fn answer<P: Sink, G: Sink>(
    alloc: Global,
    outcome: Result<(), Stop>,
    session: &mut Session,
    summary: bool,
    asked: bool,
    report: &mut P,
    images: &mut G,
) -> Result<u8, Refusal>
    requires going { OnOk outcome (IsGoing session.old) }
    requires planned { OnOk outcome (IsPlanned session.old) }
    ensures carried_out { IfOk result (λ _. IsOk outcome) }
    ensures gathered { OnOk result (Gathers session.old session.new) }
    ensures same { SameProgram session.old session.new }
    ensures shown { let old = sink_view (P.taken report.old) (P.faults report.old) in
        let new = sink_view (P.taken report.new) (P.faults report.new) in
        let before = sink_view (G.taken images.old) (G.faults images.old) in
        let after = sink_view (G.taken images.new) (G.faults images.new) in
        MatchResult result
        (IsShown summary asked session.new before after old new)
        (λ e. IsUntold old new) }
    ensures prefix { let bytes = images_of asked session.new in
        PutsPrefix (G.taken images.old) (G.taken images.new) bytes }
    ensures unasked { let before = sink_view (G.taken images.old) (G.faults images.old) in
        let after = sink_view (G.taken images.new) (G.faults images.new) in
        asked ≡ false → IsUntold before after }
    ensures stopped { IfErr result (λ e.
        ((e ≡ Refusal.OutFailed) × (outcome ≡ Err Stop.OutFailed)) ⊎ (e ≡ Refusal.NoMemory)) }
    ensures unshown { let before = sink_view (G.taken images.old) (G.faults images.old) in
        let after = sink_view (G.taken images.new) (G.faults images.new) in
        IfErr result (λ e. e ≡ Refusal.OutFailed → IsUntold before after) }
    ensures stays { IfErr result (λ e. e ≡ Refusal.OutFailed → session.new ≡ session.old) }
{
    match outcome {
        Ok(()) => show(alloc, session, summary, asked, images, report),
        Err(Stop::OutFailed) => Err(Refusal::OutFailed),
        Err(Stop::NoMemory) => Err(Refusal::NoMemory),
    }
}

/// Runs what was made up to a budget, and reports on it, by its tree or by the sums over it, behind its
/// images where they are asked for.
fn run_made<F: Files, I: Source, O: Sink, P: Sink, G: Sink>(
    alloc: Global,
    made_of: Kept,
    budget: u64,
    summary: bool,
    asked: bool,
    devices: &mut Devices<F, I, O, P, G>,
    kept: &mut Option<Kept>,
) -> Result<u8, Refusal>
    requires fresh { IsFresh made_of.session.value }
    requires acts { CanBeTaken made_of.session.value.program.acts }
    requires small { budget ≤ greatest_steps }
    ensures same { IsSomeAnd kept.new (IsSameRun made_of) }
    ensures run { let old = devices.old in let new = devices.new in
        MatchResult result
        (λ status. IsSomeAnd kept.new (IsRun summary asked budget old new status))
        (IsStopped kept.new budget old new) }
    ensures images { IsSomeAnd kept.new (λ k. let bytes = images_of asked k.session.value in
        PutsPrefix devices.old.images.taken devices.new.images.taken bytes) }
    ensures unasked { asked ≡ false → IsUntold devices.old.images devices.new.images }
    ensures prefix { let old = devices.old.out.taken in
        PutsAtMost made_of.session.value budget old devices.new.out.taken }
    ensures stay { devices.new ≡ with_sinks devices.new devices.old }
{
    let mut ran = made_of;
    let session = &mut *ran.session;
    let outcome = run_all(session, &mut devices.out, budget);
    let report = &mut devices.report;
    let images = &mut devices.images;
    let answered = answer(alloc, outcome, session, summary, asked, report, images);
    *kept = Some(ran);
    answered
}

/// Does what accepted words say: loads the classes, takes the input, runs, and reports on the run.
fn carry_out<F: Files, I: Source, O: Sink, P: Sink, G: Sink>(
    alloc: Global,
    words: &Words<'_>,
    devices: &mut Devices<F, I, O, P, G>,
    kept: &mut Option<Kept>,
) -> Result<u8, Refusal>
    requires sound { IsSound (read_in words.now) }
    requires empty { kept.old ≡ None }
    ensures stay { devices.new.told ≡ devices.old.told }
    ensures carried { (list : List (List ℕ)) → words_accepted list ≡ Some (read_in words.now) →
        IsCarried (call_of (Ok list) devices.old devices.new kept.new) result }
{
    let loaded = match prepare(alloc, words, &mut devices.files) {
        Ok(loaded) => loaded,
        Err(refusal) => return Err(refusal),
    };
    let bytes = match take(alloc, &mut devices.input) {
        Ok(bytes) => bytes,
        Err(refusal) => return Err(refusal),
    };
    let budget = loaded.budget;
    let summary = words.generated.is_some();
    let Ok(made_of) = make(alloc, loaded, bytes) else {
        return Err(Refusal::NoMemory);
    };
    run_made(alloc, made_of, budget, summary, words.images, devices, kept)
}

/// Answers for words that are texts.
fn answer_texts<F: Files, I: Source, O: Sink, P: Sink, G: Sink>(
    alloc: Global,
    words: &[&str],
    devices: &mut Devices<F, I, O, P, G>,
    kept: &mut Option<Kept>,
) -> u8
    requires texts { AreTexts (texts words.now) }
    requires empty { kept.old ≡ None }
    ensures stay { devices.new.told ≡ devices.old.told }
    ensures answered { let list = Ok (texts words.now) in
        IsAnswered (call_of list devices.old devices.new kept.new) result }
{
    let words = match read(alloc, words) {
        Ok(words) => words,
        Err(refusal) => {
            return tell(alloc, refusal, None, &[], &mut devices.report).status();
        }
    };
    let refusal = match carry_out(alloc, &words, devices, kept) {
        Ok(status) => return status,
        Err(refusal) => refusal,
    };
    tell(
        alloc,
        refusal,
        words.plan,
        &words.files,
        &mut devices.report,
    )
    .status()
}

/// Answers for words as bytes.
fn answer_words<F: Files, I: Source, O: Sink, P: Sink, G: Sink>(
    alloc: Global,
    words: &[Seq<u8>],
    devices: &mut Devices<F, I, O, P, G>,
    kept: &mut Option<Kept>,
) -> u8
    requires empty { kept.old ≡ None }
    ensures stay { devices.new.told ≡ devices.old.told }
    ensures answered { let list = Ok words.now in
        IsAnswered (call_of list devices.old devices.new kept.new) result }
{
    let texts = match texts_in(alloc, words) {
        Ok(texts) => texts,
        Err(refusal) => {
            return tell(alloc, refusal, None, &[], &mut devices.report).status();
        }
    };
    answer_texts(alloc, &texts, devices, kept)
}

/// Does what the words `jfluid [--main M] [--root R] [--budget N] [--plan P] [--images] [FILE...]`
/// say, as the system gave them: reads the plan P, fetches the class files, reads them, both in the
/// order of the words, admits them, takes the input to its end, runs the main class for at most so
/// many steps, puts what the program writes to `out` and the report to `report` of the devices, and
/// answers the exit status.
///
/// The main class is M, with slashes for dots, else the plan's; the budget is N, else the plan's,
/// else 100,000,000; the heap is the plan's, else 4,194,304 slots. `--root R` is a plan that
/// selects R before the first step: class, dot, name and descriptor, as in `P1.f(I)I`. A plan
/// selects and deselects methods at the moments that it names, before the start or behind so many
/// steps. The activations that begin in a method while it is selected are profiled with what they
/// call: the classes that they need are rewritten while the program runs, and the report has the
/// tree of their calling contexts, which is empty without any. The output is put after the start
/// and after each slice of steps, which ends at the next action, after 65,536 steps, or at the
/// budget. With `--images` each rewritten class is put to `images` behind the run: the clock, the
/// length and the bytes of its image, in the order of the swaps. What was run is left in `kept`.
///
/// `--gen SEED --size N` stands in place of the FILEs and of `--main`: no file is fetched but the
/// plan, the program is the generated one, whose main class is GenMain whatever the plan names, and
/// in place of the tree the report has its sums.
///
/// The statuses are 0, the run returned, or the program called System.exit, with the budget's last
/// step at the latest; 1, it ended uncaught; 2, the words or the plan are refused; 3, a file is no
/// class file, or the program is not admitted; 4, the budget was spent before the run ended; 5, a
/// take of input failed; 6, a put of output failed; 7, the plan or a file could not be fetched; 8,
/// a put of images or of the report failed; 9, no memory was left; 10, the code is unverifiable;
/// 11, there are more than 16,777,216 bytes of input. With 2, 3, 5, 6, 7, 9 and 11 a line on
/// `report` says it, and names the file that is at fault; where clap refuses the words, or they ask
/// for help, it is clap's text.
pub fn jfluid<F: Files, I: Source, O: Sink, P: Sink, G: Sink>(
    alloc: Global,
    words: Result<Seq<Seq<u8>>, NoMemory>,
    devices: &mut Devices<F, I, O, P, G>,
    kept: &mut Option<Kept>,
) -> u8
    ensures stay { devices.new.told ≡ devices.old.told }
    ensures answered { IsAnswered (call_of words devices.old devices.new kept.new) result }
{
    *kept = None;
    let words = match words {
        Ok(words) => words,
        Err(_) => {
            let refusal = Refusal::NoMemory;
            return tell(alloc, refusal, None, &[], &mut devices.report).status();
        }
    };
    answer_words(alloc, words.as_slice(), devices, kept)
}
