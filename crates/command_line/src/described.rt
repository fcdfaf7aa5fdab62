//! The command as clap knows it, with the text of its help.

ghost use Rattle.std.specs.Prelude.{◌≡◌, IfOk, codes, false};
ghost use Rattle.clap.specs.Words.{app_of, new_app, rule_of, with_rule};
ghost use Rattle.command_line.specs.Described.{files as the_files, flag as flag_named, jfluid};
ghost use Rattle.command_line.specs.Described.{option as option_named};

use clap::{Arg, ArgAction, Command};
use std::alloc::{AllocError, Global};

/// What help says of the program.
const ABOUT: &str =
    "Runs a Java program of version 50 or older, and profiles what chosen methods call";

/// What help says behind the options.
const EXAMPLES: &str = "Examples:
  jfluid --main Shapes Shapes.class Square.class
  jfluid --main Sum --root 'Sum.of(I)I' Sum.class
  jfluid --plan shapes.plan --budget 5000000 Shapes.class Square.class
  jfluid --gen 1 --size 20 --root 'Gen0.run(II)I'

The Java program reads standard input and writes standard output. The report goes to standard error.";

/// What help says of each option.
const MAIN: &str = "The main class, as app.Shapes [default: the plan's]";

const ROOT: &str = "Profiles this method, as 'app.Shapes.area(I)I'";

const BUDGET: &str = "Stops after so many instructions [default: the plan's, else 100000000]";

const PLAN: &str = "A file that says what to run, and which methods to profile when";

const SEED: &str = "Runs a program that is made from this number, 0 to 2147483647";

const SIZE: &str = "How many classes a generated program has beside GenMain, 1 to 200";

const IMAGES: &str = "Writes each class that was swapped, as it then was, to jfluid.images";

/// An option that is given as `--name VALUE` or `--name=VALUE`.
fn option<'a>(alloc: Global, name: &'a str, value: &'a str, help: &'a str) -> Arg<'a>
    ensures rule { rule_of result ≡ option_named name.entry.now }
    ensures local { result.global ≡ false }
{
    Arg::new(alloc, name)
        .long(name)
        .value_name(value)
        .help(help)
}

/// An option that is given as `--name`, without a value.
fn flag<'a>(alloc: Global, name: &'a str, help: &'a str) -> Arg<'a>
    ensures rule { rule_of result ≡ flag_named name.entry.now }
    ensures local { result.global ≡ false }
{
    Arg::new(alloc, name)
        .long(name)
        .action(ArgAction::SetTrue)
        .help(help)
}

/// The words that are no option.
fn files<'a>(alloc: Global) -> Arg<'a>
    ensures rule { rule_of result ≡ the_files }
    ensures local { result.global ≡ false }
{
    Arg::new(alloc, "FILE").action(ArgAction::Append).help(
        "A class file of the program, 1 to 1,024 of them unless it is generated",
    )
}

/// The command with one argument more.
fn with_arg<'a>(command: Command<'a>, arg: Arg<'a>) -> Result<Command<'a>, AllocError>
    requires local { arg.global ≡ false }
    ensures { IfOk result (λ more.
        app_of more ≡ with_rule (app_of command.entry) (rule_of arg.entry)) }
{
    command.arg(arg)
}

/// The command without its arguments.
fn command_named<'a>(alloc: Global) -> Command<'a>
    ensures { app_of result ≡ new_app (codes "jfluid") }
{
    Command::new(alloc, "jfluid")
        .about(ABOUT)
        .after_help(EXAMPLES)
}

/// The command with its help.
pub fn command_described<'a>(alloc: Global) -> Result<Command<'a>, AllocError>
    ensures { IfOk result (λ command. app_of command ≡ jfluid) }
{
    let main = option(alloc, "main", "CLASS", MAIN);
    let root = option(alloc, "root", "METHOD", ROOT);
    let budget = option(alloc, "budget", "STEPS", BUDGET);
    let plan = option(alloc, "plan", "PLAN", PLAN);
    let seed = option(alloc, "gen", "SEED", SEED);
    let size = option(alloc, "size", "N", SIZE);
    let images = flag(alloc, "images", IMAGES);
    let command = with_arg(command_named(alloc), main)?;
    let command = with_arg(command, root)?;
    let command = with_arg(command, budget)?;
    let command = with_arg(command, plan)?;
    let command = with_arg(command, seed)?;
    let command = with_arg(command, size)?;
    let command = with_arg(command, images)?;
    with_arg(command, files(alloc))
}
