//! The command line.

use crate::format_options::{FormatOptions, options_of};
use crate::help;
use crate::serve_options::Workers;
use clap::error::ErrorKind;
use clap::{Arg, ArgAction, ArgMatches, Command, Error};
use rep_reasons::Fault;
use rep_types::{Params, Refusal, read_number};
use std::alloc::{AllocError, Global};
use uuid::Uuid;

/// The status of a usage fault.
pub const USAGE: u8 = 2;

/// An argument of a subcommand, which takes one value.
#[derive(Clone, Copy)]
enum Argument {
    /// The disk, which must be there: what it is.
    Disk(&'static str),
    /// An option that must be there: its name, what stands for its value in a usage, and what it is.
    Needed(&'static str, &'static str, &'static str),
    /// An option that need not be there.
    Free(&'static str, &'static str, &'static str),
}

impl Argument {
    /// The argument, for the parser.
    fn parsed<'a>(self, alloc: Global) -> Arg<'a> {
        match self {
            Argument::Disk(help) => Arg::new(alloc, "disk")
                .value_name("DISK")
                .required(true)
                .action(ArgAction::Set)
                .help(help),
            Argument::Needed(name, value, help) => option(alloc, name, value, help).required(true),
            Argument::Free(name, value, help) => option(alloc, name, value, help),
        }
    }
}

/// An option that takes one value.
fn option<'a>(alloc: Global, name: &'a str, value: &'a str, help: &'a str) -> Arg<'a> {
    Arg::new(alloc, name)
        .long(name)
        .value_name(value)
        .action(ArgAction::Set)
        .help(help)
}

/// A subcommand: its name, what it does, what its help says behind its options, and its arguments.
struct Subcommand {
    name: &'static str,
    about: &'static str,
    more: &'static str,
    arguments: &'static [Argument],
}

/// Judges an order.
const JUDGE: &Subcommand = &Subcommand {
    name: "judge",
    about: "Judge an order text from standard input: one verdict line for each item",
    more: help::JUDGE,
    arguments: &[],
};

/// Makes a disk.
const FORMAT: &Subcommand = &Subcommand {
    name: "format",
    about: "Make a file and format it as the disk of a new node",
    more: help::FORMAT,
    arguments: &[
        Argument::Disk("The file to make; nothing may be there yet"),
        Argument::Needed("window", "W", "Seqnos of the window, 1 to 256"),
        Argument::Needed("cells", "N", "Cells of the log, 4 to 1024"),
        Argument::Needed("rows", "R,R,..", "Rows of each table"),
        Argument::Free(
            "uuid",
            "U",
            "State UUID; without one the node belongs to no cluster yet",
        ),
    ],
};

/// Follows an order.
const FOLLOW: &Subcommand = &Subcommand {
    name: "follow",
    about: "Follow an order from standard input: its items are taken, made durable and answered, for as long as it goes on",
    more: help::FOLLOW,
    arguments: &[Argument::Disk("The disk of the node")],
};

/// Runs a script.
const RUN: &Subcommand = &Subcommand {
    name: "run",
    about: "Run a script from standard input on a replica on a new disk in memory, or on a file",
    more: help::RUN,
    arguments: &[Argument::Free("disk", "FILE", "The disk to run on")],
};

/// Prints the state of a disk.
const STATE: &Subcommand = &Subcommand {
    name: "state",
    about: "Print the saved state of a disk: its cluster and its position",
    more: help::STATE,
    arguments: &[
        Argument::Disk("The disk of the node"),
        Argument::Free("saved", "FILE", "A saved state of the same cluster"),
        Argument::Free("have", "FILE", "Where to write what the node has"),
    ],
};

/// Prints the sum of a disk.
const SUM: &Subcommand = &Subcommand {
    name: "sum",
    about: "Print the sum of a disk's rows, by which nodes are compared",
    more: help::SUM,
    arguments: &[
        Argument::Disk("The disk of the node"),
        Argument::Free(
            "at",
            "S",
            "The position, from that of the base to what is durable, which it is without it",
        ),
    ],
};

/// Writes a transfer for a joiner.
const DONATE: &Subcommand = &Subcommand {
    name: "donate",
    about: "Write for a node that joins what it lacks",
    more: help::DONATE,
    arguments: &[
        Argument::Disk("The disk of the donor"),
        Argument::Needed("have", "FILE", "What the joiner has"),
        Argument::Needed("out", "FILE", "Where to write the transfer"),
    ],
};

/// Takes a transfer.
const JOIN: &Subcommand = &Subcommand {
    name: "join",
    about: "Bring a node up to date by a transfer of another one",
    more: help::JOIN,
    arguments: &[
        Argument::Disk("The disk of the joiner"),
        Argument::Needed("from", "FILE", "The transfer"),
    ],
};

/// Serves a batch of items.
const SERVE: &Subcommand = &Subcommand {
    name: "serve",
    about: "Hand in the items of a text from standard input, together, to a node of several threads",
    more: help::SERVE,
    arguments: &[
        Argument::Disk("The disk of the node"),
        Argument::Free(
            "workers",
            Workers::VALUE_NAME,
            "Threads that hand items in, 1 to 64; 2 without it",
        ),
    ],
};

/// The subcommands, in the order in which the help names them.
const SUBCOMMANDS: &[&Subcommand] = &[JUDGE, FORMAT, FOLLOW, RUN, STATE, SUM, DONATE, JOIN, SERVE];

/// The subcommand for the parser.
fn parsed<'a>(alloc: Global, subcommand: &Subcommand) -> Result<Command<'a>, AllocError> {
    let mut command = Command::new(alloc, subcommand.name)
        .about(subcommand.about)
        .after_long_help(subcommand.more);
    for argument in subcommand.arguments {
        command = command.arg(argument.parsed(alloc))?;
    }
    Ok(command)
}

/// The program without its subcommands.
fn program<'a>(alloc: Global) -> Command<'a> {
    Command::new(alloc, "replicad")
        .version("0.1.0, of the disk formats 1 and 2")
        .about("One node of a multi-master database")
        .after_long_help(help::PROGRAM)
        .subcommand_required(true)
}

/// The command line that the program understands: one level of subcommands.
fn command<'a>(alloc: Global) -> Result<Command<'a>, AllocError> {
    let mut command = program(alloc);
    for subcommand in SUBCOMMANDS {
        command = command.subcommand(parsed(alloc, subcommand)?)?;
    }
    Ok(command)
}

/// What the words of a command line ask for.
#[derive(Drop)]
pub enum Task<'a> {
    /// Judge an order text.
    Judge,
    /// Run a script on a new disk in memory.
    Run,
    /// What is done on files.
    OnFiles(FileTask<'a>),
    /// Nothing more: the text was printed, and the program ends with this status.
    Printed(u8),
}

impl Task<'_> {
    /// The status to end with once it is done.
    pub fn status(&self) -> u8 {
        match self {
            Task::Printed(status) => *status,
            _ => 0,
        }
    }
}

/// What the words of a command line ask for that names files.
#[derive(Drop)]
pub enum FileTask<'a> {
    /// Make the file at this path a disk with these parameters and this state UUID.
    Format(&'a str, Params, Option<Uuid>),
    /// Follow an order on the disk at this path.
    Follow(&'a str),
    /// Run a script on the disk at this path.
    Run(&'a str),
    /// Print the state of the disk at this path, beside the saved state in a file where there is one, and write what the node
    /// has to a file where one is named.
    State(&'a str, Option<&'a str>, Option<&'a str>),
    /// Print the sum of the rows on the disk at this path, at this position or at what is durable.
    Sum(&'a str, Option<u64>),
    /// Write for a joiner what it lacks of the disk at this path: what it has is in the second file, and the third is written.
    Donate(&'a str, &'a str, &'a str),
    /// Bring the node on the disk at this path up to date by the transfer in the file.
    Join(&'a str, &'a str),
    /// Serve the items of a text, by so many workers, on the disk at this path.
    Serve(&'a str, Workers),
}

/// Prints help, the version or a usage fault.
fn printed<'a, R: Print + Eprint>(rt: &R, error: &Error) -> Result<Task<'a>, Fault<'a>> {
    if error.kind() == ErrorKind::OutOfMemory {
        return Err(Fault::from(Refusal::OutOfMemory));
    }
    let _ = error.print(rt);
    Ok(Task::Printed(if error.use_stderr() { USAGE } else { 0 }))
}

/// The value of an argument; nothing where it has none.
fn value_of<'a>(matches: &ArgMatches<'a>, name: &str) -> &'a str {
    match matches.get_str(name) {
        Some(value) => value,
        None => "",
    }
}

/// The fault of a value of this option of a subcommand that is not of its form.
fn wrong_value(
    alloc: Global,
    subcommand: &Subcommand,
    (name, value_name, form): (&str, &str, &str),
    value: &str,
) -> Result<Error, AllocError> {
    let message = format!(in alloc;
        "invalid value '{value}' for '--{name} <{value_name}>': it is not {form}"
    )?;
    let bin_name = format!(in alloc; "replicad {}", subcommand.name)?;
    let mut command = parsed(alloc, subcommand)?.bin_name(&bin_name)?;
    command.error(ErrorKind::ValueValidation, &message)
}

/// The task that makes the file at this path a disk as the options say.
///
/// Refuses with `BadParams` parameters outside the limits.
fn format_on<'a>(path: &'a str, options: &FormatOptions) -> Result<Task<'a>, Fault<'a>> {
    let params = options.params()?;
    Ok(Task::OnFiles(FileTask::Format(path, params, options.uuid())))
}

/// The task of `format` with these words behind it.
///
/// Refuses with `BadParams` parameters outside the limits.
fn format_task<'a, R: Print + Eprint>(
    rt: &R,
    alloc: Global,
    matches: &ArgMatches<'a>,
) -> Result<Task<'a>, Fault<'a>> {
    let window = value_of(matches, "window");
    let cells = value_of(matches, "cells");
    let rows = value_of(matches, "rows");
    match options_of(window, cells, rows, matches.get_str("uuid")) {
        Ok(options) => format_on(value_of(matches, "disk"), &options),
        Err(option) => {
            let said = (option.name(), option.value_name(), option.form());
            let value = value_of(matches, option.name());
            printed(rt, &wrong_value(alloc, FORMAT, said, value)?)
        }
    }
}

/// The task of `follow` with these words behind it.
fn follow_task<'a>(matches: &ArgMatches<'a>) -> FileTask<'a> {
    FileTask::Follow(value_of(matches, "disk"))
}

/// The task of `run` with these words behind it.
fn run_task<'a>(matches: &ArgMatches<'a>) -> Task<'a> {
    match matches.get_str("disk") {
        Some(disk) => Task::OnFiles(FileTask::Run(disk)),
        None => Task::Run,
    }
}

/// The task of `state` with these words behind it.
fn state_task<'a>(matches: &ArgMatches<'a>) -> FileTask<'a> {
    let saved = matches.get_str("saved");
    FileTask::State(value_of(matches, "disk"), saved, matches.get_str("have"))
}

/// The task of `sum` with these words behind it.
fn sum_task<'a, R: Print + Eprint>(
    rt: &R,
    alloc: Global,
    matches: &ArgMatches<'a>,
) -> Result<Task<'a>, Fault<'a>> {
    let disk = value_of(matches, "disk");
    let Some(value) = matches.get_str("at") else {
        return Ok(Task::OnFiles(FileTask::Sum(disk, None)));
    };
    match read_number(value.as_bytes()) {
        Some(position) => Ok(Task::OnFiles(FileTask::Sum(disk, Some(position)))),
        None => {
            let said = ("at", "S", "a number from 0 to 18446744073709551615");
            printed(rt, &wrong_value(alloc, SUM, said, value)?)
        }
    }
}

/// The task of `donate` with these words behind it.
fn donate_task<'a>(matches: &ArgMatches<'a>) -> FileTask<'a> {
    let have = value_of(matches, "have");
    FileTask::Donate(value_of(matches, "disk"), have, value_of(matches, "out"))
}

/// The task of `join` with these words behind it.
fn join_task<'a>(matches: &ArgMatches<'a>) -> FileTask<'a> {
    FileTask::Join(value_of(matches, "disk"), value_of(matches, "from"))
}

/// The task of `serve` with these words behind it.
fn serve_task<'a, R: Print + Eprint>(
    rt: &R,
    alloc: Global,
    matches: &ArgMatches<'a>,
) -> Result<Task<'a>, Fault<'a>> {
    let disk = value_of(matches, "disk");
    let Some(value) = matches.get_str("workers") else {
        return Ok(Task::OnFiles(FileTask::Serve(disk, Workers::two())));
    };
    match Workers::of(value) {
        Some(workers) => Ok(Task::OnFiles(FileTask::Serve(disk, workers))),
        None => {
            let said = ("workers", Workers::VALUE_NAME, Workers::FORM);
            printed(rt, &wrong_value(alloc, SERVE, said, value)?)
        }
    }
}

/// The task of the subcommand that the words name.
fn named_task<'a, R: Print + Eprint>(
    rt: &R,
    alloc: Global,
    matches: &ArgMatches<'a>,
) -> Result<Task<'a>, Fault<'a>> {
    match matches.subcommand() {
        Some(("format", matches)) => format_task(rt, alloc, matches),
        Some(("follow", matches)) => Ok(Task::OnFiles(follow_task(matches))),
        Some(("run", matches)) => Ok(run_task(matches)),
        Some(("state", matches)) => Ok(Task::OnFiles(state_task(matches))),
        Some(("sum", matches)) => sum_task(rt, alloc, matches),
        Some(("donate", matches)) => Ok(Task::OnFiles(donate_task(matches))),
        Some(("join", matches)) => Ok(Task::OnFiles(join_task(matches))),
        Some(("serve", matches)) => serve_task(rt, alloc, matches),
        _ => Ok(Task::Judge),
    }
}

/// Reads the words of the command line. Help, the version and usage faults are printed here.
///
/// Refuses with `BadParams` parameters of `format` outside the limits.
pub fn task_of<'a, R: Print + Eprint>(
    rt: &R,
    alloc: Global,
    words: &'a [String],
) -> Result<Task<'a>, Fault<'a>> {
    match command(alloc)?.try_get_matches_from(words) {
        Ok(matches) => named_task(rt, alloc, &matches),
        Err(error) => printed(rt, &error),
    }
}
