//! The subcommands of the program, as they are described to `clap`.

ghost use Rattle.std.specs.Prelude.{◌≡◌, IfOk, codes, true};
ghost use Rattle.clap.specs.Words.{app_of, new_rule, with_rule, with_subcommand};
ghost use Rattle.command_line.specs.Shapes.{bohm_app, explain_app, flag_rule, grants_app, history_app, holders_app, limit_rule, over_file, place_rule, places_rule, required_rule, rows_app, run_app, with_privileges, with_progress, with_questions, with_runs};

use crate::options::{MOST_PLACE, with_options};
use clap::builder::ValueParser;
use clap::{Arg, ArgAction, Command};
use model_base::MOST_PLACES;
use std::alloc::{AllocError, Global};

/// Adds a flag to a command's description.
fn with_flag<'a>(
    alloc: Global,
    command: Command<'a>,
    name: &'a str,
    help: &'a str,
) -> Result<Command<'a>, AllocError>
    ensures { IfOk result (λ c. app_of c ≡ with_rule (app_of command.entry) (flag_rule name.entry.now)) }
{
    let flag = Arg::new(alloc, name)
        .long(name)
        .action(ArgAction::SetTrue)
        .help(help);
    command.arg(flag)
}

/// Adds the flags for progress to a command's description.
fn with_progress<'a>(alloc: Global, command: Command<'a>) -> Result<Command<'a>, AllocError>
    ensures { IfOk result (λ c. app_of c ≡ with_progress (app_of command.entry)) }
{
    let command = with_flag(
        alloc,
        command,
        "progress",
        "Shows on standard error how much of the log is read. Without it, only if that is a terminal and standard output isn't, from one second on",
    )?;
    with_flag(
        alloc,
        command,
        "no-progress",
        "Never shows how much of the log is read",
    )
}

/// Adds the flag `--summary` to a command's description.
fn with_summary<'a>(alloc: Global, command: Command<'a>) -> Result<Command<'a>, AllocError>
    ensures { IfOk result (λ c. app_of c ≡ with_rule (app_of command.entry) (flag_rule (codes "summary"))) }
{
    with_flag(
        alloc,
        command,
        "summary",
        "Writes to standard error, at the end, how many lines of the report say what",
    )
}

/// The description of `run`, but for the flags for progress.
fn describe_run<'a>(alloc: Global) -> Result<Command<'a>, AllocError>
    ensures { IfOk result (λ c. app_of c ≡ run_app) }
{
    let file = Arg::new(alloc, "FILE").help(
        "The log. Without it, or if it is -, standard input is read",
    );
    let run = Command::new(alloc, "run")
        .about("Executes a log, and writes its report to standard output")
        .arg(file)?;
    let run = with_options(alloc, run)?;
    with_summary(alloc, run)
}

/// The description of a subcommand by its name and what it does: it has the word FILE, which has to be there.
fn over_file<'a>(alloc: Global, name: &'a str, about: &'a str) -> Result<Command<'a>, AllocError>
    ensures { IfOk result (λ c. app_of c ≡ over_file name.entry.now) }
{
    let file = Arg::new(alloc, "FILE")
        .required(true)
        .help("The log. If it is -, standard input is read");
    Command::new(alloc, name).about(about).arg(file)
}

/// Adds the word PLACE, which may be there several times, to a command's description.
fn with_places<'a>(alloc: Global, command: Command<'a>) -> Result<Command<'a>, AllocError>
    ensures { IfOk result (λ c. app_of c ≡ with_rule (app_of command.entry) places_rule) }
{
    let place = Arg::new(alloc, "PLACE")
        .action(ArgAction::Append)
        .value_parser(ValueParser::unsigned(0, MOST_PLACE))
        .help("A place of the log to explain. One or more, but none beside --denied");
    command.arg(place)
}

/// Adds the word PLACE, which may be there, to a command's description.
fn with_limit<'a>(alloc: Global, command: Command<'a>) -> Result<Command<'a>, AllocError>
    ensures { IfOk result (λ c. app_of c ≡ with_rule (app_of command.entry) (place_rule (new_rule (codes "PLACE")))) }
{
    let place = Arg::new(alloc, "PLACE")
        .value_parser(ValueParser::unsigned(0, MOST_PLACE))
        .help("The place before which the grants are in force. Without it, the end of the log");
    command.arg(place)
}

/// Adds the flags `--check` and `--denied` to a command's description.
fn with_explaining<'a>(alloc: Global, command: Command<'a>) -> Result<Command<'a>, AllocError>
    ensures { IfOk result (λ c. app_of c
        ≡ with_rule (with_rule (app_of command.entry) (flag_rule (codes "check"))) (flag_rule (codes "denied"))) }
{
    let command = with_flag(
        alloc,
        command,
        "check",
        "Checks each explanation, and prints a line 'checked' where it is sound",
    )?;
    with_flag(
        alloc,
        command,
        "denied",
        "Explains each denied place of the log, in place of those that are named",
    )
}

/// The description of `explain`, but for the flags for progress.
fn describe_explain<'a>(alloc: Global) -> Result<Command<'a>, AllocError>
    ensures { IfOk result (λ c. app_of c ≡ explain_app) }
{
    let explain = over_file(
        alloc,
        "explain",
        "Explains why the statements of places were admitted or denied",
    )?;
    let explain = with_places(alloc, explain)?;
    with_explaining(alloc, explain)
}

/// The description of `grants`, but for the flags for progress.
fn describe_grants<'a>(alloc: Global) -> Result<Command<'a>, AllocError>
    ensures { IfOk result (λ c. app_of c ≡ grants_app) }
{
    let grants = over_file(
        alloc,
        "grants",
        "Writes the grants in force before a place as a Graphviz digraph",
    )?;
    with_limit(alloc, grants)
}

/// Adds the word TABLE, which may be there, to a command's description.
fn with_table<'a>(alloc: Global, command: Command<'a>) -> Result<Command<'a>, AllocError>
    ensures { IfOk result (λ c. app_of c ≡ with_rule (app_of command.entry) (new_rule (codes "TABLE"))) }
{
    let table = Arg::new(alloc, "TABLE").help(
        "The table whose rows are written. Without it, the rows of all tables",
    );
    command.arg(table)
}

/// Adds the word PLACE before which rows stand, which may be there, to a command's description.
fn with_rows_limit<'a>(alloc: Global, command: Command<'a>) -> Result<Command<'a>, AllocError>
    ensures { IfOk result (λ c. app_of c ≡ with_rule (app_of command.entry) limit_rule) }
{
    let place = Arg::new(alloc, "PLACE")
        .value_parser(ValueParser::unsigned(0, MOST_PLACES))
        .help("The place before which the rows are there. Without it, the end of the log");
    command.arg(place)
}

/// Adds a word, which has to be there, to a command's description.
fn with_word<'a>(
    alloc: Global,
    command: Command<'a>,
    name: &'a str,
    help: &'a str,
) -> Result<Command<'a>, AllocError>
    ensures { IfOk result (λ c. app_of c ≡ with_rule (app_of command.entry) (required_rule name.entry.now)) }
{
    let word = Arg::new(alloc, name).required(true).help(help);
    command.arg(word)
}

/// Adds the words KIND and TABLE, which have to be there, to a command's description.
fn with_privilege<'a>(alloc: Global, command: Command<'a>) -> Result<Command<'a>, AllocError>
    ensures { IfOk result (λ c. app_of c
        ≡ with_rule (with_rule (app_of command.entry) (required_rule (codes "KIND"))) (required_rule (codes "TABLE"))) }
{
    let command = with_word(
        alloc,
        command,
        "KIND",
        "The kind of the privilege: READ, INSERT, UPDATE or DELETE",
    )?;
    with_word(alloc, command, "TABLE", "The table on which it is held")
}

/// Adds the word PLACE before which a privilege is held, which may be there, to a command's description.
fn with_holders_limit<'a>(alloc: Global, command: Command<'a>) -> Result<Command<'a>, AllocError>
    ensures { IfOk result (λ c. app_of c ≡ with_rule (app_of command.entry) limit_rule) }
{
    let place = Arg::new(alloc, "PLACE")
        .value_parser(ValueParser::unsigned(0, MOST_PLACES))
        .help("The place before which it is held. Without it, the end of the log");
    command.arg(place)
}

/// Adds the word OPTION, which may be there, to a command's description.
fn with_option<'a>(alloc: Global, command: Command<'a>) -> Result<Command<'a>, AllocError>
    ensures { IfOk result (λ c. app_of c ≡ with_rule (app_of command.entry) (new_rule (codes "OPTION"))) }
{
    let option = Arg::new(alloc, "OPTION").help(
        "The word OPTION, for when the user held it with the grant option",
    );
    command.arg(option)
}

/// The description of `holders`, but for the flags for progress.
fn describe_holders<'a>(alloc: Global) -> Result<Command<'a>, AllocError>
    ensures { IfOk result (λ c. app_of c ≡ holders_app) }
{
    let holders = over_file(
        alloc,
        "holders",
        "Writes who holds a privilege before a place, and by which grants",
    )?;
    let holders = with_privilege(alloc, holders)?;
    with_holders_limit(alloc, holders)
}

/// The description of `history`, but for the flags for progress.
fn describe_history<'a>(alloc: Global) -> Result<Command<'a>, AllocError>
    ensures { IfOk result (λ c. app_of c ≡ history_app) }
{
    let history = over_file(
        alloc,
        "history",
        "Writes from which place to which a user held a privilege, and by which grants",
    )?;
    let history = with_word(alloc, history, "USER", "The user who held it")?;
    let history = with_privilege(alloc, history)?;
    with_option(alloc, history)
}

/// The description of `rows`, but for the flags for progress.
fn describe_rows<'a>(alloc: Global) -> Result<Command<'a>, AllocError>
    ensures { IfOk result (λ c. app_of c ≡ rows_app) }
{
    let rows = over_file(
        alloc,
        "rows",
        "Writes the rows that are there before a place",
    )?;
    let rows = with_table(alloc, rows)?;
    with_rows_limit(alloc, rows)
}

/// Adds a subcommand, with the flags for progress, to the program's description.
fn with_subcommand<'a>(
    alloc: Global,
    program: Command<'a>,
    subcommand: Command<'a>,
) -> Result<Command<'a>, AllocError>
    requires { (with_progress (app_of subcommand)).top.is_plain ≡ true }
    ensures { IfOk result (λ c. app_of c ≡ with_subcommand (app_of program.entry) (with_progress (app_of subcommand.entry)).top) }
{
    let subcommand = with_progress(alloc, subcommand)?;
    program.subcommand(subcommand)
}

/// Adds the subcommands that run a log to the program's description.
fn with_runs<'a>(alloc: Global, program: Command<'a>) -> Result<Command<'a>, AllocError>
    ensures { IfOk result (λ c. app_of c ≡ with_runs (app_of program.entry)) }
{
    let run = describe_run(alloc)?;
    let program = with_subcommand(alloc, program, run)?;
    let serial = over_file(
        alloc,
        "serial",
        "Executes a log by the reference executor, for comparison on logs of up to some thousand lines",
    )?;
    let program = with_subcommand(alloc, program, serial)?;
    let summary = over_file(
        alloc,
        "summary",
        "Executes a log, and writes how many lines of its report say what",
    )?;
    with_subcommand(alloc, program, summary)
}

/// Adds the subcommands that ask what stands before a place to the program's description.
fn with_questions<'a>(alloc: Global, program: Command<'a>) -> Result<Command<'a>, AllocError>
    ensures { IfOk result (λ c. app_of c ≡ with_questions (app_of program.entry)) }
{
    let explain = describe_explain(alloc)?;
    let program = with_subcommand(alloc, program, explain)?;
    let grants = describe_grants(alloc)?;
    let program = with_subcommand(alloc, program, grants)?;
    let rows = describe_rows(alloc)?;
    with_subcommand(alloc, program, rows)
}

/// Adds the subcommands that ask of privileges to the program's description.
fn with_privileges<'a>(alloc: Global, program: Command<'a>) -> Result<Command<'a>, AllocError>
    ensures { IfOk result (λ c. app_of c ≡ with_privileges (app_of program.entry)) }
{
    let holders = describe_holders(alloc)?;
    let program = with_subcommand(alloc, program, holders)?;
    let history = describe_history(alloc)?;
    with_subcommand(alloc, program, history)
}

/// The program's own description of its words.
pub(crate) fn program<'a>(alloc: Global) -> Result<Command<'a>, AllocError>
    ensures { IfOk result (λ c. app_of c ≡ bohm_app) }
{
    let bohm = Command::new(alloc, "bohm")
        .version("0.1.0")
        .about("A deterministic transaction executor");
    let bohm = with_runs(alloc, bohm)?;
    let bohm = with_questions(alloc, bohm)?;
    let bohm = with_privileges(alloc, bohm)?;
    Ok(bohm.subcommand_required(true))
}
