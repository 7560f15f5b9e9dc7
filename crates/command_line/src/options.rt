//! The numbers among the words: the options of `run`, by how many workers and partitions its log is run, how it is cut into batches,
//! and how many threads read its lines ahead; and the places of which `explain`, `grants` and `rows` are asked.

ghost use Rattle.std.specs.Prelude.{◌≡◌, ◌≤◌, ◌∷◌, ◌||◌, [], IfOk, IfSome, codes, option_map, true};
ghost use Rattle.command_line.specs.Ways.{IsWithin, is_alone, way_among, way_by, way_told};
ghost use Rattle.clap.specs.Words.{app_of, found_of, rows_of, with_rule};
ghost use Rattle.batched_text.specs.Settings.{are_within_limits};
ghost use Rattle.command_line.specs.Options.{IfGiven, choice_among, choice_within, given_or, has_flag, is_given, limit_among, limit_by, number_among, number_rule, number_within, place_named, progress_among, rows_among, rows_named, starts_with_digit, table_and_place, with_options};

use batched_text::Settings;
use clap::builder::ValueParser;
use clap::{Arg, ArgMatches, Command};
use model_base::{
    MOST_BATCH_STATEMENTS, MOST_KEPT_BATCHES, MOST_PARTITIONS, MOST_PLACES, MOST_WORKERS, Place,
};
use std::alloc::{AllocError, Global};

/// An option whose value is a number.
struct NumberOption {
    name: &'static str,
    least: u64,
    most: u64,
    help: &'static str,
}

const WORKERS: NumberOption = NumberOption {
    name: "workers",
    least: 1,
    most: MOST_WORKERS as u64,
    help: "How many workers run a batch, 1 to 64 [default: 4 beside --partitions, else 1: in order, which is faster]",
};

const PARTITIONS: NumberOption = NumberOption {
    name: "partitions",
    least: 1,
    most: MOST_PARTITIONS as u64,
    help: "By how many partitions a batch is placed, 1 to 64 [default: 4 beside --workers, else 1]",
};

const BATCH: NumberOption = NumberOption {
    name: "batch",
    least: 1,
    most: MOST_BATCH_STATEMENTS,
    help: "How many accepted statements a batch has, 1 to 65536; fewer where FILE isn't a regular file and has no more yet; of use beside --workers or --partitions",
};

const KEEP: NumberOption = NumberOption {
    name: "keep",
    least: 0,
    most: MOST_KEPT_BATCHES,
    help: "Before how many of the last batches the rows are kept, 0 to 65535; of use beside --workers or --partitions",
};

/// How many threads at most read lines ahead of the run.
pub(crate) const MOST_AHEAD: u64 = 63;

const AHEAD: NumberOption = NumberOption {
    name: "ahead",
    least: 0,
    most: MOST_AHEAD,
    help: "How many threads read lines ahead of a run in order, 0 to 63; pays for long logs [default: 3, or fewer where there are fewer processors]",
};

/// How many workers run a batch, or by how many partitions it is placed, where only the other is given.
const USUAL_SHARE: u64 = 4;

/// The greatest place of a log.
pub(crate) const MOST_PLACE: u64 = MOST_PLACES - 1;

/// Adds an option to a command's description. Where it isn't given it has no number.
fn with_number<'a>(
    alloc: Global,
    command: Command<'a>,
    option: &NumberOption,
) -> Result<Command<'a>, AllocError>
    ensures { IfOk result (λ c. app_of c ≡ with_rule (app_of command.entry)
        (number_rule option.now.name.now option.now.least option.now.most [])) }
{
    let number = Arg::new(alloc, option.name)
        .long(option.name)
        .value_name("N")
        .value_parser(ValueParser::unsigned(option.least, option.most))
        .help(option.help);
    command.arg(number)
}

/// Adds an option to a command's description that has this number where it isn't given.
fn with_usual_number<'a>(
    alloc: Global,
    command: Command<'a>,
    option: &NumberOption,
    usual: &'a str,
) -> Result<Command<'a>, AllocError>
    ensures { IfOk result (λ c. app_of c ≡ with_rule (app_of command.entry)
        (number_rule option.now.name.now option.now.least option.now.most (usual.entry.now ∷ []))) }
{
    let number = Arg::new(alloc, option.name)
        .long(option.name)
        .value_name("N")
        .value_parser(ValueParser::unsigned(option.least, option.most))
        .default_value(usual)
        .help(option.help);
    command.arg(number)
}

/// Adds the options of `run` to its description.
pub(crate) fn with_options<'a>(alloc: Global, run: Command<'a>) -> Result<Command<'a>, AllocError>
    ensures { IfOk result (λ c. app_of c ≡ with_options (app_of run.entry)) }
{
    let run = with_number(alloc, run, &WORKERS)?;
    let run = with_number(alloc, run, &PARTITIONS)?;
    let run = with_usual_number(alloc, run, &BATCH, "1024")?;
    let run = with_usual_number(alloc, run, &KEEP, "1")?;
    with_number(alloc, run, &AHEAD)
}

/// The number that a text gives, if it is one within these limits.
pub(crate) fn number_within(text: &str, least: u64, most: u64) -> Option<u64>
    ensures told { result ≡ number_within least most text.now }
    ensures within { IfSome result (λ n. (least ≤ n) × (n ≤ most)) }
{
    match text.parse::<u64>() {
        Ok(number) if least <= number && number <= most => Some(number),
        _ => None,
    }
}

/// The number that an option has, if it is within its limits.
fn number_of(found: &ArgMatches<'_>, option: &NumberOption) -> Option<u64>
    ensures told { result ≡ number_among option.now.name.now option.now.least option.now.most (rows_of (found_of found.now)) }
    ensures within { IfSome result (λ n. (option.now.least ≤ n) × (n ≤ option.now.most)) }
{
    match found.get_str(option.name) {
        Some(text) => number_within(text, option.least, option.most),
        None => None,
    }
}

/// A number that need not be among the words.
#[derive(Clone, Copy)]
pub enum Choice {
    /// It isn't: the usual number serves.
    Usual,
    /// This number is.
    Given(u64),
}

/// The number that a word gives, if there is a word. None where it isn't within these limits.
fn choice_within(word: Option<&str>, least: u64, most: u64) -> Option<Choice>
    ensures choice { result ≡ choice_within least most (option_map (λ text. text.now) word.entry) }
    ensures within { IfSome result (λ choice. IfGiven choice (λ n. (least ≤ n) × (n ≤ most))) }
{
    match word {
        None => Some(Choice::Usual),
        Some(text) => match number_within(text, least, most) {
            Some(number) => Some(Choice::Given(number)),
            None => None,
        },
    }
}

/// The number that an option has, if it is given. None where it isn't within its limits.
fn choice_of(found: &ArgMatches<'_>, option: &NumberOption) -> Option<Choice>
    ensures choice { result ≡ choice_among option.now.name.now option.now.least option.now.most (rows_of (found_of found.now)) }
    ensures within { IfSome result (λ choice. IfGiven choice (λ n. (option.now.least ≤ n) × (n ≤ option.now.most))) }
{
    let word = found.get_str(option.name);
    choice_within(word, option.least, option.most)
}

/// How a log is run.
#[derive(Clone, Copy)]
pub(crate) struct Way {
    /// By how many workers and partitions, and in which batches.
    pub(crate) settings: Settings,
    /// How many threads read lines ahead. The usual number is as many as pay, and none beside batches.
    pub(crate) ahead: Choice,
}

/// Whether one worker runs the log, and places it by one partition.
pub(crate) fn is_alone(settings: &Settings) -> bool
    ensures { result ≡ is_alone settings.now }
{
    settings.workers == 1 && settings.partitions == 1
}

/// Whether progress is shown on standard error.
#[derive(Clone, Copy)]
pub enum Progress {
    /// It is.
    Shown,
    /// It isn't.
    Hidden,
    /// It is where standard error is a terminal and standard output isn't, from one second on.
    Usual,
}

/// The way that goes by some settings, with this many threads that read lines ahead. None where they would be read ahead of batches.
fn way_by(settings: Settings, ahead: u64) -> Option<Way>
    requires settings { are_within_limits settings ≡ true }
    requires ahead { ahead ≤ MOST_AHEAD }
    ensures way { result ≡ way_by settings ahead }
    ensures within { IfSome result IsWithin }
{
    if is_alone(&settings) || ahead == 0 {
        let ahead = Choice::Given(ahead);
        return Some(Way { settings, ahead });
    }
    None
}

/// Whether a number is given.
fn is_given(choice: Choice) -> bool
    ensures { result ≡ is_given choice }
{
    match choice {
        Choice::Usual => false,
        Choice::Given(_) => true,
    }
}

/// How many workers there are, or partitions, by the number that is given, or else the usual share.
fn share_of(choice: Choice, most: u64) -> u64
    requires given { IfGiven choice (λ n. (1 ≤ n) × (n ≤ most)) }
    requires usual { USUAL_SHARE ≤ most }
    ensures value { result ≡ given_or choice USUAL_SHARE }
    ensures within { (1 ≤ result) × (result ≤ most) }
{
    match choice {
        Choice::Usual => USUAL_SHARE,
        Choice::Given(number) => number,
    }
}

/// How many threads read lines ahead of settings: as many as are given, or none.
fn ahead_of(choice: Choice) -> u64
    requires { IfGiven choice (λ n. n ≤ MOST_AHEAD) }
    ensures value { result ≡ given_or choice 0 }
    ensures within { result ≤ MOST_AHEAD }
{
    match choice {
        Choice::Usual => 0,
        Choice::Given(number) => number,
    }
}

/// The way by the numbers that are given.
fn way_told(
    workers: Choice,
    partitions: Choice,
    batch: u64,
    keep: u64,
    ahead: Choice,
) -> Option<Way>
    requires workers { IfGiven workers (λ n. (1 ≤ n) × (n ≤ MOST_WORKERS)) }
    requires partitions { IfGiven partitions (λ n. (1 ≤ n) × (n ≤ MOST_PARTITIONS)) }
    requires batch { (1 ≤ batch) × (batch ≤ MOST_BATCH_STATEMENTS) }
    requires keep { keep ≤ MOST_KEPT_BATCHES }
    requires ahead { IfGiven ahead (λ n. n ≤ MOST_AHEAD) }
    ensures way { result ≡ way_told workers partitions batch keep ahead }
    ensures within { IfSome result IsWithin }
{
    if !is_given(workers) && !is_given(partitions) {
        let settings = Settings {
            workers: 1,
            partitions: 1,
            batch,
            keep,
        };
        return Some(Way { settings, ahead });
    }
    let settings = Settings {
        workers: share_of(workers, MOST_WORKERS as u64) as usize,
        partitions: share_of(partitions, MOST_PARTITIONS as u64) as usize,
        batch,
        keep,
    };
    way_by(settings, ahead_of(ahead))
}

/// The way that the options of a run give, if each is within its limits.
pub(crate) fn way_of(found: &ArgMatches<'_>) -> Option<Way>
    ensures told { result ≡ way_among (rows_of (found_of found.now)) }
    ensures within { IfSome result IsWithin }
{
    let workers = choice_of(found, &WORKERS)?;
    let partitions = choice_of(found, &PARTITIONS)?;
    let batch = number_of(found, &BATCH)?;
    let keep = number_of(found, &KEEP)?;
    let ahead = choice_of(found, &AHEAD)?;
    way_told(workers, partitions, batch, keep, ahead)
}

/// Whether the flag of this name is among the words.
pub(crate) fn has_flag(found: &ArgMatches<'_>, name: &str) -> bool
    ensures { result ≡ has_flag name.now (rows_of (found_of found.now)) }
{
    match found.get_str(name) {
        Some(text) => text == "true",
        None => false,
    }
}

/// Whether progress is shown, by the flags. Where both are given it isn't.
pub(crate) fn progress_of(found: &ArgMatches<'_>) -> Progress
    ensures { result ≡ progress_among (rows_of (found_of found.now)) }
{
    if has_flag(found, "no-progress") {
        Progress::Hidden
    } else if has_flag(found, "progress") {
        Progress::Shown
    } else {
        Progress::Usual
    }
}

/// Up to where the grants of a log are asked for.
#[derive(Clone, Copy)]
pub enum Limit {
    /// The end of the log.
    End,
    /// This place, without it.
    Before(Place),
}

impl Limit {
    /// The place, if one is named.
    pub(crate) fn place(self) -> Option<Place>
        ensures { result ≡ place_named self }
    {
        match self {
            Limit::End => None,
            Limit::Before(place) => Some(place),
        }
    }
}

/// The limit by the place that is given, or else the end of the log.
fn limit_by(place: Choice) -> Limit
    ensures { result ≡ limit_by place }
{
    match place {
        Choice::Usual => Limit::End,
        Choice::Given(place) => Limit::Before(place),
    }
}

/// The limit that the words name, if their place is at most this one.
pub(crate) fn limit_of(found: &ArgMatches<'_>, most: Place) -> Option<Limit>
    ensures { result ≡ limit_among most (rows_of (found_of found.now)) }
{
    let word = found.get_str("PLACE");
    match choice_within(word, 0, most) {
        Some(place) => Some(limit_by(place)),
        None => None,
    }
}

/// Which rows of a log are asked for.
#[derive(Clone, Copy)]
pub struct RowsAsked<'a> {
    /// Of the table of this name, if one is named.
    pub table: Option<&'a str>,
    /// Those before this place, or at the end.
    pub limit: Limit,
}

/// Whether a word begins with a digit, as no name of a table does.
fn starts_with_digit(word: &str) -> bool
    ensures { result ≡ starts_with_digit word.now }
{
    match word.as_bytes().first() {
        Some(first) => first.is_ascii_digit(),
        None => false,
    }
}

/// The words for the table and for the place: a lone word that begins with a digit is the place.
fn table_and_place<'a>(
    table: Option<&'a str>,
    place: Option<&'a str>,
) -> (Option<&'a str>, Option<&'a str>)
    ensures { (option_map (λ word. word.now) result.0, option_map (λ word. word.now) result.1)
        ≡ table_and_place (option_map (λ word. word.now) table.entry) (option_map (λ word. word.now) place.entry) }
{
    match table {
        Some(word) if place.is_none() && starts_with_digit(word) => (None, table),
        _ => (table, place),
    }
}

/// The rows that the words of `rows` ask for, if their place is within the limits.
pub(crate) fn rows_asked<'a>(found: &ArgMatches<'a>) -> Option<RowsAsked<'a>>
    ensures { option_map rows_named result ≡ rows_among (rows_of (found_of found.now)) }
{
    let (table, place) = table_and_place(found.get_str("TABLE"), found.get_str("PLACE"));
    match choice_within(place, 0, MOST_PLACES) {
        Some(place) => Some(RowsAsked {
            table,
            limit: limit_by(place),
        }),
        None => None,
    }
}
