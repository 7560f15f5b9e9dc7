//! Trials of engines, books of grants, stores of versions and logs, by calls that are lines of files.
//!
//! `trials FILE..` makes the calls of each file on the world for which it is named, and prints each with what it results in, which
//! is compared with `stdout`. `trials again FILE..` makes a call again that was refused memory or a thread, and says before whether
//! all is as it was: for `tools/growths`.
#![tactic(auto)]

mod book;
mod both;
mod counting;
mod driver;
mod engines;
mod extending;
mod failing;
mod foretold;
mod gates;
mod handed_in;
mod log;
mod references;
mod versions;
mod world;

use bohm_base::arguments;
use driver::Driver;
use std::alloc::Global;
use std::process::ExitCode;
use std::rt::{Env, Files};
use std::sync::Wait;
use std::thread::Threads;
use trials_base::{Attempt, read_file, text_of};
use world::World;

/// Prints the calls of a text, which are made on the world that a name begins with.
fn print_text<R: Files + Threads + Wait + Print + Sync>(
    driver: &Driver<'_, R>,
    name: &str,
    text: &str,
) -> Attempt<()> {
    let (name, _) = name.split_once('.').unwrap_or((name, ""));
    driver.print_calls(&mut World::named(driver.alloc, name)?, text)
}

/// Prints the calls of a file.
fn print_file<R: Files + Threads + Wait + Print + Sync>(
    driver: &Driver<'_, R>,
    path: &str,
) -> Attempt<()> {
    let bytes = read_file(driver.rt, driver.alloc, path)?;
    print_text(driver, path, text_of(bytes.as_slice())?)
}

/// Prints the calls of files, one after another.
fn print_files<R: Files + Threads + Wait + Print + Sync>(
    driver: &Driver<'_, R>,
    paths: &[String],
) -> Attempt<()> {
    for path in paths {
        print_file(driver, path.as_str())?;
    }
    Ok(())
}

/// Prints the calls of the files that words name, which come after that of the program.
fn print_named<R: Files + Threads + Wait + Print + Sync>(
    rt: &R,
    alloc: Global,
    words: &[String],
) -> Attempt<()> {
    let [_, paths @ ..] = words else {
        return Ok(());
    };
    match paths {
        [first, paths @ ..] if first.as_str() == "again" => {
            print_files(&Driver::new(rt, alloc, true), paths)
        }
        paths => print_files(&Driver::new(rt, alloc, false), paths),
    }
}

/// Prints the calls of the files that the command line names.
fn run<R: Env + Files + Threads + Wait + Print + AllocGlobal + Sync>(rt: &R) -> Attempt<()> {
    let words = arguments(rt)?;
    print_named(rt, rt.alloc(), words.as_slice())
}

fn main(rt: HostRuntime) -> ExitCode {
    let Err(fault) = run(&rt) else {
        return ExitCode::SUCCESS;
    };
    let _ = if fault.is_of_memory() {
        eprintln!(rt; "trials: out of memory")
    } else {
        eprintln!(rt; "trials: {fault}")
    };
    ExitCode::FAILURE
}
