//! Trials of places of logs: on shared words, by threads, and by the machine.
//!
//! `thread_trials [again] FILE..` makes the trials of each file (`section.rt`), and prints what each step results in. After `again` a call
//! that is refused memory is made again, once it is printed whether all is as before. What is printed is compared with `stdout`.
#![tactic(auto)]

mod by_hand;
mod calls;
mod closing;
mod events;
mod machine;
mod opening;
mod places;
mod section;
mod steps;
mod telling;
mod threads;
mod trials;
mod working;

use std::env;
use std::process::ExitCode;
use std::rt::{Env, Files};
use std::sync::Wait;
use std::thread::Threads;
use telling::Teller;
use trials::try_file;
use trials_base::Attempt;

/// Makes the trials of the files that the command line names.
fn run<R: Env + Files + Threads + Wait + Print + AllocGlobal + Sync>(rt: &R) -> Attempt<()> {
    let alloc = rt.alloc();
    let words = env::args(rt)?.collect::<Vec<String>>(alloc)?;
    let again = words
        .iter()
        .skip(1)
        .take(1)
        .any(|word| word.as_str() == "again");
    let teller = Teller { rt, alloc, again };
    for path in words.iter().skip(1 + usize::from(again)) {
        try_file(&teller, path.as_str())?;
    }
    Ok(())
}

fn main(rt: HostRuntime) -> ExitCode {
    let Err(fault) = run(&rt) else {
        return ExitCode::SUCCESS;
    };
    let _ = if fault.is_of_memory() {
        eprintln!(rt; "thread_trials: out of memory")
    } else {
        eprintln!(rt; "thread_trials: {fault}")
    };
    ExitCode::FAILURE
}
