//! The words with which a program was started.

use std::rt::Env;
use std::{env, io};

/// The words with which the program was started, its name first. An error of the kind `OutOfMemory` says that a growth was refused, and any
/// other that a word isn't text.
pub fn arguments<R: Env + AllocGlobal>(rt: &R) -> io::Result<Vec<String>> {
    let words = env::args(rt)?.collect::<Vec<String>>(rt.alloc())?;
    Ok(words)
}
