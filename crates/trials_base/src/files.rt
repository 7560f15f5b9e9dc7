//! Files of cases.

use crate::fault::{Attempt, TrialFault};
use std::alloc::{AllocError, Global};
use std::fs;
use std::io::Read;
use std::rt::Files;

/// How many bytes a file may have.
const MOST_FILE_BYTES: u64 = 1 << 20;

/// The bytes of a file.
pub fn read_file<R: Files>(rt: &R, alloc: Global, path: &str) -> Attempt<Vec<u8>> {
    let mut text = Vec::new(alloc);
    let file = fs::open(rt, path).map_err(|_| TrialFault::Open)?;
    file.take(MOST_FILE_BYTES + 1).read_to_end(&mut text)?;
    if text.len() as u64 > MOST_FILE_BYTES {
        return Err(TrialFault::TooLong);
    }
    Ok(text)
}

/// Bytes as text.
pub fn text_of(bytes: &[u8]) -> Attempt<&str> {
    str::from_utf8(bytes).map_err(|_| TrialFault::NotText)
}

/// The number that a word after the verb of a case is.
pub fn number_of(words: &[&str], index: usize) -> Attempt<u64> {
    let word = words.get(index).ok_or(TrialFault::NotText)?;
    word.parse::<u64>().map_err(|_| TrialFault::NotText)
}

/// The words of a case, which are parted by single spaces: none of a comment.
pub fn words_of(alloc: Global, line: &str) -> Result<Vec<&str>, AllocError> {
    if line.is_empty() || line.starts_with('#') {
        return Ok(Vec::new(alloc));
    }
    line.split(' ').collect::<Vec<&str>>(alloc)
}
