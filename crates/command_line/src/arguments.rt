//! Words that can't be had.

ghost use Rattle.std.specs.Prelude.{◌≡◌, ◌≢◌};
ghost use Rattle.std.specs.IoError.{error_kind};
ghost use Rattle.std.specs.declared.io.ErrorKind.{ErrorKind};
ghost use Rattle.command_line.specs.declared.command_words.Usage.{Usage};

use crate::command_words::Usage;
use std::io;

/// What an error of `std::env::args` says: out of memory only where a growth was refused, and otherwise that a word isn't text.
pub fn argument_fault(error: &io::Error) -> Usage
    ensures memory { error_kind error.now ≡ ErrorKind.OutOfMemory → result ≡ Usage.NoMemory }
    ensures text { error_kind error.now ≢ ErrorKind.OutOfMemory → result ≡ Usage.NotUtf8 }
{
    if error.kind() == io::ErrorKind::OutOfMemory {
        Usage::NoMemory
    } else {
        Usage::NotUtf8
    }
}
