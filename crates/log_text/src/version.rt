//! The versions of the grammar.

ghost use Rattle.std.specs.Prelude.{◌≡◌, bytes_eq};
ghost use Rattle.log_text.specs.Versions.{heading_line};

/// A version of the grammar of a line. From the second on a deed may name several kinds and several grantees, each list one word with
/// commas. All else is the same.
#[derive(Clone, Copy)]
pub enum Version {
    One,
    Two,
}

/// Whether the line is the one that a log of version 2 begins with.
pub fn is_heading_line(line: &[u8]) -> bool
    ensures { result ≡ bytes_eq line.now heading_line }
{
    line == b"BOHM 2".as_slice()
}
