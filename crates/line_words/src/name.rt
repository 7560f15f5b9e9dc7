//! Names of users and tables.

use model_base::MOST_NAME_BYTES;
use std::fmt;
use std::marker::Model;

/// The name of a user or a table: a to z, then a to z, 0 to 9 and underscore, at most `MOST_NAME_BYTES` in all.
///
/// It is a slice of the line that spells it, so it doesn't allocate of its own.
#[derive(Drop)]
pub struct Name<'a> {
    text: &'a str,
}

impl<'a> Model for Name<'a> {
    ghost use Rattle.std.specs.Prelude.{List, ℕ, IsTrue};
    ghost use Rattle.line_words.specs.Words.{is_name};

    ghost Value = { List ℕ };

    ghost view = { λ n. n.text.now };

    ghost invariant = { λ n. IsTrue (is_name n.text.now) };
}

impl<'a> Name<'a> {
    ghost use Rattle.std.specs.Prelude.{◌≡◌, IsTrue};
    ghost use Rattle.line_words.specs.Words.{is_name};

    /// Its text.
    pub fn as_str(&self) -> &'a str
        ensures text { result.now ≡ self.now }
        ensures name { IsTrue (is_name self.now) }
    {
        self.text
    }

    /// The name that a word is.
    #[tactic(auto, using(crate::proofs::Printable::utf8_name))]
    pub fn of(word: &'a [u8]) -> Name<'a>
        requires { IsTrue (is_name word.now) }
        ensures { result ≡ word.now }
    {
        // SAFETY: the bytes of a name are ASCII.
        let text = unsafe { str::from_utf8_unchecked(word) };
        Name { text }
    }
}

impl<'a> fmt::Display for Name<'a> {
    ghost use Rattle.std.specs.Prelude.{Some};

    ghost output = { λ n. Some n };

    fn fmt<W: fmt::Write>(&self, f: &mut fmt::Formatter<W>) -> fmt::Result {
        f.write_str(self.as_str())
    }
}

ghost use Rattle.std.specs.Prelude.{◌≡◌};
ghost use Rattle.std.specs.List.{list_all};
ghost use Rattle.line_words.specs.Words.{is_name, is_name_byte};

/// Whether the byte may be in a name. It is looked up in a table that has an n for those that may.
#[inline(always)]
pub(crate) fn may_be_in_name(byte: u8) -> bool
    ensures { result ≡ is_name_byte byte }
{
    let table =
        b"................................................nnnnnnnnnn.....................................n.nnnnnnnnnnnnnnnnnnnnnnnnnn.....................................................................................................................................";
    table[usize::from(byte)] == b'n'
}

/// Whether each byte may be in a name.
fn has_name_bytes(bytes: &[u8]) -> bool
    ensures { result ≡ list_all is_name_byte bytes.now }
{
    bytes.iter().all(|b| may_be_in_name(*b))
}

/// Whether a word has the form of a name.
pub fn has_name_form(word: &[u8]) -> bool
    ensures { result ≡ is_name word.now }
{
    let Some((first, others)) = word.split_first() else {
        return false;
    };
    first.is_ascii_lowercase() && has_name_bytes(others) && others.len() < MOST_NAME_BYTES
}
