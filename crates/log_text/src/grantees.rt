//! The grantees of a deed, as a line spells them.

use line_words::{Name, Pieces};
use std::marker::Model;

/// To whom a deed is: to the user of a name, or to PUBLIC.
#[derive(Drop)]
pub enum RawGrantee<'a> {
    Named(Name<'a>),
    Public,
}

impl<'a> RawGrantee<'a> {
    ghost use Rattle.std.specs.Prelude.{◌≡◌};
    ghost use Rattle.log_text.specs.Grantees.{grantee_word};

    /// Its word.
    pub fn word(&self) -> &'a str
        ensures { result.now ≡ grantee_word self.now }
    {
        match self {
            RawGrantee::Named(name) => name.as_str(),
            RawGrantee::Public => "PUBLIC",
        }
    }
}

/// From one to `MOST_GRANTEES` grantees, no two of them the same: the word that lists them, which is a slice of the line, so that nothing
/// is allocated.
#[derive(Drop)]
pub struct RawGrantees<'a> {
    word: &'a str,
    /// Whether the word is known to be one name.
    is_one: bool,
}

impl<'a> Model for RawGrantees<'a> {
    ghost use Rattle.std.specs.Prelude.{List};
    ghost use Rattle.log_text.specs.declared.grantees.RawGrantee.{RawGrantee};
    ghost use Rattle.log_text.specs.Grantees.{grantees_written, AreGrantees};
    ghost use Rattle.std.specs.Prelude.{◌≡◌, IsTrue, true};
    ghost use Rattle.line_words.specs.Words.{is_name};

    ghost Value = { List RawGrantee };

    ghost view = { λ g. grantees_written g.word.now };

    ghost invariant = { λ g. AreGrantees (grantees_written g.word.now) × (g.is_one ≡ true → IsTrue (is_name g.word.now)) };
}

impl<'a> RawGrantees<'a> {
    ghost use Rattle.std.specs.Prelude.{◌≡◌, ◌∷◌, [], IfSome, IsTrue};
    ghost use Rattle.line_words.specs.Words.{is_name};
    ghost use Rattle.log_text.specs.declared.grantees.RawGrantee.TheVariants.{Named};
    ghost use Rattle.std.specs.List.{list_any};
    ghost use Rattle.log_text.specs.Grantees.{grantees_written, grantees_word, is_everyone, AreGrantees};

    /// The grantees that a word lists.
    #[tactic(auto, using(crate::proofs::GranteeLists::utf8_word))]
    pub(crate) fn of(word: &'a [u8]) -> RawGrantees<'a>
        requires { AreGrantees (grantees_written word.now) }
        ensures { result ≡ grantees_written word.now }
    {
        // SAFETY: the bytes of names, of PUBLIC and of commas are ASCII.
        let word = unsafe { str::from_utf8_unchecked(word) };
        RawGrantees {
            word,
            is_one: false,
        }
    }

    /// The grantee of a name alone.
    #[inline(always)]
    pub(crate) fn of_name(word: &'a [u8]) -> RawGrantees<'a>
        requires { IsTrue (is_name word.now) }
        ensures { result ≡ grantees_written word.now }
    {
        let name = Name::of(word);
        RawGrantees {
            word: name.as_str(),
            is_one: true,
        }
    }

    /// The name of the only grantee. None where there are several, or PUBLIC is one, or that isn't known.
    #[inline(always)]
    #[tactic(auto, using(crate::proofs::GranteeLists::name_alone))]
    pub fn only_name(&self) -> Option<Name<'a>>
        ensures { IfSome result (λ name. self.now ≡ Named name ∷ []) }
    {
        if self.is_one {
            return Some(Name::of(self.word.as_bytes()));
        }
        None
    }

    /// Their word.
    pub fn word(&self) -> &'a str
        ensures { result.now ≡ grantees_word self.now }
    {
        self.word
    }

    /// Whether PUBLIC is one of them.
    #[inline(always)]
    pub(crate) fn has_public(&self) -> bool
        ensures { result ≡ list_any is_everyone self.now }
    {
        match self.only_name() {
            Some(_) => false,
            None => self.lists_public(),
        }
    }

    /// Whether PUBLIC is one of them, as `has_public`, where it isn't known.
    fn lists_public(&self) -> bool
        ensures { result ≡ list_any is_everyone self.now }
    {
        let mut left = Pieces::of(self.word.as_bytes());
        'pieces: while let Some(piece) = left.next() {
            if piece == b"PUBLIC".as_slice() {
                return true;
            }
        }
        false
    }

    /// The grantees, to be taken one after another.
    pub fn all(&self) -> GranteesLeft<'a>
        ensures all { result ≡ self.now }
        ensures grammar { AreGrantees self.now }
    {
        GranteesLeft {
            pieces: Pieces::of(self.word.as_bytes()),
        }
    }
}

/// The grantees of a deed that are left, in order.
#[derive(Drop)]
pub struct GranteesLeft<'a> {
    pieces: Pieces<'a>,
}

impl<'a> Model for GranteesLeft<'a> {
    ghost use Rattle.std.specs.Prelude.{List};
    ghost use Rattle.std.specs.List.{AllByRecursion};
    ghost use Rattle.log_text.specs.declared.grantees.RawGrantee.{RawGrantee};
    ghost use Rattle.log_text.specs.Grantees.{grantees_named, IsGrantee};

    ghost Value = { List RawGrantee };

    ghost view = { λ g. grantees_named g.pieces };

    ghost invariant = { λ g. AllByRecursion IsGrantee (grantees_named g.pieces) };
}

impl<'a> GranteesLeft<'a> {
    ghost use Rattle.std.specs.Prelude.{◌≡◌, ◌∷◌, [], MatchOption};

    /// The next grantee.
    pub fn next(&mut self) -> Option<RawGrantee<'a>>
        ensures { MatchOption result ((self.old ≡ []) × (self.new ≡ [])) (λ g. self.old ≡ g ∷ self.new) }
    {
        let piece = self.pieces.next()?;
        if piece == b"PUBLIC".as_slice() {
            return Some(RawGrantee::Public);
        }
        Some(RawGrantee::Named(Name::of(piece)))
    }
}
