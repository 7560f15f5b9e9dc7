//! The words of the four kinds.
ghost use Rattle.std.specs.Prelude.{◌≡◌, ◌∷◌, []};
ghost use Rattle.line_words.specs.Words.{comma_pieces};
ghost use Rattle.log_text.specs.Statement.{kind_word};
ghost use Rattle.log_text.specs.Versions.{parts_of, version_number};
ghost use Rattle.log_text.specs.Fault.{kind_named};
ghost use Rattle.log_text.specs.Parsing.{NameKinds};

use crate::version::Version;
use line_words::Pieces;
use model_base::{Kind, Kinds};

/// The word of a kind.
pub fn kind_word(kind: Kind) -> &'static str
    ensures { result.now ≡ kind_word kind }
{
    match kind {
        Kind::Read => "READ",
        Kind::Insert => "INSERT",
        Kind::Update => "UPDATE",
        Kind::Delete => "DELETE",
    }
}

/// The kind that a word names.
#[inline(always)]
#[tactic(auto, using(crate::proofs::KindWords::named_insert, crate::proofs::KindWords::named_update, crate::proofs::KindWords::named_delete))]
pub(crate) fn kind_of(word: &[u8]) -> Option<Kind>
    ensures { result ≡ kind_named word.now }
{
    match word {
        b"READ" => Some(Kind::Read),
        b"INSERT" => Some(Kind::Insert),
        b"UPDATE" => Some(Kind::Update),
        b"DELETE" => Some(Kind::Delete),
        _ => None,
    }
}

/// The kinds whose words the pieces of a word are, in order.
#[inline(never)]
fn listed_kinds(word: &[u8]) -> Option<Kinds>
    ensures { NameKinds result (comma_pieces word.now) }
{
    let mut left = Pieces::of(word);
    let read = left.takes(b"READ");
    let insert = left.takes(b"INSERT");
    let update = left.takes(b"UPDATE");
    let delete = left.takes(b"DELETE");
    if !left.is_empty() {
        return None;
    }
    Some(Kinds {
        read,
        insert,
        update,
        delete,
    })
}

/// The one kind whose word a word is.
#[inline(always)]
#[tactic(auto, using(crate::proofs::KindLists::one_kind, crate::proofs::KindLists::no_kind))]
fn one_kind(word: &[u8]) -> Option<Kinds>
    ensures { NameKinds result (word.now ∷ []) }
{
    match kind_of(word) {
        Some(kind) => Some(Kinds::only(kind)),
        None => None,
    }
}

/// The kinds that a word lists.
#[inline(always)]
pub(crate) fn kinds_of(version: Version, word: &[u8]) -> Option<Kinds>
    ensures { NameKinds result (parts_of (version_number version) word.now) }
{
    match version {
        Version::One => one_kind(word),
        Version::Two => listed_kinds(word),
    }
}
