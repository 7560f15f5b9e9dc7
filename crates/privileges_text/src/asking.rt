//! What is asked of privileges.

ghost use Rattle.std.specs.Prelude.{◌≡◌};
ghost use Rattle.log_text.specs.Fault.{kind_named};

use model_base::{Kind, Place};

/// Who holds a kind on the table of a name before a place, or at the end of the log.
#[derive(Clone, Copy)]
pub struct HoldersAsked<'a> {
    pub kind: Kind,
    pub table: &'a str,
    pub limit: Option<Place>,
}

/// When a user held a kind on a table, or held it with the option, both by their names.
#[derive(Clone, Copy)]
pub struct HistoryAsked<'a> {
    pub user: &'a str,
    pub kind: Kind,
    pub table: &'a str,
    pub option: bool,
}

/// The kind that a word names.
pub fn kind_named(word: &str) -> Option<Kind>
    ensures { result ≡ kind_named word.now }
{
    match word {
        "READ" => Some(Kind::Read),
        "INSERT" => Some(Kind::Insert),
        "UPDATE" => Some(Kind::Update),
        "DELETE" => Some(Kind::Delete),
        _ => None,
    }
}
