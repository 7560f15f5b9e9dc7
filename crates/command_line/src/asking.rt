//! The words that ask who holds a privilege, and when a user held one.

ghost use Rattle.std.specs.Prelude.{◌≡◌, codes, option_map};
ghost use Rattle.clap.specs.Words.{first_of, found_of, rows_of};
ghost use Rattle.command_line.specs.Privileges.{history_among, history_named, holders_among, holders_named, kind_among, option_told};

use crate::options::limit_of;
use clap::ArgMatches;
use model_base::{Kind, MOST_PLACES};
use privileges_text::{HistoryAsked, HoldersAsked, kind_named};

/// The word of an argument, if it is there.
fn word_of<'a>(found: &ArgMatches<'a>, name: &str) -> Option<&'a str>
    ensures { option_map (λ word. word.now) result ≡ first_of name.now (rows_of (found_of found.now)) }
{
    found.get_str(name)
}

/// The kind that is asked for, if the word is one.
fn kind_of(found: &ArgMatches<'_>) -> Option<Kind>
    ensures { result ≡ kind_among (rows_of (found_of found.now)) }
{
    kind_named(word_of(found, "KIND")?)
}

/// Whether the grant option is asked for. None where the last word is another.
fn option_told(word: Option<&str>) -> Option<bool>
    ensures { result ≡ option_told (option_map (λ word. word.now) word.entry) }
{
    match word {
        None => Some(false),
        Some("OPTION") => Some(true),
        Some(_) => None,
    }
}

/// What the words of `holders` ask for, if KIND is one and their place is within the limits.
pub(crate) fn holders_asked<'a>(found: &ArgMatches<'a>) -> Option<HoldersAsked<'a>>
    ensures { option_map holders_named result ≡ holders_among (rows_of (found_of found.now)) }
{
    let kind = kind_of(found)?;
    let table = word_of(found, "TABLE")?;
    let limit = limit_of(found, MOST_PLACES)?;
    Some(HoldersAsked {
        kind,
        table,
        limit: limit.place(),
    })
}

/// What the words of `history` ask for, if KIND is one and the last word, if there is one, OPTION.
pub(crate) fn history_asked<'a>(found: &ArgMatches<'a>) -> Option<HistoryAsked<'a>>
    ensures { option_map history_named result ≡ history_among (rows_of (found_of found.now)) }
{
    let user = word_of(found, "USER")?;
    let kind = kind_of(found)?;
    let table = word_of(found, "TABLE")?;
    let option = option_told(word_of(found, "OPTION"))?;
    Some(HistoryAsked {
        user,
        kind,
        table,
        option,
    })
}
