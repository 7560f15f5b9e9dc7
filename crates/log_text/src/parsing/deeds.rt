//! Grants and revocations.
ghost use Rattle.std.specs.Prelude.{◌&&◌, ◌≡◌, if◌then◌else◌, ◌∷◌, [], IsTrue, Some, not, true, IfOk, IfErr, codes};
ghost use Rattle.std.specs.List.{list_any};
ghost use Rattle.log_text.specs.Statement.{deed_words, option_words, IsDeed, IsDeedOf};
ghost use Rattle.log_text.specs.Grantees.{is_everyone};
ghost use Rattle.log_text.specs.Versions.{version_number};
ghost use Rattle.log_text.specs.Fault.{OfOption, expected_in_deed, expected_in_grant, expected_in_revoke, fault_from, is_deed};

use super::fields::{end, name};
use super::granting::{grantees, kinds};
use crate::grantees::RawGrantees;
use crate::statement::RawDeed;
use crate::version::Version;
use line_words::{LineFault, Words};

/// Takes the word OPTION, or finds the end.
fn option_or_end(words: &mut Words<'_>) -> Result<bool, LineFault>
    ensures ok { IfOk result (λ option. words.old ≡ option_words option) }
    ensures fault { IfErr result (λ f. fault_from (OfOption ∷ []) words.old ≡ Some f) }
{
    let Some(word) = words.next() else {
        return Ok(false);
    };
    if word == b"OPTION".as_slice() {
        end(words)?;
        return Ok(true);
    }
    Err(LineFault::UnknownWord)
}

/// What is after the grantees of a GRANT, to the end of the line: OPTION may be, after names.
fn option_behind(grantees: &RawGrantees<'_>, words: &mut Words<'_>) -> Result<bool, LineFault>
    ensures ok { IfOk result (λ option. (words.old ≡ option_words option) × IsTrue (not (option && list_any is_everyone grantees.now))) }
    ensures fault { IfErr result (λ f. fault_from (if list_any is_everyone grantees.now then [] else OfOption ∷ []) words.old ≡ Some f) }
{
    if grantees.has_public() {
        end(words)?;
        return Ok(false);
    }
    option_or_end(words)
}

/// What is after GRANT, to the end of the line.
fn grant<'a>(version: Version, words: &mut Words<'a>) -> Result<RawDeed<'a>, LineFault>
    ensures ok { IfOk result (λ deed. (codes "GRANT" ∷ words.old ≡ deed_words deed) × IsDeed deed
        × IsDeedOf (version_number version) deed) }
    ensures fault { IfErr result (λ f. fault_from (expected_in_grant (version_number version)) words.old ≡ Some f) }
{
    let kinds = kinds(version, words)?;
    let table = name(words)?;
    let grantees = grantees(version, words)?;
    match option_behind(&grantees, words) {
        Ok(option) => Ok(RawDeed::Grant {
            kinds,
            table,
            grantees,
            option,
        }),
        Err(fault) => Err(fault),
    }
}

/// What is after REVOKE, to the end of the line.
fn revoke<'a>(version: Version, words: &mut Words<'a>) -> Result<RawDeed<'a>, LineFault>
    ensures ok { IfOk result (λ deed. (codes "REVOKE" ∷ words.old ≡ deed_words deed) × IsDeed deed
        × IsDeedOf (version_number version) deed) }
    ensures fault { IfErr result (λ f. fault_from (expected_in_revoke (version_number version)) words.old ≡ Some f) }
{
    let kinds = kinds(version, words)?;
    let table = name(words)?;
    let grantees = grantees(version, words)?;
    end(words)?;
    Ok(RawDeed::Revoke {
        kinds,
        table,
        grantees,
    })
}

/// Whether the word begins a deed.
pub(super) fn begins_deed(word: &[u8]) -> bool
    ensures { result ≡ is_deed word.now }
{
    word == b"GRANT".as_slice() || word == b"REVOKE".as_slice()
}

/// The deed that the word begins, to the end of the line.
pub(super) fn deed<'a>(
    version: Version,
    word: &[u8],
    words: &mut Words<'a>,
) -> Result<RawDeed<'a>, LineFault>
    requires { is_deed word.now ≡ true }
    ensures ok { IfOk result (λ deed. (word.now ∷ words.old ≡ deed_words deed) × IsDeed deed × IsDeedOf (version_number version) deed) }
    ensures fault { IfErr result (λ f. fault_from (expected_in_deed (version_number version) word.now) words.old ≡ Some f) }
{
    if word == b"GRANT".as_slice() {
        return Ok(grant(version, words)?);
    }
    Ok(revoke(version, words)?)
}
