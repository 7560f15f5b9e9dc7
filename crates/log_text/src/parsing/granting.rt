//! The kinds and the grantees of a deed.
ghost use Rattle.std.specs.Prelude.{◌≡◌, ◌≤◌, ◌∷◌, [], List, ℕ, Some, None, IfOk, IfErr, MatchOption, OnOk, bytes_eq, false, length, take, true};
ghost use Rattle.std.specs.List.{list_any};
ghost use Rattle.line_words.specs.Words.{first_word, is_name, comma_pieces};
ghost use Rattle.model_base.specs.Outcomes.{kinds_in};
ghost use Rattle.log_text.specs.Statement.{kind_word, kinds_word};
ghost use Rattle.log_text.specs.Grantees.{grantees_written, grantees_word, AreGrantees};
ghost use Rattle.log_text.specs.Versions.{MayHaveParts, parts_of, version_number};
ghost use Rattle.log_text.specs.Fault.{OfKinds, grantee_fault, grantees_fault, is_public, misfit};

use crate::grantees::RawGrantees;
use crate::kind::kinds_of;
use crate::version::Version;
use line_words::{LineFault, Pieces, Words, has_name_form};
use model_base::{Kind, Kinds, MOST_GRANTEES};

/// Takes the word of one kind, if it is the next word and another follows; otherwise the words stay as they are. It doesn't look for the
/// word's end.
#[inline(always)]
fn next_kind(words: &mut Words<'_>) -> Option<Kind>
    ensures { MatchOption result (words.new ≡ words.old) (λ k. words.old ≡ kind_word k ∷ words.new) }
{
    if words.next_is(b"READ") {
        return Some(Kind::Read);
    }
    if words.next_is(b"INSERT") {
        return Some(Kind::Insert);
    }
    if words.next_is(b"UPDATE") {
        return Some(Kind::Update);
    }
    if words.next_is(b"DELETE") {
        return Some(Kind::Delete);
    }
    None
}

/// Takes the kinds, as `kinds`, in whatever form they are written.
#[inline(never)]
fn other_kinds(version: Version, words: &mut Words<'_>) -> Result<Kinds, LineFault>
    ensures ok { IfOk result (λ k. (words.old ≡ kinds_word k ∷ words.new) × (1 ≤ length (kinds_in k))
        × MayHaveParts (version_number version) (length (kinds_in k)) × (misfit (OfKinds (version_number version)) (kinds_word k) ≡ None)) }
    ensures fault { IfErr result (λ f. misfit (OfKinds (version_number version)) (first_word words.old) ≡ Some f) }
{
    let Some(word) = words.next() else {
        return Err(LineFault::UnknownWord);
    };
    match kinds_of(version, word) {
        Some(kinds) => Ok(kinds),
        None => Err(LineFault::UnknownWord),
    }
}

/// Takes the kinds. Mostly there is one.
#[inline(always)]
pub(super) fn kinds(version: Version, words: &mut Words<'_>) -> Result<Kinds, LineFault>
    ensures ok { IfOk result (λ k. (words.old ≡ kinds_word k ∷ words.new) × (1 ≤ length (kinds_in k))
        × MayHaveParts (version_number version) (length (kinds_in k)) × (misfit (OfKinds (version_number version)) (kinds_word k) ≡ None)) }
    ensures fault { IfErr result (λ f. misfit (OfKinds (version_number version)) (first_word words.old) ≡ Some f) }
{
    match next_kind(words) {
        Some(kind) => Ok(Kinds::only(kind)),
        None => other_kinds(version, words),
    }
}

/// Whether a piece is one of this many first pieces of a word.
fn is_among(word: &[u8], count: usize, piece: &[u8]) -> bool
    ensures { result ≡ list_any (bytes_eq piece.now) (take count (comma_pieces word.now)) }
{
    let mut left = Pieces::of(word);
    let mut index = 0;
    'earlier: while index < count {
        let Some(earlier) = left.next() else {
            return false;
        };
        if piece == earlier {
            return true;
        }
        index += 1;
    }
    false
}

/// Judges a piece of a word after this many first ones.
fn judge(word: &[u8], count: usize, piece: &[u8]) -> Result<(), LineFault>
    requires { count ≤ length (comma_pieces word.now) }
    ensures fits { OnOk result (grantee_fault (take count (comma_pieces word.now)) piece.now ≡ None) }
    ensures fault { IfErr result (λ f. grantee_fault (take count (comma_pieces word.now)) piece.now ≡ Some f) }
{
    if count >= MOST_GRANTEES {
        return Err(LineFault::TooManyGrantees);
    }
    if !has_name_form(piece) && piece != b"PUBLIC".as_slice() {
        return Err(LineFault::BadName);
    }
    if is_among(word, count, piece) {
        return Err(LineFault::DuplicateGrantee);
    }
    Ok(())
}

/// The grantees that a word lists between commas.
fn listed<'a>(word: &'a [u8]) -> Result<RawGrantees<'a>, LineFault>
    ensures value { IfOk result (λ gs. gs ≡ grantees_written word.now) }
    ensures fits { OnOk result (grantees_fault [] (comma_pieces word.now) ≡ None) }
    ensures fault { IfErr result (λ f. grantees_fault [] (comma_pieces word.now) ≡ Some f) }
{
    let mut left = Pieces::of(word);
    let mut count = 0;
    'pieces: while let Some(piece) = left.next() {
        judge(word, count, piece)?;
        count += 1;
    }
    Ok(RawGrantees::of(word))
}

/// PUBLIC alone, where a word is no name.
#[tactic(auto, using(crate::proofs::GranteeLists::public_in, crate::proofs::GranteeLists::public_fits, crate::proofs::GranteeLists::public_piece, crate::proofs::GranteeLists::neither))]
fn public_alone<'a>(word: &'a [u8]) -> Result<RawGrantees<'a>, LineFault>
    requires { is_name word.now ≡ false }
    ensures value { IfOk result (λ gs. gs ≡ grantees_written word.now) }
    ensures one { OnOk result (comma_pieces word.now ≡ word.now ∷ []) }
    ensures fits { OnOk result (grantees_fault [] (word.now ∷ []) ≡ None) }
    ensures fault { IfErr result (λ f. grantees_fault [] (word.now ∷ []) ≡ Some f) }
{
    if word != b"PUBLIC".as_slice() {
        return Err(LineFault::BadName);
    }
    Ok(RawGrantees::of(word))
}

/// The grantees that a word lists, which is no name.
#[inline(never)]
fn listed_in<'a>(version: Version, word: &'a [u8]) -> Result<RawGrantees<'a>, LineFault>
    requires { is_name word.now ≡ false }
    ensures value { IfOk result (λ gs. gs ≡ grantees_written word.now) }
    ensures parts { OnOk result (comma_pieces word.now ≡ parts_of (version_number version) word.now) }
    ensures fits { OnOk result (grantees_fault [] (parts_of (version_number version) word.now) ≡ None) }
    ensures fault { IfErr result (λ f. grantees_fault [] (parts_of (version_number version) word.now) ≡ Some f) }
{
    match version {
        Version::One => public_alone(word),
        Version::Two => listed(word),
    }
}

/// Takes the grantees. Mostly there is one, of a name: its bytes are gone over once.
#[inline(always)]
pub(super) fn grantees<'a>(
    version: Version,
    words: &mut Words<'a>,
) -> Result<RawGrantees<'a>, LineFault>
    ensures ok { IfOk result (λ gs. (words.old ≡ grantees_word gs ∷ words.new) × AreGrantees gs
        × MayHaveParts (version_number version) (length gs)
        × (grantees_fault [] (parts_of (version_number version) (grantees_word gs)) ≡ None)) }
    ensures fault { IfErr result (λ f. grantees_fault [] (parts_of (version_number version) (first_word words.old)) ≡ Some f) }
{
    if let Some(name) = words.next_name() {
        return Ok(RawGrantees::of_name(name));
    }
    let Some(word) = words.next() else {
        return Err(LineFault::BadName);
    };
    listed_in(version, word)
}
