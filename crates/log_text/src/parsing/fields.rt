//! What is in one place of a line: a name, a number, a register, a row, a bar.
ghost use Rattle.std.specs.Prelude.{MatchBool, ◌≡◌, ◌∷◌, ◌<◌, ◌^◌, [], Some, None, List, ℕ, IfOk, IfErr, IsTrue, OnOk, codes, true};
ghost use Rattle.std.specs.Fmt.{decimal, signed_decimal};
ghost use Rattle.line_words.specs.Words.{is_name, plain, signed_of, first_word};
ghost use Rattle.log_text.specs.Statement.{row_word, IsRowNumber};
ghost use Rattle.log_text.specs.Fault.{OfName, OfPlain, OfWhole, OfRegister, OfRow, OfBar, misfit, fault_from, register_fault};
ghost use Rattle.model_base.specs.Body.{fits_64_bits};

use line_words::{LineFault, Name, Words, plain_value, whole_value};
use model_base::{MOST_REGISTERS, Register, RowName};

/// Takes a name.
#[inline(always)]
pub(crate) fn name<'a>(words: &mut Words<'a>) -> Result<Name<'a>, LineFault>
    ensures ok { IfOk result (λ n. (words.old ≡ n ∷ words.new) × IsTrue (is_name n)) }
    ensures fault { IfErr result (λ f. misfit OfName (first_word words.old) ≡ Some f) }
{
    match words.next_name() {
        Some(word) => Ok(Name::of(word)),
        None => Err(LineFault::BadName),
    }
}

/// Takes a plain number.
#[tactic(auto, using(line_words::proofs::Plain::plain_of_decimal, line_words::proofs::Plain::plain_some, line_words::proofs::Plain::plain_empty))]
#[inline(always)]
pub(crate) fn number(words: &mut Words<'_>) -> Result<u32, LineFault>
    ensures ok { IfOk result (λ n. (words.old ≡ decimal n ∷ words.new) × (n < 2 ^ 32) × (plain (decimal n) ≡ Some n)) }
    ensures fault { IfErr result (λ f. misfit OfPlain (first_word words.old) ≡ Some f) }
{
    if let Some(number) = words.next_number() {
        return Ok(number);
    }
    match words.next() {
        Some(word) => plain_value(word).ok_or(LineFault::BadNumber),
        None => Err(LineFault::BadNumber),
    }
}

/// Takes a whole number.
#[tactic(auto, using(line_words::proofs::Whole::whole_some, line_words::proofs::Whole::whole_of_decimal, crate::proofs::Missing::whole_missing))]
#[inline(always)]
pub(crate) fn whole_number(words: &mut Words<'_>) -> Result<i64, LineFault>
    ensures ok { IfOk result (λ z. (words.old ≡ signed_decimal z ∷ words.new) × IsTrue (fits_64_bits z)
        × (signed_of (signed_decimal z) ≡ Some z)) }
    ensures fault { IfErr result (λ f. misfit OfWhole (first_word words.old) ≡ Some f) }
{
    if let Some(number) = words.next_number() {
        return Ok(i64::from(number));
    }
    if let Some(number) = words.next_negative() {
        return Ok(number);
    }
    match words.next() {
        Some(word) => whole_value(word).ok_or(LineFault::BadNumber),
        None => Err(LineFault::BadNumber),
    }
}

/// The register of a number.
#[inline(always)]
fn numbered_register(number: u32) -> Result<Register, LineFault>
    ensures ok { IfOk result (λ n. (n ≡ number) × (n < MOST_REGISTERS)) }
    ensures fault { IfErr result (λ f. register_fault (Some number) ≡ Some f) }
    ensures fits { OnOk result (register_fault (Some number) ≡ None) }
{
    if number >= MOST_REGISTERS as u32 {
        return Err(LineFault::BadRegister);
    }
    Ok(Register::new(number as u8))
}

/// The register that a word spells.
#[inline(never)]
#[tactic(auto, using(line_words::proofs::Plain::plain_some))]
pub(crate) fn register_of(word: &[u8]) -> Result<Register, LineFault>
    ensures ok { IfOk result (λ n. (word.now ≡ decimal n) × (n < MOST_REGISTERS)) }
    ensures fault { IfErr result (λ f. misfit OfRegister word.now ≡ Some f) }
    ensures fits { OnOk result (misfit OfRegister word.now ≡ None) }
{
    let Some(number) = plain_value(word) else {
        return Err(LineFault::BadNumber);
    };
    numbered_register(number)
}

/// Takes a register.
#[tactic(auto, using(line_words::proofs::Plain::plain_of_decimal, line_words::proofs::Plain::plain_empty))]
#[inline(always)]
pub(crate) fn register(words: &mut Words<'_>) -> Result<Register, LineFault>
    ensures ok { IfOk result (λ n. (words.old ≡ decimal n ∷ words.new) × (n < MOST_REGISTERS) × (misfit OfRegister (decimal n) ≡ None)) }
    ensures fault { IfErr result (λ f. misfit OfRegister (first_word words.old) ≡ Some f) }
{
    if let Some(number) = words.next_number() {
        return numbered_register(number);
    }
    match words.next() {
        Some(word) => register_of(word),
        None => Err(LineFault::BadNumber),
    }
}

/// Takes a row.
#[tactic(auto, using(line_words::proofs::Plain::plain_empty, line_words::proofs::Plain::plain_some, crate::proofs::Rows::row_fits))]
#[inline(always)]
pub(crate) fn row(words: &mut Words<'_>) -> Result<RowName, LineFault>
    ensures ok { IfOk result (λ r. (words.old ≡ row_word r ∷ words.new) × IsRowNumber r × (misfit OfRow (row_word r) ≡ None)) }
    ensures fault { IfErr result (λ f. misfit OfRow (first_word words.old) ≡ Some f) }
{
    if let Some(number) = words.next_number() {
        return Ok(RowName::Number(number));
    }
    let Some(word) = words.next() else {
        return Err(LineFault::BadNumber);
    };
    if let Some((b'r', register)) = word.split_first() {
        return Ok(RowName::Held(register_of(register)?));
    }
    let Some(number) = plain_value(word) else {
        return Err(LineFault::BadNumber);
    };
    Ok(RowName::Number(number))
}

/// Takes a bar, or finds the end.
#[inline(always)]
pub(crate) fn bar_or_end(words: &mut Words<'_>) -> Result<bool, LineFault>
    ensures ok { IfOk result (λ more. MatchBool more (words.old ≡ codes "|" ∷ words.new) (words.old ≡ [])) }
    ensures fault { IfErr result (λ f. (version steps outs : ℕ) → fault_from (OfBar version steps outs ∷ []) words.old ≡ Some f) }
{
    if words.next_bar() {
        return Ok(true);
    }
    if words.is_empty() {
        return Ok(false);
    }
    match words.next() {
        None => Ok(false),
        Some(word) if word == b"|".as_slice() => Ok(true),
        Some(_) => Err(LineFault::UnknownWord),
    }
}

/// Nothing may follow.
pub(crate) fn end(words: &mut Words<'_>) -> Result<(), LineFault>
    ensures ok { OnOk result (words.old ≡ []) }
    ensures fault { IfErr result (λ f. fault_from [] words.old ≡ Some f) }
{
    match words.next() {
        Some(_) => Err(LineFault::UnknownWord),
        None => Ok(()),
    }
}
