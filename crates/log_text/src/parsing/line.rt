//! A line, and the statement that it reads as.
ghost use Rattle.std.specs.Prelude.{◌≡◌, ◌≢◌, ◌<◌, ◌≤◌, ◌∷◌, List, ℕ, None, Some, MatchResult, IfOk, IfErr, IsTrue, OnOk, length};
ghost use Rattle.std.specs.List.{list_all};
ghost use Rattle.log_text.specs.LineBuffers.{sentence_of};
ghost use Rattle.log_text.specs.Statement.{Sentence, Reads, ReadsIn};
ghost use Rattle.line_words.specs.Faults.{IsFault};
ghost use Rattle.log_text.specs.Fault.{OfName, fault_in, line_fault, misfit, whole_fault, words_fault};
ghost use Rattle.line_words.specs.Words.{first_word, is_name, is_printable};

use super::fields::name;
use super::form::{other_form, run, takes_run};
use crate::line_buffers::{LineBuffers, leave_none, same_name};
use crate::statement::RawStatement;
use crate::version::Version;
use line_io::MOST_LINE_BYTES;
use line_words::{LineFault, Name, Words};
use std::alloc::Global;

/// Whether each byte is a printable one of ASCII. It looks at all of them, so that many are tested at once.
fn is_printable_text(line: &[u8]) -> bool
    ensures { result ≡ list_all is_printable line.now }
{
    let mut printable = true;
    for byte in line {
        printable &= *byte >= 32 && *byte <= 126;
    }
    printable
}

/// The fault of a line whose words have this one: a byte that isn't printable counts before it.
#[cold]
#[inline(never)]
fn first_fault(version: Version, line: &[u8], fault: LineFault) -> LineFault
    requires short { length line.now ≤ MOST_LINE_BYTES }
    requires some { 0 < length line.now }
    requires fault { IsFault fault (words_fault version line.now) }
    ensures fault { IsFault result (fault_in version line.now) }
    ensures whole { (f : LineFault) → whole_fault line.now ≡ Some f → result ≡ f }
{
    if is_printable_text(line) {
        fault
    } else {
        LineFault::NotAscii
    }
}

/// Takes the name of a user. That of the line before is compared first: mostly one user makes several lines.
#[inline(always)]
fn take_user<'a>(words: &mut Words<'a>, user: &mut Name<'a>) -> Result<(), LineFault>
    ensures ok { OnOk result ((words.old ≡ user.new ∷ words.new) × IsTrue (is_name user.new)) }
    ensures fault { IfErr result (λ f. misfit OfName (first_word words.old) ≡ Some f) }
{
    if words.next_same(user) {
        let _name = user.as_str();
        return Ok(());
    }
    *user = name(words)?;
    Ok(())
}

/// Reads a line of a version, without its end of line, into the room: what is there then is the statement that the line reads as. Accesses
/// and steps take memory only where there isn't room enough. `NoMemory` comes only where the allocator refused. After an error nothing is
/// known of what is in the room.
#[tactic(auto, using(crate::proofs::Grammar::only_memory, crate::proofs::Grammar::found_fault))]
pub fn read_into<'a>(
    version: Version,
    line: &'a [u8],
    room: &mut LineBuffers<'a>,
) -> Result<(), LineFault>
    // What is in the room is what the line reads as.
    ensures read { OnOk result (ReadsIn version line.now (sentence_of room.new)) }
    // A line that reads as a statement is read, unless memory runs out.
    ensures only { (s : Sentence)
        → ReadsIn version line.now s → MatchResult result (λ _. sentence_of room.new ≡ s) (λ f. f ≡ LineFault.NoMemory) }
    // Only a line with no fault is read.
    ensures sound { OnOk result (fault_in version line.now ≡ None) }
    // Any other fault is the first of the line's.
    ensures fault { IfErr result (λ f. f ≢ LineFault.NoMemory → fault_in version line.now ≡ Some f) }
    // A line that is too long or empty, or has a byte that isn't printable, is returned as such, and never as out of memory.
    ensures whole { (f : LineFault) → whole_fault line.now ≡ Some f → result ≡ Err f }
{
    // Whether each byte is printable is asked only where the words have a fault: a line that reads as a statement has printable bytes
    // alone.
    if line.len() > MOST_LINE_BYTES {
        return Err(LineFault::TooLong);
    }
    if line.is_empty() {
        return Err(LineFault::Empty);
    }
    let mut words = Words::of(line);
    if let Err(fault) = take_user(&mut words, &mut room.user) {
        return Err(first_fault(version, line, fault));
    }
    if takes_run(&mut words) {
        leave_none(&mut room.other);
        return match run(version, &mut words, room) {
            Ok(()) => Ok(()),
            Err(fault) => Err(first_fault(version, line, fault)),
        };
    }
    match other_form(version, &mut words) {
        Ok(form) => {
            room.other = Some(RawStatement::of(same_name(&room.user), form));
            Ok(())
        }
        Err(fault) => Err(first_fault(version, line, fault)),
    }
}

/// The statement that a line of a version, without its end of line, reads as, or the line's fault. `NoMemory` comes only where the
/// allocator refused.
pub fn parse_line_in<'a>(
    alloc: Global,
    version: Version,
    line: &'a [u8],
) -> Result<RawStatement<'a>, LineFault>
    // What is returned is what the line reads as.
    ensures read { IfOk result (λ s. ReadsIn version line.now s) }
    // A line that reads as a statement is returned as it, unless memory runs out.
    ensures only { (s : Sentence) → ReadsIn version line.now s → MatchResult result (λ found. found ≡ s) (λ f. f ≡ LineFault.NoMemory) }
    // Only a line with no fault is read.
    ensures sound { OnOk result (fault_in version line.now ≡ None) }
    // Any other fault is the first of the line's.
    ensures fault { IfErr result (λ f. f ≢ LineFault.NoMemory → fault_in version line.now ≡ Some f) }
    // A line that is too long or empty, or has a byte that isn't printable, is returned as such, and never as out of memory.
    ensures whole { (f : LineFault) → whole_fault line.now ≡ Some f → result ≡ Err f }
{
    let mut buffers = LineBuffers::new(alloc);
    read_into(version, line, &mut buffers)?;
    Ok(buffers.into_statement())
}

/// The statement that a line of version 1 reads as, or the line's fault, as `parse_line_in`.
pub fn parse_line<'a>(alloc: Global, line: &'a [u8]) -> Result<RawStatement<'a>, LineFault>
    // What is returned is what the line reads as.
    ensures read { IfOk result (λ s. Reads line.now s) }
    // A line that reads as a statement is returned as it, unless memory runs out.
    ensures only { (s : Sentence) → Reads line.now s → MatchResult result (λ found. found ≡ s) (λ f. f ≡ LineFault.NoMemory) }
    // Only a line with no fault is read.
    ensures sound { OnOk result (line_fault line.now ≡ None) }
    // Any other fault is the first of the line's.
    ensures fault { IfErr result (λ f. f ≢ LineFault.NoMemory → line_fault line.now ≡ Some f) }
    // A line that is too long or empty, or has a byte that isn't printable, is returned as such, and never as out of memory.
    ensures whole { (f : LineFault) → whole_fault line.now ≡ Some f → result ≡ Err f }
{
    parse_line_in(alloc, Version::One, line)
}

/// No line of a version reads as two statements, no two lines as one, and none with a fault as any.
pub fn one_spelling(version: Version)
    ensures statement { (line : List ℕ) (s t : Sentence) → ReadsIn version line s → ReadsIn version line t → s ≡ t }
    ensures line { (l m : List ℕ) (s : Sentence) → ReadsIn version l s → ReadsIn version m s → l ≡ m }
    ensures fault { (line : List ℕ) (s : Sentence) → ReadsIn version line s → fault_in version line ≡ None }
{}

/// A line that reads as a statement in version 1 reads as it in version 2.
pub fn reads_in_both()
    ensures { (line : List ℕ) (s : Sentence) → ReadsIn Version.One line s → ReadsIn Version.Two line s }
{}
