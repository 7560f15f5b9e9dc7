//! The words of a line, one after another.
ghost use Rattle.std.specs.Prelude.{◌≡◌, ◌≢◌, ◌+◌, ◌-◌, ◌<◌, ◌≤◌, ◌==◌, ◌^◌, ◌++◌, List, ℕ, [], ◌∷◌, codes, decimal, drop, false, not, true, length, IsTrue, slice_index_or, take, MatchBool, MatchOption};
ghost use Rattle.std.specs.Bool.{OnTrue};
ghost use Rattle.std.specs.Fmt.{signed_decimal};
ghost use Rattle.std.specs.List.{list_all, position_or_len, prefix_len};
ghost use Rattle.std.specs.Str.Parse.{AllDigits, digits_value};
ghost use Rattle.line_words.specs.Access.{IsAccess, access_word, letter_if};
ghost use Rattle.line_words.specs.StepWords.{step_word};
ghost use Rattle.line_words.specs.Words.{words, words_from, split_from, first_word, is_name, is_name_byte};
ghost use Rattle.model_base.specs.Body.{fits_64_bits};

use crate::access::RawAccess;
use crate::name::{Name, may_be_in_name};
use crate::step_name::StepName;
use model_base::{Kinds, MOST_NAME_BYTES, MOST_REGISTERS, Register};
use std::marker::Model;

/// The index of the first byte of this value at or after `start`, or the length if there is none.
pub(crate) fn place_from(bytes: &[u8], start: usize, value: u8) -> usize
    requires { start ≤ length bytes.now }
    ensures value { result ≡ start + position_or_len (λ b. b == value) (drop start bytes.now) }
    ensures bound { result ≤ length bytes.now }
{
    let mut place = start;
    while place < bytes.len() && bytes[place] != value {
        place += 1;
    }
    place
}

/// The index of the first byte at or after `start` that can't be in a name, or the length if there is none.
fn name_end(bytes: &[u8], start: usize) -> usize
    requires { start ≤ length bytes.now }
    ensures value { result ≡ start + prefix_len is_name_byte (drop start bytes.now) }
    ensures bound { result ≤ length bytes.now }
{
    let mut place = start;
    while place < bytes.len() && may_be_in_name(bytes[place]) {
        place += 1;
    }
    place
}

/// Whether the four bytes at an index are the same in both. They are compared as one number.
#[inline(always)]
fn same_four(text: &[u8], word: &[u8], at: usize) -> bool
    requires text { at + 4 ≤ length text.now }
    requires word { at + 4 ≤ length word.now }
    ensures { OnTrue result ((k : ℕ) → at ≤ k → k < at + 4 → slice_index_or text.now k 0 ≡ slice_index_or word.now k 0) }
{
    let own = u32::from_le_bytes([text[at], text[at + 1], text[at + 2], text[at + 3]]);
    let other = u32::from_le_bytes([word[at], word[at + 1], word[at + 2], word[at + 3]]);
    own == other
}

/// Whether a text begins with a word of one to three bytes: its first byte, the middle one and the last are all of it.
#[inline(always)]
fn begins_with_few(text: &[u8], word: &[u8]) -> bool
    requires within { length word.now ≤ length text.now }
    requires some { 0 < length word.now }
    requires few { length word.now < 4 }
    ensures { OnTrue result (take (length word.now) text.now ≡ word.now) }
{
    let (middle, last) = (word.len() / 2, word.len() - 1);
    text[last] == word[last] && text[middle] == word[middle] && text[0] == word[0]
}

/// Whether two texts are the same, whatever their length.
#[cold]
#[inline(never)]
fn is_same(text: &[u8], other: &[u8]) -> bool
    ensures { OnTrue result (text.now ≡ other.now) }
{
    text == other
}

/// Whether a text begins with a word. One of four to eight bytes, as most names are, is compared by its first four and its last four.
#[inline(always)]
fn begins_with(text: &[u8], word: &[u8]) -> bool
    requires { length word.now ≤ length text.now }
    ensures { OnTrue result (take (length word.now) text.now ≡ word.now) }
{
    let len = word.len();
    if len == 0 || len > 8 {
        return is_same(&text[..len], word);
    }
    if len < 4 {
        return begins_with_few(text, word);
    }
    same_four(text, word, 0) && same_four(text, word, len - 4)
}

/// Whether two texts are the same, compared as by `begins_with`. For names this is faster than `==`.
#[inline(always)]
pub fn same_text(text: &[u8], other: &[u8]) -> bool
    ensures { OnTrue result (text.now ≡ other.now) }
{
    text.len() == other.len() && begins_with(text, other)
}

/// Whether a name is at an index of a line, with a colon after it.
#[inline(always)]
fn has_name_at(line: &[u8], start: usize, name: &Name<'_>) -> bool
    requires { start ≤ length line.now }
    ensures within { OnTrue result (start + length name.now < length line.now) }
    ensures name { OnTrue result (take (length name.now) (drop start line.now) ≡ name.now) }
    ensures colon { OnTrue result (slice_index_or line.now (start + length name.now) 0 ≡ 58) }
{
    let text = &line[start..];
    let word = name.as_str().as_bytes();
    text.len() > word.len() && text[word.len()] == b':' && begins_with(text, word)
}

/// The index of the first byte at or after `start` that can't be in a name, as `name_end`. One name is compared first: where it is there,
/// with a colon after it, its bytes aren't gone over one by one.
#[inline(always)]
fn name_end_by(line: &[u8], start: usize, near: Option<&Name<'_>>) -> usize
    requires { start ≤ length line.now }
    ensures value { result ≡ start + prefix_len is_name_byte (drop start line.now) }
    ensures bound { result ≤ length line.now }
{
    match near {
        Some(name) if has_name_at(line, start, name) => start + name.as_str().len(),
        _ => name_end(line, start),
    }
}

/// Whether a word ends before an index of a line: a space is there, or the line ends.
#[inline(always)]
fn ends_at(line: &[u8], end: usize) -> bool
    ensures { OnTrue result (end < length line.now → slice_index_or line.now end 0 ≡ 32) }
{
    end >= line.len() || line[end] == b' '
}

/// This many digits at most are taken at once: what they write is below 2^32.
const MOST_DIGITS: usize = 9;

/// The number that the digits at an index of the line write, `MOST_DIGITS` of them at most, and the index after them.
#[inline(always)]
fn digits_from(line: &[u8], start: usize) -> (u32, usize)
    requires { start ≤ length line.now }
    ensures behind { start ≤ result.1 }
    ensures few { result.1 ≤ start + MOST_DIGITS }
    ensures within { result.1 ≤ length line.now }
    ensures digits { AllDigits 10 (take (result.1 - start) (drop start line.now)) }
    ensures value { result.0 ≡ digits_value 10 (take (result.1 - start) (drop start line.now)) }
{
    let last = line.len().min(start + MOST_DIGITS);
    let mut value = 0;
    let mut place = start;
    while place < last && line[place].is_ascii_digit() {
        value = value * 10 + u32::from(line[place] - b'0');
        place += 1;
    }
    (value, place)
}

/// The piece between bytes of a value at an index of a text, and the index of the piece after it. None past the text's end.
#[cold]
#[inline(never)]
pub(crate) fn piece_at(text: &[u8], start: usize, value: u8) -> Option<(&[u8], usize)>
    ensures { MatchOption result (split_from value start text.now ≡ [])
        (λ p. split_from value start text.now ≡ p.0.now ∷ split_from value p.1 text.now) }
{
    if start > text.len() {
        return None;
    }
    let end = place_from(text, start, value);
    Some((&text[start..end], end + 1))
}

/// The number of two to nine digits that is the word at an index of a line, in decimal form, and the index after it, or that index itself
/// where no such number is the word.
#[inline(always)]
fn long_number_at(line: &[u8], start: usize) -> (u32, usize)
    ensures behind { start ≤ result.1 }
    ensures within { start < result.1 → result.1 ≤ length line.now }
    ensures number { start < result.1 → (words_from start line.now ≡ decimal result.0 ∷ words_from (result.1 + 1) line.now)
        × (result.0 < 2 ^ 32) }
{
    if start >= line.len() || line[start] == b'0' {
        return (0, start);
    }
    let (number, end) = digits_from(line, start);
    if ends_at(line, end) {
        (number, end)
    } else {
        (0, start)
    }
}

/// Whether a digit is at an index of a text, and a space after it. The two bytes are tested as one number.
#[inline(always)]
fn has_digit(text: &[u8], at: usize) -> bool
    requires { at + 2 ≤ length text.now }
    ensures digit { OnTrue result ((48 ≤ slice_index_or text.now at 0) × (slice_index_or text.now at 0 ≤ 57)) }
    ensures space { OnTrue result (slice_index_or text.now (at + 1) 0 ≡ 32) }
{
    let pair = u16::from_le_bytes([text[at], text[at + 1]]);
    pair >= 0x2030 && pair <= 0x2039
}

/// Whether a digit is at an index of a text, and a bar between spaces after it. The four bytes are tested as one number.
#[inline(always)]
fn has_last_digit(text: &[u8], at: usize) -> bool
    requires { at + 4 ≤ length text.now }
    ensures digit { OnTrue result ((48 ≤ slice_index_or text.now at 0) × (slice_index_or text.now at 0 ≤ 57)) }
    ensures space { OnTrue result (slice_index_or text.now (at + 1) 0 ≡ 32) }
    ensures bar { OnTrue result (slice_index_or text.now (at + 2) 0 ≡ 124) }
    ensures end { OnTrue result (slice_index_or text.now (at + 3) 0 ≡ 32) }
{
    let four = u32::from_le_bytes([text[at], text[at + 1], text[at + 2], text[at + 3]]);
    four >= 0x207c_2030 && four <= 0x207c_2039
}

/// Whether a letter is at an index of the line, and the index after it.
#[inline(always)]
fn behind_letter(line: &[u8], place: usize, letter: u8) -> (bool, usize)
    requires { place ≤ length line.now }
    ensures letter { drop place line.now ≡ letter_if result.0 letter ++ drop result.1 line.now }
    ensures count { result.1 ≡ place + length (letter_if result.0 letter) }
    ensures within { result.1 ≤ length line.now }
{
    if place < line.len() && line[place] == letter {
        (true, place + 1)
    } else {
        (false, place)
    }
}

/// Whether a text begins with RUN and a space.
#[inline(always)]
fn begins_with_run(text: &[u8]) -> bool
    ensures long { OnTrue result (3 < length text.now) }
    ensures word { OnTrue result (take 3 text.now ≡ codes "RUN") }
    ensures space { OnTrue result (slice_index_or text.now 3 0 ≡ 32) }
{
    text.len() >= 4 && text[0] == b'R' && text[1] == b'U' && text[2] == b'N' && text[3] == b' '
}

/// The words of a line that are left: the pieces between single spaces from an index of the line on. Past the line's
/// end there are none.
#[derive(Drop)]
pub struct Words<'a> {
    line: &'a [u8],
    start: usize,
}

impl<'a> Model for Words<'a> {
    ghost Value = { List (List ℕ) };

    ghost view = { λ w. words_from w.start w.line.now };
}

impl<'a> Words<'a> {
    /// The words of the line.
    pub fn of(line: &'a [u8]) -> Words<'a>
        ensures { result ≡ words line.now }
    {
        Words { line, start: 0 }
    }

    /// These words, to be taken apart from where they are.
    #[inline(always)]
    pub fn same(&self) -> Words<'a>
        ensures { result ≡ self.now }
    {
        Words {
            line: self.line,
            start: self.start,
        }
    }

    /// Whether no word is left.
    #[inline(always)]
    pub fn is_empty(&self) -> bool
        ensures { MatchBool result (self.now ≡ []) (self.now ≢ []) }
    {
        self.start > self.line.len()
    }

    /// The next word.
    #[inline(always)]
    pub fn next(&mut self) -> Option<&'a [u8]>
        ensures { MatchOption result ((self.old ≡ []) × (self.new ≡ [])) (λ w. self.old ≡ w.now ∷ self.new) }
    {
        let (word, behind) = piece_at(self.line, self.start, b' ')?;
        self.start = behind;
        Some(word)
    }

    /// The next word, which stays.
    #[inline(always)]
    pub fn first(&self) -> Option<&'a [u8]>
        ensures { MatchOption result (self.now ≡ []) (λ w. (left : List (List ℕ)) × (self.now ≡ w.now ∷ left)) }
    {
        let (word, _behind) = piece_at(self.line, self.start, b' ')?;
        Some(word)
    }

    /// Takes a bar, if it is the next word and is spelled as in most lines; otherwise the words stay as they are.
    #[inline(always)]
    pub fn next_bar(&mut self) -> bool
        ensures { MatchBool result (self.old ≡ codes "|" ∷ self.new) (self.new ≡ self.old) }
    {
        let start = self.start;
        if start >= self.line.len() || self.line[start] != b'|' {
            return false;
        }
        if !ends_at(self.line, start + 1) {
            return false;
        }
        self.start = start + 2;
        true
    }

    /// Takes a number, if the next word is the decimal form of one, of nine digits at most; otherwise the words stay as they are. It goes
    /// over the bytes once.
    #[inline(always)]
    pub fn next_number(&mut self) -> Option<u32>
        ensures { MatchOption result (self.new ≡ self.old) (λ n. (self.old ≡ decimal n ∷ self.new) × (n < 2 ^ 32)) }
    {
        let start = self.start;
        if start >= self.line.len() {
            return None;
        }
        let first = self.line[start];
        if !first.is_ascii_digit() {
            return None;
        }
        if ends_at(self.line, start + 1) {
            self.start = start + 2;
            return Some(u32::from(first - b'0'));
        }
        let (number, end) = long_number_at(self.line, start);
        if end == start {
            return None;
        }
        self.start = end + 1;
        Some(number)
    }

    /// Takes a number below 0, if the next word is the decimal form of one, of nine digits at most; otherwise the words stay as they are.
    #[inline(always)]
    pub fn next_negative(&mut self) -> Option<i64>
        ensures { MatchOption result (self.new ≡ self.old) (λ z. (self.old ≡ signed_decimal z ∷ self.new) × IsTrue (fits_64_bits z)) }
    {
        let start = self.start;
        if start >= self.line.len() || self.line[start] != b'-' {
            return None;
        }
        let (size, end) = long_number_at(self.line, start + 1);
        if end == start + 1 || size == 0 {
            return None;
        }
        self.start = end + 1;
        Some(-i64::from(size))
    }

    /// Takes three registers of one digit each and the bar after them, if these are the next words and another follows; otherwise the words
    /// stay as they are. It looks at the eight bytes at once.
    #[inline(always)]
    pub fn next_operands(&mut self) -> Option<(Register, Register, Register)>
        ensures { MatchOption result (self.new ≡ self.old) (λ r. (self.old ≡ decimal r.0 ∷ decimal r.1 ∷ decimal r.2 ∷ codes "|" ∷ self.new)
            × (r.0 < MOST_REGISTERS) × (r.1 < MOST_REGISTERS) × (r.2 < MOST_REGISTERS)) }
    {
        let start = self.start;
        if start > self.line.len() {
            return None;
        }
        let text = &self.line[start..];
        if text.len() < 8 {
            return None;
        }
        if !has_digit(text, 0) || !has_digit(text, 2) || !has_last_digit(text, 4) {
            return None;
        }
        self.start = start + 8;
        Some((
            Register::new(text[0] - b'0'),
            Register::new(text[2] - b'0'),
            Register::new(text[4] - b'0'),
        ))
    }

    /// Takes the word RUN, if it is the next word and another follows; otherwise the words stay as they are.
    #[inline(always)]
    pub fn next_run(&mut self) -> bool
        ensures { MatchBool result (self.old ≡ codes "RUN" ∷ self.new) (self.new ≡ self.old) }
    {
        let start = self.start;
        if start > self.line.len() {
            return false;
        }
        if !begins_with_run(&self.line[start..]) {
            return false;
        }
        self.start = start + 4;
        true
    }

    /// Takes the next word, if it is this one and another follows; otherwise the words stay as they are. The bytes are compared together.
    #[inline(always)]
    pub fn next_is(&mut self, word: &[u8]) -> bool
        requires { list_all (λ b. not (b == 32)) word.now ≡ true }
        ensures { MatchBool result (self.old ≡ word.now ∷ self.new) (self.new ≡ self.old) }
    {
        let start = self.start;
        if start > self.line.len() {
            return false;
        }
        let text = &self.line[start..];
        if text.len() <= word.len() || text[word.len()] != b' ' {
            return false;
        }
        if !begins_with(text, word) {
            return false;
        }
        self.start = start + word.len() + 1;
        true
    }

    /// Takes the next word, if it is this name and another follows, as `next_is`.
    #[inline(always)]
    pub fn next_same(&mut self, name: &Name<'_>) -> bool
        ensures { MatchBool result (self.old ≡ name.now ∷ self.new) (self.new ≡ self.old) }
    {
        self.next_is(name.as_str().as_bytes())
    }

    /// Takes the word of a step, if the next word is one and others follow; otherwise the words stay as they are. It doesn't look for
    /// the word's end.
    #[inline(always)]
    pub fn next_step(&mut self) -> Option<StepName>
        ensures { MatchOption result (self.new ≡ self.old) (λ s. self.old ≡ step_word s ∷ self.new) }
    {
        let start = self.start;
        if start > self.line.len() {
            return None;
        }
        let name = StepName::at_front(&self.line[start..])?;
        self.start = start + name.len() + 1;
        Some(name)
    }

    /// Takes an access, if the next word is one and its row has nine digits at most; otherwise the words stay as they are. It goes over the
    /// bytes once. One name is compared with the table's first: where it is the same, its bytes aren't gone over one by one.
    #[inline(always)]
    pub fn next_access(&mut self, near: Option<&Name<'_>>) -> Option<RawAccess<'a>>
        ensures { MatchOption result (self.new ≡ self.old) (λ a. (self.old ≡ access_word a ∷ self.new) × IsAccess a) }
    {
        let start = self.start;
        if start >= self.line.len() || !self.line[start].is_ascii_lowercase() {
            return None;
        }
        let colon = name_end_by(self.line, start, near);
        if colon - start > MOST_NAME_BYTES || colon >= self.line.len() || self.line[colon] != b':' {
            return None;
        }
        let (row, end) = digits_from(self.line, colon + 1);
        if end == colon + 1 || end >= self.line.len() || self.line[end] != b':' {
            return None;
        }
        if self.line[colon + 1] == b'0' && end > colon + 2 {
            return None;
        }
        let (read, insert_at) = behind_letter(self.line, end + 1, b'R');
        let (insert, update_at) = behind_letter(self.line, insert_at, b'I');
        let (update, delete_at) = behind_letter(self.line, update_at, b'U');
        let (delete, last) = behind_letter(self.line, delete_at, b'D');
        if last == end + 1 || !ends_at(self.line, last) {
            return None;
        }
        self.start = last + 1;
        Some(RawAccess {
            table: Name::of(&self.line[start..colon]),
            row,
            kinds: Kinds {
                read,
                insert,
                update,
                delete,
            },
        })
    }

    /// The next word, if it is a name; otherwise the words stay as they are. It goes over the bytes once.
    #[inline(always)]
    pub fn next_name(&mut self) -> Option<&'a [u8]>
        ensures { MatchOption result ((is_name (first_word self.old) ≡ false) × (self.new ≡ self.old))
            (λ w. (self.old ≡ w.now ∷ self.new) × (is_name w.now ≡ true)) }
    {
        let start = self.start;
        if start > self.line.len() {
            return None;
        }
        let end = name_end(self.line, start);
        if end < self.line.len() && self.line[end] != b' ' {
            return None;
        }
        let word = &self.line[start..end];
        if word.is_empty() {
            return None;
        }
        if !word[0].is_ascii_lowercase() {
            return None;
        }
        if word.len() > MOST_NAME_BYTES {
            return None;
        }
        self.start = end + 1;
        Some(word)
    }
}
