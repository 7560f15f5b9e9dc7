//! The pieces of a word between commas, one after another.
ghost use Rattle.std.specs.Prelude.{◌≡◌, ◌≢◌, ◌∷◌, List, ℕ, [], MatchBool, MatchOption};
ghost use Rattle.line_words.specs.Words.{first_word, comma_pieces, pieces_from};

use crate::word_list::piece_at;
use std::marker::Model;

/// The pieces of a word that are left: those between single commas from an index of the word on. Past the word's end there are none.
#[derive(Drop)]
pub struct Pieces<'a> {
    word: &'a [u8],
    start: usize,
}

impl<'a> Model for Pieces<'a> {
    ghost Value = { List (List ℕ) };

    ghost view = { λ p. pieces_from p.start p.word.now };
}

impl<'a> Pieces<'a> {
    /// The pieces of the word.
    pub fn of(word: &'a [u8]) -> Pieces<'a>
        ensures { result ≡ comma_pieces word.now }
    {
        Pieces { word, start: 0 }
    }

    /// Whether no piece is left.
    pub fn is_empty(&self) -> bool
        ensures { MatchBool result (self.now ≡ []) (self.now ≢ []) }
    {
        self.start > self.word.len()
    }

    /// The next piece.
    pub fn next(&mut self) -> Option<&'a [u8]>
        ensures { MatchOption result ((self.old ≡ []) × (self.new ≡ [])) (λ p. self.old ≡ p.now ∷ self.new) }
    {
        let (piece, behind) = piece_at(self.word, self.start, b',')?;
        self.start = behind;
        Some(piece)
    }

    /// Takes the next piece, if it is this one; otherwise the pieces stay as they are.
    pub fn takes(&mut self, piece: &[u8]) -> bool
        requires { piece.now ≢ [] }
        ensures { MatchBool result (self.old ≡ piece.now ∷ self.new) ((self.new ≡ self.old) × (first_word self.old ≢ piece.now)) }
    {
        let Some((next, behind)) = piece_at(self.word, self.start, b',') else {
            return false;
        };
        if next != piece {
            return false;
        }
        self.start = behind;
        true
    }
}
