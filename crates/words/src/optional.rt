//! Numbers that may be missing, as words: 0 for none, or one more than the number.

ghost use Rattle.std.specs.Prelude.{◌≡◌};
ghost use Rattle.words.specs.Layout.{optional_in, optional_word};

/// The number of a word, if it has one.
pub(crate) fn number_in(word: u64) -> Option<u64>
    ensures number { result ≡ optional_in word }
    ensures word { optional_word result ≡ word }
{
    if word == 0 { None } else { Some(word - 1) }
}

/// The index of a word, if it has one.
pub(crate) fn index_in(word: u64) -> Option<usize>
    ensures { optional_word result ≡ word }
{
    match number_in(word) {
        Some(index) => Some(index as usize),
        None => None,
    }
}
