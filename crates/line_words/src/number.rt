//! Numbers in decimal form.
ghost use Rattle.std.specs.Prelude.{◌≡◌, ◌≤◌, ◌<◌, ◌^◌, ◌∷◌, ℕ, length, MatchOption};
ghost use Rattle.std.specs.Fmt.{decimal};
ghost use Rattle.std.specs.Str.Parse.{AllDigits, digits_value};
ghost use Rattle.line_words.specs.Words.{plain, signed_of};

/// The number that at most 19 digits write, if each byte is a digit.
fn digits(word: &[u8]) -> Option<u64>
    requires { length word.now ≤ 19 }
    ensures { MatchOption result (AllDigits 10 word.now → ⊥) (λ n. AllDigits 10 word.now × (n ≡ digits_value 10 word.now)) }
{
    let mut value = 0;
    for byte in word {
        if !byte.is_ascii_digit() {
            return None;
        }
        value = value * 10 + u64::from(*byte - b'0');
    }
    Some(value)
}

/// The number below 10^19 whose decimal form the word is.
fn natural(word: &[u8]) -> Option<u64>
    ensures { MatchOption result ((n : ℕ) → n < 10 ^ 19 → word.now ≡ decimal n → ⊥) (λ n. (word.now ≡ decimal n) × (n < 10 ^ 19)) }
{
    if word.is_empty() {
        return None;
    }
    if word.len() == 1 && word[0].is_ascii_digit() {
        return Some(u64::from(word[0] - b'0'));
    }
    if word.len() > 19 {
        return None;
    }
    if word[0] == b'0' && word.len() > 1 {
        return None;
    }
    let Some(value) = digits(word) else {
        return None;
    };
    Some(value)
}

/// The number below 2^32 that a word spells.
#[cold]
#[inline(never)]
pub fn plain_value(word: &[u8]) -> Option<u32>
    ensures { result ≡ plain word.now }
{
    let Some(value) = natural(word) else {
        return None;
    };
    if value > 0xffff_ffff {
        return None;
    }
    Some(value as u32)
}

/// The number of 64 bits that digits after a minus spell.
fn negative_value(digits: &[u8]) -> Option<i64>
    ensures { result ≡ signed_of (45 ∷ digits.now) }
{
    let Some(size) = natural(digits) else {
        return None;
    };
    if size == 0 {
        return None;
    }
    if size > 0x8000_0000_0000_0000 {
        return None;
    }
    Some(-1 - (size - 1) as i64)
}

/// The number of 64 bits that a word spells.
#[cold]
#[inline(never)]
pub fn whole_value(word: &[u8]) -> Option<i64>
    ensures { result ≡ signed_of word.now }
{
    let Some((first, others)) = word.split_first() else {
        return None;
    };
    if *first == b'-' {
        return negative_value(others);
    }
    let Some(value) = natural(word) else {
        return None;
    };
    if value > 0x7fff_ffff_ffff_ffff {
        return None;
    }
    Some(value as i64)
}
