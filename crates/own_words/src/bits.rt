//! Whole numbers as words.

ghost use Rattle.std.specs.Prelude.{◌≡◌};
ghost use Rattle.own_words.specs.Words.{bits, signed};

/// The number as a word: the 64 bits of its two's complement.
pub fn bits_of(value: i64) -> u64
    ensures { result ≡ bits value }
{
    value.cast_unsigned()
}

/// The number whose two's complement is this word.
pub fn value_of(bits: u64) -> i64
    ensures { result ≡ signed bits }
{
    bits.cast_signed()
}
