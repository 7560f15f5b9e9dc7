//! Where the hashes of keys start, and how they end.

ghost use Rattle.std.specs.Prelude.{◌≡◌, ℕ, List, IfOk, length};
ghost use Rattle.model_base.specs.Seeds.{folded, seed_of};

use std::hash::{BuildHasher, FoldHasher, Hasher};
use std::io;
use std::random::RandomSource;

/// Bytes that a drawn seed is made of.
const DRAWN_BYTES: usize = 16;

/// The two halves of a product, joined: each bit of it depends on all bits of both numbers.
#[inline(always)]
fn folded(a: u64, b: u64) -> u64
    ensures { result ≡ folded a b }
{
    let product = a as u128 * b as u128;
    (product & 0xFFFF_FFFF_FFFF_FFFF) as u64 ^ (product >> 64) as u64
}

/// The hash of another hasher, multiplied by a number of its own at its end.
#[derive(Clone, Copy)]
pub struct Multiplied<H> {
    inner: H,
    last: u64,
}

impl<H: Hasher> Hasher for Multiplied<H> {
    ghost write = { λ hasher bytes. record hasher { inner = H.write hasher.inner bytes } };

    ghost finish = { λ hasher. folded (H.finish hasher.inner) hasher.last };

    #[inline(always)]
    fn finish(&self) -> u64 {
        folded(self.inner.finish(), self.last)
    }

    #[inline(always)]
    fn write(&mut self, bytes: &[u8]) {
        self.inner.write(bytes);
    }
}

/// Where the hash of each key of a map starts, and by which number it is multiplied at its end. A map's answers are the same under
/// each seed: only how long a look-up takes depends on it.
///
/// Whoever writes a log chooses its keys, so the program draws a seed: keys that collide under one seed don't under another.
#[derive(Clone, Copy)]
pub struct HashSeed {
    first: Multiplied<FoldHasher>,
}

impl HashSeed {
    /// The same seed at each call, under which a hash is that of `FoldHasher`. Keys that collide under it can be computed.
    pub fn fixed() -> Self {
        HashSeed {
            first: Multiplied {
                inner: FoldHasher::default(),
                last: 1,
            },
        }
    }

    /// The seed that these bytes make.
    fn of_bytes(bytes: &[u8; DRAWN_BYTES]) -> Self
        ensures { result ≡ seed_of bytes.now }
    {
        let drawn = u128::from_le_bytes(*bytes);
        let mut inner = FoldHasher::default();
        inner.write_u64((drawn & 0xFFFF_FFFF_FFFF_FFFF) as u64);
        let last = (drawn >> 64) as u64 | 1;
        HashSeed {
            first: Multiplied { inner, last },
        }
    }

    /// A seed that is drawn from the system. Fails where the system gives no random bytes.
    pub fn drawn(rt: &impl RandomSource) -> io::Result<Self>
        ensures { IfOk result (λ seed. (bytes : List ℕ) × (length bytes ≡ DRAWN_BYTES) × (seed ≡ seed_of bytes)) }
    {
        let mut bytes = [0; DRAWN_BYTES];
        rt.fill_bytes(&mut bytes)?;
        Ok(HashSeed::of_bytes(&bytes))
    }
}

impl BuildHasher for HashSeed {
    type Hasher = Multiplied<FoldHasher>;

    ghost build_hasher = { λ seed. seed.first };

    #[inline(always)]
    fn build_hasher(&self) -> Multiplied<FoldHasher> {
        self.first
    }
}
