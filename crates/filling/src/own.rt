//! The own words of a place that a pass holds.

ghost use Rattle.std.specs.Prelude.{◌≡◌, Some};
ghost use Rattle.bohm_core_base.specs.Serial.{serial_words};
ghost use Rattle.log_batch.specs.Supplied.{batch_of};
ghost use Rattle.filling_base.specs.Extending.{IsSamePass, OnlyLearns};
ghost use Rattle.filling.specs.Readings.{CanRead};

use crate::key::RangeKey;
use crate::reader::{Named, PassReader};
use evaluation::words_by_source;
use own_words::OwnWords;
use std::marker::PhantomData;
use words::{BatchWords, Holding};

// Writes all own words of a place in the place of those that were there, by a pass that can read for it; it only learns. It doesn't
// allocate.
pub(crate) fn own_told<'b, 'a, N: Named>(
    key: &'b RangeKey<'a>,
    words: &'b BatchWords<RangeKey<'a>>,
    holding: Holding,
    index: usize,
    own: &mut OwnWords,
) -> Holding
    requires reads { CanRead words.now key.now holding index }
    requires named { (Some words.now ≡ N.words) × (N.known ≡ holding.view.known) }
    ensures value { own.new ≡ serial_words (batch_of key.now.batch) index }
    ensures same { IsSamePass holding result }
    ensures bodies { result.bodies ≡ holding.bodies }
    ensures learns { OnlyLearns holding.view result.view }
{
    let reader = PassReader::<'_, '_, N> {
        key,
        words,
        holding,
        index,
        named: PhantomData,
    };
    let reader = words_by_source(key.batch(), reader, own);
    let PassReader {
        key: _,
        words: _,
        holding,
        index: _,
        named: _,
    } = reader;
    holding
}
