//! Fills a place of a batch of a log.

ghost use Rattle.std.specs.Prelude.{◌≡◌, []};
ghost use Rattle.bohm_core_base.specs.Serial.{serial_words};
ghost use Rattle.log_batch.specs.Supplied.{batch_of};
ghost use Rattle.words.specs.Views.{Holds};
ghost use Rattle.filling_base.specs.Extending.{Finishes, IsSamePass};
ghost use Rattle.filling_base.specs.Storing.{IsEnding};
ghost use Rattle.filling.specs.Readings.{CanRead};

use crate::bodies::count_run;
use crate::ends::ends_of;
use crate::key::RangeKey;
use crate::own::own_told;
use filling_base::{Fills, learning_comes_before_storing, store};
use own_words::OwnWords;
use std::alloc::AllocError;
use std::marker::Brand;
use words::{BatchData, BatchWords, Holding, passes_keep_the_fronts_that_they_know};

// Stores the own words of a place that is held with nothing stored, sets its ends and finishes it.
fn store_place<'a>(
    key: &RangeKey<'a>,
    words: &BatchWords<RangeKey<'a>>,
    mut holding: Holding,
    index: usize,
    own: &OwnWords,
    ends: &[usize],
) -> Holding
    requires reads { CanRead words.now key.now holding index }
    requires held { Holds holding.view index 0 [] }
    requires own { own.now ≡ serial_words (batch_of key.now.batch) index }
    requires ends { IsEnding (batch_of key.now.batch) key.now.slots index ends.now }
    ensures same { IsSamePass holding result }
    ensures bodies { result.bodies ≡ holding.bodies }
    ensures finishes { Finishes index holding.view result.view }
{
    let _places = key.places();
    let place = key.batch().first_place() + index as u64;
    store(words, &mut holding, index, place, own.as_slice(), ends);
    holding
}

impl Fills for RangeKey<'_> {
    ghost use Rattle.filling.specs.Bodies.{runs_at};

    ghost runs = { λ key. runs_at key.batch };

    fn fill(
        &self,
        words: &BatchWords<Self>,
        holding: Holding,
        index: usize,
    ) -> (Holding, Result<(), AllocError>) {
        learning_comes_before_storing();
        passes_keep_the_fronts_that_they_know();
        let mut own = OwnWords::new();
        let holding = own_told::<Brand>(self, words, holding, index, &mut own);
        let (holding, ends) = ends_of(self, words, holding, index, own.as_slice());
        match ends {
            Ok(ends) => {
                let mut holding = store_place(self, words, holding, index, &own, ends.as_slice());
                count_run(self, &mut holding, index, own.as_slice());
                (holding, Ok(()))
            }
            Err(fault) => (holding, Err(fault)),
        }
    }
}
