//! What holds after every list of events.

ghost use Rattle.std.specs.Prelude.{◌≡◌, ◌≢◌, ◌+◌, ◌++◌, ℕ, List, Some, true};
ghost use Rattle.bohm_core_base.specs.Batch.{Batch, IsSoundBatch};
ghost use Rattle.bohm_core_base.specs.Laws.{HasReferences, HasSizes, IsSerialPlace, NoneBy, SameTask, KeepsStored};
ghost use Rattle.bohm_core_base.specs.Machine.{all_ready, end_of, hold_of, own_of, reach};
ghost use Rattle.bohm_core_base.specs.Reached.{FollowsPlacing, MayRun, ReadsSettled, StoresSerial};
ghost use Rattle.bohm_core_base.specs.Serial.{serial_words, whole_end};
ghost use Rattle.bohm_core_base.specs.declared.event.Event.{Event};
ghost use Rattle.bohm_core_base.specs.declared.hold.Hold.TheVariants.{Done, Free, Held};

/// Whatever the events, each place that is done has the words and ends of the serial run, and the words that any place has
/// so far are a beginning of the serial run's. An end that is set, before the batch or by it, is the one that its record has
/// after the serial run of the whole batch; a place of the batch sets one only when it has all its words, and once all places
/// are done no end is missing. Once all places of a beginning of the batch are done, the last versions of the rows by these
/// places, and the deeds of those of them that were done, are those after the serial run of the beginning; the whole batch is
/// one. What is stored stays, and what is done stays done. A place that every partition has placed has all its references, and
/// only such a place is held or done; one that has a word is held or done, and all that it refers to is done. Once that holds,
/// each earlier place with a deed on one of its tables is done, the ends of the records on its tables that lie below it are
/// those of the serial run, and the place is shown what the serial run shows it. Where an actor holds a place and all that it
/// refers to is done, the events of others change neither what it is shown nor what it has to store next.
pub fn done_places_are_serial()
    // A place that is done has the words and ends of the serial run.
    ensures done { (batch : Batch) (events : List Event) (index : ℕ)
        → IsSoundBatch batch → hold_of (reach batch events) index ≡ Done → IsSerialPlace batch (reach batch events) index }
    // An end that is set is that of the serial run, and the place at which the record ended has all its words.
    ensures ended { (batch : Batch) (events : List Event) (slot end : ℕ)
        → IsSoundBatch batch → end_of (reach batch events) slot ≡ Some end → whole_end batch slot ≡ Some end }
    ensures ender { (batch : Batch) (events : List Event) (slot index : ℕ)
        → IsSoundBatch batch → end_of (reach batch events) slot ≡ Some (batch.first + index)
        → own_of (reach batch events) index ≡ serial_words batch index }
    // Only a place that every partition has placed is held or done.
    ensures placed { (batch : Batch) (events : List Event) (index : ℕ)
        → IsSoundBatch batch → hold_of (reach batch events) index ≢ Free → HasReferences batch (reach batch events) index }
    // What is stored is a beginning of what the serial run gives, and nothing is missing where places are done.
    ensures stored { (batch : Batch) (events : List Event)
        → IsSoundBatch batch → StoresSerial batch (reach batch events) }
    // What is stored stays.
    ensures stands { (batch : Batch) (events later : List Event)
        → IsSoundBatch batch → KeepsStored (reach batch events) (reach batch (events ++ later)) }
    // It is stored for each partition, place and slot of the batch.
    ensures sized { (batch : Batch) (events : List Event)
        → IsSoundBatch batch → HasSizes batch (reach batch events) }
    // A place that is placed has its references, and has a word only once it is taken and all that it refers to is done.
    ensures taken { (batch : Batch) (events : List Event)
        → IsSoundBatch batch → FollowsPlacing batch (reach batch events) }
    // Once a place may run, all that it may read is settled.
    ensures settled { (batch : Batch) (events : List Event) (index : ℕ)
        → IsSoundBatch batch → MayRun batch (reach batch events) index → ReadsSettled batch (reach batch events) index }
    // Events of others leave the task of a held place as it is.
    ensures steady { (batch : Batch) (events later : List Event) (actor index : ℕ)
        → IsSoundBatch batch → hold_of (reach batch events) index ≡ Held actor → all_ready (reach batch events) index ≡ true
        → NoneBy actor later → SameTask batch (reach batch events) (reach batch (events ++ later)) index }
{}
