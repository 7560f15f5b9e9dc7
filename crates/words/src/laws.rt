//! What follows of the rule, for who chains steps.

ghost use Rattle.std.specs.Prelude.{◌≡◌, ◌++◌, ◌∷◌, ◌<◌, ◌≤◌, [], ℕ, suc, List, Some, false, true, length, if◌then◌else◌};
ghost use Rattle.bohm_core_base.specs.declared.event.Event.{Event};
ghost use Rattle.bohm_core_base.specs.declared.event.Event.TheVariants.{Claim, End, Fill, Finish, GiveBack};
ghost use Rattle.bohm_core_base.specs.declared.hold.Hold.TheVariants.{Done, Held};
ghost use Rattle.bohm_core_base.specs.Batch.{Batch, IsSoundBatch};
ghost use Rattle.bohm_core_base.specs.Laws.{actor_of};
ghost use Rattle.bohm_core_base.specs.Machine.{front_of, hold_of, is_done, own_of, reach, start};
ghost use Rattle.words.specs.declared.knowledge.Knowledge.{Knowledge};
ghost use Rattle.words.specs.Legal.{IsEffective, OfEachView, events_by, finishes_of, is_event_of};
ghost use Rattle.words.specs.Views.{Holds, In, IsSettled, KeepsFronts, KnowsFront, KnowsPast, KnowsReferences, front_in, is_event_at, joined, split_left, split_right, with_all_placed, with_event, with_front, with_known};

/// A pass that claims a place holds it with nothing stored; each word that it stores counts as one more, and each end that it sets is
/// listed after the others; it holds no more what it finished or gave back. Its events about other places change nothing of that, and what
/// is stored of a place is one thing.
pub fn own_events_tell_what_is_held()
    ensures claimed { (view : Knowledge) (actor index : ℕ) → Holds (with_event view (Claim actor index)) index 0 [] }
    ensures filled { (view : Knowledge) (actor index count : ℕ) (ended : List ℕ)
        → Holds view index count ended → Holds (with_event view (Fill actor index)) index (suc count) ended }
    ensures ended { (view : Knowledge) (actor index slot count : ℕ) (ended : List ℕ)
        → Holds view index count ended → Holds (with_event view (End actor index slot)) index count (ended ++ slot ∷ []) }
    ensures finished { (view : Knowledge) (actor index count : ℕ) (ended : List ℕ)
        → ¬ (Holds (with_event view (Finish actor index)) index count ended) }
    ensures given_back { (view : Knowledge) (actor index count : ℕ) (ended : List ℕ)
        → ¬ (Holds (with_event view (GiveBack actor index)) index count ended) }
    ensures others { (view : Knowledge) (event : Event) (index count : ℕ) (ended : List ℕ)
        → is_event_at index event ≡ false → Holds view index count ended → Holds (with_event view event) index count ended }
    ensures no_others { (view : Knowledge) (event : Event) (index count : ℕ) (ended : List ℕ)
        → is_event_at index event ≡ false → Holds (with_event view event) index count ended → Holds view index count ended }
    ensures once { (view : Knowledge) (index count other : ℕ) (ended others : List ℕ)
        → Holds view index count ended → Holds view index other others → (count ≡ other) × (ended ≡ others) }
{}

/// An event is its actor's, and the events of an actor in two lists are those of the first, and then those of the second.
pub fn events_are_their_actors()
    ensures theirs { (actor : ℕ) (event : Event) → actor_of event ≡ Some actor → is_event_of actor event ≡ true }
    ensures nobody_elses { (actor : ℕ) (event : Event) → is_event_of actor event ≡ true → actor_of event ≡ Some actor }
    ensures in_order { (actor : ℕ) (first later : List Event)
        → events_by actor (first ++ later) ≡ events_by actor first ++ events_by actor later }
{}

/// A pass knows the place that it just found done, and keeps all that it knew; both parts of a split know what the whole knew,
/// and a join knows what either knew. Who knows more knows the references that were known, and what they settle.
pub fn passes_keep_what_they_know()
    ensures learned { (view : Knowledge) (index : ℕ) → In index (with_known view index).known }
    ensures kept { (view : Knowledge) (index other : ℕ) → In other view.known → In other (with_known view index).known }
    ensures split { (view : Knowledge) (index : ℕ) → In index view.known
        → In index (split_left view).known × In index (split_right view).known }
    ensures first { (view other : Knowledge) (number index : ℕ) → In index view.known → In index (joined view number other).known }
    ensures second { (view other : Knowledge) (number index : ℕ) → In index other.known → In index (joined view number other).known }
    ensures references { (batch : Batch) (view after : Knowledge) (index : ℕ)
        → ((other : ℕ) → In other view.known → In other after.known) → KnowsReferences batch view index
        → KnowsReferences batch after index }
    ensures settled { (batch : Batch) (view after : Knowledge) (index : ℕ)
        → ((other : ℕ) → In other view.known → In other after.known) → IsSettled batch view index → IsSettled batch after index }
{}

/// A pass knows the front that it just found, and keeps those that it knew; who knows no fewer fronts knows each place that was
/// known to be past, and each before it; both parts of a split know what the whole knew, and a join knows what either knew.
pub fn passes_keep_the_fronts_that_they_know()
    ensures found { (view : Knowledge) (partition found index : ℕ) → index < found
        → KnowsFront (with_front view partition found) partition index }
    ensures kept { (view : Knowledge) (partition found other index : ℕ) → KnowsFront view other index
        → KnowsFront (with_front view partition found) other index }
    ensures all { (batch : Batch) (view : Knowledge) (index : ℕ) → KnowsPast batch (with_all_placed view) index }
    ensures past { (batch : Batch) (view after : Knowledge) (index other : ℕ)
        → KeepsFronts view after → other ≤ index → KnowsPast batch view index → KnowsPast batch after other }
    ensures split { (batch : Batch) (view : Knowledge) (index : ℕ) → KnowsPast batch view index
        → KnowsPast batch (split_left view) index × KnowsPast batch (split_right view) index }
    ensures first { (batch : Batch) (view other : Knowledge) (number index : ℕ) → KnowsPast batch view index
        → KnowsPast batch (joined view number other) index }
    ensures second { (batch : Batch) (view other : Knowledge) (number index : ℕ) → KnowsPast batch other index
        → KnowsPast batch (joined view number other) index }
{}

/// Wherever the rule holds: what a pass's own events say that it holds, it holds, with as many own words stored; what it knows
/// done is done; so is a place with a deed on a table of a later place of which it knows all references done; and a partition has
/// placed each place that the pass knows it past, and so has every one if the pass knows that all is placed.
pub fn views_tell_the_state()
    ensures held { OfEachView (λ batch state number view. (index count : ℕ) (ended : List ℕ)
        → view.spent ≡ false → Holds view index count ended
        → (hold_of state index ≡ Held number) × (length (own_of state index) ≡ count)) }
    ensures known { OfEachView (λ batch state number view. (index : ℕ) → In index view.known → hold_of state index ≡ Done) }
    ensures settled { OfEachView (λ batch state number view. (index : ℕ)
        → view.spent ≡ false → IsSettled batch view index → hold_of state index ≡ Done) }
    ensures past { OfEachView (λ batch state number view. (partition index : ℕ)
        → view.spent ≡ false → partition < batch.partitions → index < batch.size → KnowsFront view partition index
        → index < front_of state partition) }
    ensures placed_by { OfEachView (λ batch state number view.
        view.placer ≡ true → front_of state view.partition ≡ front_in view) }
{}

/// In a list of events each of which may happen where it happens, a place is finished once if it is done, and else never.
pub fn places_are_finished_once()
    ensures { (batch : Batch) (events : List Event) (index : ℕ)
        → IsSoundBatch batch → IsEffective batch (start batch) events
        → finishes_of index events ≡ (if is_done (hold_of (reach batch events) index) then 1 else 0) }
{}
