//! What follows for who fills a place.

ghost use Rattle.std.specs.Prelude.{◌≡◌, ◌+◌, ◌-◌, ◌^◌, ◌<◌, ℕ, List, min};
ghost use Rattle.words.specs.declared.knowledge.Knowledge.{Knowledge};
ghost use Rattle.words.specs.Views.{Holds, In, KeepsFronts, with_known};
ghost use Rattle.words.specs.Passes.{PassState};
ghost use Rattle.filling_base.specs.Counting.{CountsBodies, counted_more};
ghost use Rattle.filling_base.specs.Extending.{Finishes, OnlyLearns};

/// A pass that finds a place done only learns, and so does one whose events, kept lists and sightings are unchanged and that still knows
/// what it knew, of fronts too. Who only learns, and then only learns, has only learnt, and holds what it held. Who only learns and then
/// finishes a place has finished it.
pub fn learning_comes_before_storing()
    ensures found { (view : Knowledge) (index : ℕ) → OnlyLearns view (with_known view index) }
    ensures stands { (view after : Knowledge)
        → ((index : ℕ) → In index view.known → In index after.known) → after.events ≡ view.events → after.kept ≡ view.kept
        → after.sightings ≡ view.sightings → after.sole ≡ view.sole → KeepsFronts view after → OnlyLearns view after }
    ensures again { (view middle after : Knowledge) → OnlyLearns view middle → OnlyLearns middle after → OnlyLearns view after }
    ensures holds { (view after : Knowledge) (index count : ℕ) (ended : List ℕ)
        → OnlyLearns view after → Holds view index count ended → Holds after index count ended }
    ensures finishes { (view middle after : Knowledge) (index : ℕ)
        → OnlyLearns view middle → Finishes index middle after → Finishes index view after }
{}

/// Who did nothing has counted no body. Who counts the bodies of what it finishes over one part of its way, and then over another,
/// has counted them over both. Up to the greatest number the count is a sum.
pub fn counts_go_on()
    ensures nothing { (runs : ℕ → ℕ) (pass : PassState) → CountsBodies runs pass pass }
    ensures again { (runs : ℕ → ℕ) (pass middle after : PassState)
        → CountsBodies runs pass middle → CountsBodies runs middle after → CountsBodies runs pass after }
    ensures sum { (bodies more : ℕ) → bodies < 2 ^ 64 → counted_more bodies more ≡ min (bodies + more) (2 ^ 64 - 1) }
{}
