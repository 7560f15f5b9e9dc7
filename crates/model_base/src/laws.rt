//! What holds of every list of deeds, of the grants in force after it, and of every log.

ghost use Rattle.std.specs.Prelude.{◌==◌, ◌≡◌, ◌↔◌, ℕ, ◌+◌, ◌<◌, ◌≤◌, true, false, None, List, [], ◌∷◌, ◌++◌, All, Any, Contains, take, if◌then◌else◌};
ghost use Rattle.model_base.specs.Admitted.{HasFailed, IsAsked, IsDenial, IsPrivileged, WasAdmitted, WasDenied};
ghost use Rattle.model_base.specs.Laws.{AreGrantsOrRevocation, GrowsAt, IsLastLoss, IsPart, IsRising};
ghost use Rattle.model_base.specs.Outcomes.{World, cause, deeds_before, deeds_of, missing, needs, outcome, owners, rows_before};
ghost use Rattle.model_base.specs.Versions.{copied_cells, version_cells};
ghost use Rattle.model_base.specs.Paths.{LeadsTo, path};
ghost use Rattle.model_base.specs.Ranks.{deed_number, place_of_rank, rank};
ghost use Rattle.model_base.specs.Privileges.{IsProper, IsProperAfter, MayFollow, gives, has, holds, is_among, kept, lends_to, option_of, owns, place_of, replayed};
ghost use Rattle.model_base.specs.Records.{grants_of};
ghost use Rattle.model_base.specs.declared.deed.Cause.{Cause};
ghost use Rattle.model_base.specs.declared.deed.Cause.TheVariants.{Never, Taken};
ghost use Rattle.model_base.specs.declared.deed.Deed.TheVariants.{Granting, Revoking};
ghost use Rattle.model_base.specs.declared.deed.Deed.{Deed};
ghost use Rattle.model_base.specs.declared.deed.Grant.{Grant};
ghost use Rattle.model_base.specs.declared.deed.Grantee.TheVariants.{Public, User};
ghost use Rattle.model_base.specs.declared.deed.Need.{Need};
ghost use Rattle.model_base.specs.declared.deed.Revocation.{Revocation};
ghost use Rattle.model_base.specs.declared.outcome.Outcome.TheVariants.{Denied};
ghost use Rattle.model_base.specs.declared.statement.Form.{Form};
ghost use Rattle.model_base.specs.declared.statement.Statement.{Statement};

/// Exactly who is admitted. A RUN or a deed of a log is run if its user holds each of its needs by the deeds before its
/// place, and is denied if one of them isn't held: as the owner of the table, by a grant in force to the user, or by one to
/// PUBLIC. A denial names the first such need in order, and its cause: the revocation that took it away last, or that it
/// was never given.
pub fn admitted_exactly_when_privileged()
    ensures admitted { (log : List Statement) (place : ℕ) (statement : Statement) → IsAsked log place statement
        → WasAdmitted (outcome log place)
        ↔ All (IsPrivileged (owners log) (deeds_before log place) statement.user) (needs statement.form) }
    ensures denied { (log : List Statement) (place : ℕ) (statement : Statement) → IsAsked log place statement
        → WasDenied (outcome log place)
        ↔ Any (λ need. ¬ IsPrivileged (owners log) (deeds_before log place) statement.user need) (needs statement.form) }
    ensures first { (log : List Statement) (place : ℕ) (statement : Statement) (need : Need) (cause : Cause)
        → IsAsked log place statement
        → (outcome log place ≡ Some (Denied need cause))
        ↔ IsDenial (owners log) (deeds_before log place) statement.user (needs statement.form) need cause }
    ensures held { (owners : List ℕ) (deeds : List Deed) (user : ℕ) (need : Need)
        → (holds owners deeds user need ≡ true) ↔ IsPrivileged owners deeds user need }
{}

/// A grant to PUBLIC gives every user its kind on its table, and nobody the option. Any other gives its grantee alone: the
/// kind, and the option if it is with it.
pub fn public_is_every_user()
    ensures public { (grant : Grant) (user : ℕ) → grant.grantee ≡ Public
        → gives grant user (record { table = grant.table; kind = grant.kind; option = false }) ≡ true }
    ensures one { (grant : Grant) (grantee user : ℕ) → grant.grantee ≡ User grantee
        → gives grant user (record { table = grant.table; kind = grant.kind; option = false }) ≡ (grantee == user) }
    ensures option { (grant : Grant) (user : ℕ) → gives grant user (option_of grant) ≡ lends_to grant user }
    ensures no_option { (grant : Grant) (user : ℕ) → grant.grantee ≡ Public → lends_to grant user ≡ false }
{}

/// No grant comes into force by a revocation: those in force after it are those before it, with some left out.
pub fn revocations_add_none()
    ensures { (owners : List ℕ) (deeds : List Deed) (revocation : Revocation)
        → IsPart (kept owners (deeds ++ Revoking revocation ∷ [])) (kept owners deeds) }
{}

/// Leaving out a grant never brings another into force: of the deeds, as the erasure does, or of the grants that are replayed or that are
/// before these.
pub fn fewer_grants_keep_fewer()
    ensures deeds { (owners : List ℕ) (past later : List Deed) (grant : Grant)
        → IsPart (kept owners (past ++ later)) (kept owners (past ++ Granting grant ∷ later)) }
    ensures replayed { (owners : List ℕ) (standing wider fewer more : List Grant)
        → IsPart standing wider → IsPart fewer more → IsPart (replayed owners standing fewer) (replayed owners wider more) }
{}

/// A grant that is out of force after some deeds is out of force after all deeds that follow, whose numbers lie above its rank.
pub fn ended_grants_stay_ended()
    ensures above { (owners : List ℕ) (past later : List Deed) (ranked : ℕ)
        → All (λ deed. ranked < deed_number deed) later
        → is_among ranked (kept owners past) ≡ false → is_among ranked (kept owners (past ++ later)) ≡ false }
    ensures proper { (owners : List ℕ) (past later : List Deed) (grant : Grant)
        → IsProper owners (past ++ later) → Contains past (Granting grant)
        → is_among (rank grant) (kept owners past) ≡ false → is_among (rank grant) (kept owners (past ++ later)) ≡ false }
{}

/// A grant ends none: it joins those in force if its grantor has the option, and what was held stays held. So the grantor of one that may
/// follow holds the option by all deeds before it, not only by those below its place.
pub fn grants_end_none()
    ensures kept { (owners : List ℕ) (deeds : List Deed) (grant : Grant)
        → kept owners (deeds ++ Granting grant ∷ [])
        ≡ kept owners deeds ++ (if holds owners deeds grant.grantor (option_of grant) then grant ∷ [] else []) }
    ensures held { (owners : List ℕ) (deeds : List Deed) (grant : Grant) (user : ℕ) (need : Need)
        → holds owners deeds user need ≡ true → holds owners (deeds ++ Granting grant ∷ []) user need ≡ true }
    ensures follow { (owners : List ℕ) (deeds : List Deed) (grant : Grant)
        → MayFollow owners deeds (Granting grant) → holds owners deeds grant.grantor (option_of grant) ≡ true }
{}

/// Only a revocation takes a need away: the cause of a denial is `Never`, or names the place of a revocation of the deeds.
pub fn causes_are_revocations()
    ensures { (owners : List ℕ) (deeds : List Deed) (user : ℕ) (need : Need) (place : ℕ)
        → cause owners deeds user need ≡ Taken place
        → (revocation : Revocation) × Contains deeds (Revoking revocation) × (place ≡ revocation.place) }
{}

/// The cause of a denial, by the beginnings of the deeds: a need that isn't held never was exactly if no beginning of
/// the deeds holds it, and was taken at a place exactly if the deed of that place is the last loss.
pub fn causes_are_last_losses()
    ensures never { (owners : List ℕ) (deeds : List Deed) (user : ℕ) (need : Need)
        → holds owners deeds user need ≡ false
        → (cause owners deeds user need ≡ Never) ↔ ((n : ℕ) → holds owners (take n deeds) user need ≡ false) }
    ensures taken { (owners : List ℕ) (deeds : List Deed) (user : ℕ) (need : Need) (place : ℕ)
        → holds owners deeds user need ≡ false
        → (cause owners deeds user need ≡ Taken place) ↔ IsLastLoss owners deeds user need place }
{}

/// The deeds of a statement have its place: grants with rising ranks, or one revocation. If its user holds what it needs, they may be made
/// after deeds of lower places.
pub fn statements_make_deeds_in_order()
    ensures placed { (place user : ℕ) (form : Form) → All (λ deed. place_of deed ≡ place) (deeds_of place user form) }
    ensures one { (place user : ℕ) (form : Form) → AreGrantsOrRevocation (deeds_of place user form) }
    ensures rise { (place user : ℕ) (form : Form) → IsRising (grants_of (deeds_of place user form)) }
    ensures follow { (owners : List ℕ) (world : World) (place user : ℕ) (form : Form)
        → All (λ deed. place_of deed < place) world.deeds → missing owners world user form ≡ None
        → IsProperAfter owners world.deeds (deeds_of place user form) }
{}

/// Each place of a log makes grants, one revocation, or nothing. What it makes has its place.
pub fn places_make_grants_or_one_revocation()
    ensures { (log : List Statement) (place : ℕ)
        → GrowsAt place (deeds_before log place) (deeds_before log (place + 1)) }
{}

/// What fails changes nothing: where a place is denied, or its body doesn't complete, each row and the deeds before the next place are those
/// before it, and the versions that it leaves are copies.
pub fn failures_change_nothing()
    ensures rows { (log : List Statement) (place : ℕ) → HasFailed (outcome log place)
        → rows_before log (place + 1) ≡ rows_before log place }
    ensures deeds { (log : List Statement) (place : ℕ) → HasFailed (outcome log place)
        → deeds_before log (place + 1) ≡ deeds_before log place }
    ensures cells { (log : List Statement) (place : ℕ) → HasFailed (outcome log place)
        → version_cells log place ≡ copied_cells log place }
{}

/// The deeds before a place of a log are proper: their places rise, below this one, those of one place are grants in the order of their
/// ranks, or one revocation, and each grantor held the option by the deeds of earlier places.
pub fn deeds_before_are_proper()
    ensures proper { (log : List Statement) (place : ℕ) → IsProper (owners log) (deeds_before log place) }
    ensures below { (log : List Statement) (place : ℕ) → All (λ deed. place_of deed < place) (deeds_before log place) }
{}

/// The order of records: what is at a later place has a greater rank, of deeds a greater number, so what has a greater number isn't at an
/// earlier place; and a rank is that of one place, kind and position.
pub fn ranks_follow_places()
    ensures deeds { (deed next : Deed) → place_of deed < place_of next → deed_number deed < deed_number next }
    ensures numbers { (deed next : Deed) → deed_number deed < deed_number next → place_of deed ≤ place_of next }
    ensures places { (grant other : Grant) → rank grant < rank other → grant.place ≤ other.place }
    ensures place { (grant : Grant) → place_of_rank (rank grant) ≡ grant.place }
    ensures one { (grant other : Grant) → rank grant ≡ rank other
        → (grant.place ≡ other.place) × (grant.kind ≡ other.kind) × (grant.position ≡ other.position) }
{}

/// A need that is held has a path of grants in force, along which the ranks rise. It leads from the table's owner to
/// the need: the owner makes the first grant, each gives the grantor of the next the option, and the last gives the need.
pub fn held_needs_have_paths()
    ensures leads { (owners : List ℕ) (deeds : List Deed) (user : ℕ) (need : Need)
        → holds owners deeds user need ≡ true
        → LeadsTo owners (path owners (kept owners deeds) user need) user need }
    ensures part { (owners : List ℕ) (deeds : List Deed) (user : ℕ) (need : Need)
        → IsPart (path owners (kept owners deeds) user need) (kept owners deeds) }
    ensures rises { (owners : List ℕ) (deeds : List Deed) (user : ℕ) (need : Need)
        → IsProper owners deeds → IsRising (path owners (kept owners deeds) user need) }
{}

/// What the path of a need is: empty for the table's owner, and otherwise the earliest grant that gives the need, after the path of its
/// grantor's option by the grants before it. A need that isn't held has none.
pub fn paths_take_the_earliest()
    ensures owner { (owners : List ℕ) (grants : List Grant) (user : ℕ) (need : Need)
        → owns owners user need.table ≡ true → path owners grants user need ≡ [] }
    ensures earliest { (owners : List ℕ) (before later : List Grant) (grant : Grant) (user : ℕ) (need : Need)
        → has owners before user need ≡ false → gives grant user need ≡ true
        → path owners (before ++ grant ∷ later) user need
        ≡ path owners before grant.grantor (option_of grant) ++ grant ∷ [] }
    ensures none { (owners : List ℕ) (grants : List Grant) (user : ℕ) (need : Need)
        → has owners grants user need ≡ false → path owners grants user need ≡ [] }
{}
