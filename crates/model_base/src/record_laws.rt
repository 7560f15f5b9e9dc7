//! What holds of the records of grants with their ends: they say of every list of deeds, and of every log, what the deeds say, also those
//! of some tables alone, and at every earlier place.

ghost use Rattle.std.specs.Prelude.{◌≡◌, ◌≢◌, ◌↔◌, ℕ, ◌<◌, ◌≤◌, Bool, true, Some, None, is_none, ◌&&◌, ◌||◌, All, Contains, List, ℤ, [], ◌∷◌, ◌++◌, length, filter, map};
ghost use Rattle.std.specs.List.{list_any};
ghost use Rattle.model_base.specs.Laws.{IsPart, IsRising};
ghost use Rattle.model_base.specs.Outcomes.{cause, deeds_before, outcome, owners};
ghost use Rattle.model_base.specs.OwnedTables.{AreOnOwnedTables};
ghost use Rattle.model_base.specs.Ranks.{deed_number, rank};
ghost use Rattle.model_base.specs.Privileges.{IsProper, concerns, deeds_below, ended_by, gives, holds, is_among, kept, option_of, owns, place_of};
ghost use Rattle.model_base.specs.RecordGrantees.{WereGranted, grantee_at, log_records};
ghost use Rattle.model_base.specs.Records.{IsRevokedIn, IsSelfBorne, TakesOutOfForce, cause_by, covered, cut, end_after, ended_at, ended_by_records, grants_of, holds_by, in_force, last_loss_by, recorded, records};
ghost use Rattle.model_base.specs.declared.deed.Deed.TheVariants.{Granting, Revoking};
ghost use Rattle.model_base.specs.declared.deed.Deed.{Deed};
ghost use Rattle.model_base.specs.declared.deed.Grant.{Grant};
ghost use Rattle.model_base.specs.declared.deed.Need.{Need};
ghost use Rattle.model_base.specs.declared.deed.Record.{Record};
ghost use Rattle.model_base.specs.declared.deed.Revocation.{Revocation};
ghost use Rattle.model_base.specs.declared.outcome.DeedDone.TheVariants.{Revoked};
ghost use Rattle.model_base.specs.declared.outcome.Outcome.TheVariants.{Done};
ghost use Rattle.model_base.specs.declared.statement.Statement.{Statement};

/// The grants of the records that have no end are those in force, so the records say who holds what: the table's owner, and whom one of the
/// records without an end gives it.
pub fn unended_records_are_in_force()
    ensures in_force { (owners : List ℕ) (deeds : List Deed)
        → IsProper owners deeds → in_force (records owners deeds) ≡ kept owners deeds }
    ensures each { (owners : List ℕ) (deeds : List Deed)
        → IsProper owners deeds
        → All (λ entry. is_none entry.end ≡ is_among (rank entry.grant) (kept owners deeds)) (records owners deeds) }
    ensures held { (owners : List ℕ) (deeds : List Deed) (user : ℕ) (need : Need)
        → IsProper owners deeds → holds_by owners (records owners deeds) user need ≡ holds owners deeds user need }
    ensures given { (owners : List ℕ) (entries : List Record) (user : ℕ) (need : Need)
        → holds_by owners entries user need
        ≡ (owns owners user need.table || list_any (λ entry. is_none entry.end && gives entry.grant user need) entries) }
{}

/// The records of one more deed: a grant, whose rank is no deed's number, is appended to the others, with no end; a revocation
/// ends, at its place, the records without an end of the grants that it takes out of force.
pub fn deeds_change_records()
    ensures granting { (owners : List ℕ) (deeds : List Deed) (grant : Grant)
        → All (λ deed. deed_number deed ≢ rank grant) deeds
        → records owners (deeds ++ Granting grant ∷ [])
        ≡ records owners deeds ++ record { grant = grant; end = None } ∷ [] }
    ensures revoking { (owners : List ℕ) (deeds : List Deed) (revocation : Revocation)
        → records owners (deeds ++ Revoking revocation ∷ [])
        ≡ map (ended_at revocation.place (ended_by owners deeds revocation)) (records owners deeds) }
{}

/// The records are of all grants of the deeds, and their ranks rise, as do those of the grants in force, of the records of some tables,
/// and of the records as they were at a place, since these are some of all.
pub fn records_rise()
    ensures grants { (owners : List ℕ) (deeds : List Deed) → recorded (records owners deeds) ≡ grants_of deeds }
    ensures rises { (owners : List ℕ) (deeds : List Deed)
        → IsProper owners deeds → IsRising (recorded (records owners deeds)) }
    ensures part { (part grants : List Grant) → IsPart part grants → IsRising grants → IsRising part }
    ensures in_force { (entries : List Record) → IsPart (in_force entries) (recorded entries) }
    ensures covered { (covers : ℕ → Bool) (entries : List Record)
        → IsPart (recorded (covered covers entries)) (recorded entries) }
    ensures cut { (place : ℕ) (entries : List Record) → IsPart (recorded (cut place entries)) (recorded entries) }
{}

/// A record's end lies above its grant's place, and is the place of a revocation that speaks of the grant's kind on its table.
pub fn ends_are_revocations()
    ensures above { (owners : List ℕ) (deeds : List Deed)
        → IsProper owners deeds
        → All (λ entry. (end : ℕ) → entry.end ≡ Some end → entry.grant.place < end) (records owners deeds) }
    ensures revocation { (owners : List ℕ) (deeds : List Deed)
        → IsProper owners deeds
        → All (λ entry. (end : ℕ) → entry.end ≡ Some end → IsRevokedIn deeds entry.grant end) (records owners deeds) }
{}

/// The end of a grant is the place of the deed before which it is in force and after which it isn't.
pub fn ends_are_losses()
    ensures { (owners : List ℕ) (past : List Deed) (deed : Deed) (later : List Deed) (ranked : ℕ)
        → IsProper owners (past ++ deed ∷ later)
        → (end_after owners [] (past ++ deed ∷ later) ranked ≡ Some (place_of deed)) ↔ TakesOutOfForce owners past deed ranked }
{}

/// Each record was authorised when it was made: its grantor held the option by the deeds below its place, and by the records as they were
/// there.
pub fn records_were_authorised()
    ensures deeds { (owners : List ℕ) (deeds : List Deed)
        → IsProper owners deeds
        → All (λ entry. holds owners (deeds_below entry.grant.place deeds) entry.grant.grantor (option_of entry.grant) ≡ true)
        (records owners deeds) }
    ensures records { (owners : List ℕ) (deeds : List Deed)
        → IsProper owners deeds
        → All (λ entry. holds_by owners (cut entry.grant.place (records owners deeds)) entry.grant.grantor (option_of entry.grant) ≡ true)
        (records owners deeds) }
{}

/// The records of the deeds below a place are those of all deeds, cut at the place, and so they say who held what there.
pub fn earlier_records_are_cut()
    ensures beginning { (owners : List ℕ) (place : ℕ) (past later : List Deed)
        → All (λ deed. place_of deed < place) past → All (λ deed. place ≤ place_of deed) later
        → cut place (records owners (past ++ later)) ≡ records owners past }
    ensures below { (owners : List ℕ) (place : ℕ) (deeds : List Deed)
        → IsProper owners deeds → records owners (deeds_below place deeds) ≡ cut place (records owners deeds) }
    ensures held { (owners : List ℕ) (deeds : List Deed) (place user : ℕ) (need : Need)
        → IsProper owners deeds
        → holds_by owners (cut place (records owners deeds)) user need ≡ holds owners (deeds_below place deeds) user need }
{}

/// The records of some tables say of these tables what all records say: who holds what, and which place took a need away last. Cutting them
/// is the same as taking them of the cut records.
pub fn covered_records_tell()
    ensures held { (owners : List ℕ) (covers : ℕ → Bool) (entries : List Record) (user : ℕ) (need : Need)
        → covers need.table ≡ true
        → holds_by owners (covered covers entries) user need ≡ holds_by owners entries user need }
    ensures lost { (owners : List ℕ) (covers : ℕ → Bool) (entries : List Record) (user : ℕ) (need : Need) (place : ℕ)
        → covers need.table ≡ true
        → last_loss_by owners (covered covers entries) user need place ≡ last_loss_by owners entries user need place }
    ensures cut { (covers : ℕ → Bool) (place : ℕ) (entries : List Record)
        → cut place (covered covers entries) ≡ covered covers (cut place entries) }
{}

/// Which grants a revocation ends, the records say, those of some tables with its own among them, and even those of its kinds on its
/// table alone. This holds of all records whose grants in force have rising ranks and bear their own replay, as do those of proper
/// deeds, and those of some tables.
pub fn records_tell_what_revocations_end()
    ensures all { (owners : List ℕ) (deeds : List Deed) (revocation : Revocation)
        → IsProper owners deeds
        → ended_by_records owners (records owners deeds) revocation ≡ ended_by owners deeds revocation }
    ensures tables { (owners : List ℕ) (covers : ℕ → Bool) (deeds : List Deed) (revocation : Revocation)
        → IsProper owners deeds → covers revocation.table ≡ true
        → ended_by_records owners (covered covers (records owners deeds)) revocation ≡ ended_by owners deeds revocation }
    ensures covered { (owners : List ℕ) (covers : ℕ → Bool) (entries : List Record) (revocation : Revocation)
        → IsRising (in_force entries) → IsSelfBorne owners entries → covers revocation.table ≡ true
        → ended_by_records owners (covered covers entries) revocation ≡ ended_by_records owners entries revocation }
    ensures concerned { (owners : List ℕ) (entries : List Record) (revocation : Revocation)
        → IsRising (in_force entries) → IsSelfBorne owners entries
        → ended_by_records owners (filter (λ entry. concerns revocation entry.grant) entries) revocation
        ≡ ended_by_records owners entries revocation }
    ensures stand { (owners : List ℕ) (deeds : List Deed)
        → IsProper owners deeds → IsSelfBorne owners (records owners deeds) }
    ensures stand_covered { (owners : List ℕ) (covers : ℕ → Bool) (entries : List Record)
        → IsSelfBorne owners entries → IsSelfBorne owners (covered covers entries) }
{}

/// The cause of a denial is the last loss by the records, counted down from any place above all deeds; by the deeds below
/// a place, counted down from there.
pub fn causes_are_losses_by_records()
    ensures all { (owners : List ℕ) (deeds : List Deed) (user : ℕ) (need : Need) (place : ℕ)
        → IsProper owners deeds → All (λ deed. place_of deed < place) deeds
        → cause owners deeds user need ≡ cause_by owners (records owners deeds) place user need }
    ensures below { (owners : List ℕ) (deeds : List Deed) (user : ℕ) (need : Need) (place : ℕ)
        → IsProper owners deeds
        → cause owners (deeds_below place deeds) user need ≡ cause_by owners (records owners deeds) place user need }
{}

/// Owners that are added after, of tables created later, change nothing for grants on the tables that there are. The grants of proper deeds
/// are on such tables.
pub fn later_owners_change_nothing()
    ensures tables { (owners : List ℕ) (deeds : List Deed)
        → IsProper owners deeds → AreOnOwnedTables owners (grants_of deeds) }
    ensures proper { (owners more : List ℕ) (deeds : List Deed)
        → AreOnOwnedTables owners (grants_of deeds)
        → (IsProper (owners ++ more) deeds) ↔ (IsProper owners deeds) }
    ensures kept { (owners more : List ℕ) (deeds : List Deed)
        → AreOnOwnedTables owners (grants_of deeds)
        → kept (owners ++ more) deeds ≡ kept owners deeds }
    ensures records { (owners more : List ℕ) (deeds : List Deed)
        → AreOnOwnedTables owners (grants_of deeds)
        → records (owners ++ more) deeds ≡ records owners deeds }
    ensures ended { (owners more : List ℕ) (deeds : List Deed) (revocation : Revocation)
        → AreOnOwnedTables owners (grants_of deeds)
        → ended_by (owners ++ more) deeds revocation ≡ ended_by owners deeds revocation }
    ensures held { (owners more : List ℕ) (deeds : List Deed) (user : ℕ) (need : Need)
        → AreOnOwnedTables owners (grants_of deeds) → need.table < length owners
        → holds (owners ++ more) deeds user need ≡ holds owners deeds user need }
    ensures cause { (owners more : List ℕ) (deeds : List Deed) (user : ℕ) (need : Need)
        → AreOnOwnedTables owners (grants_of deeds) → need.table < length owners
        → cause (owners ++ more) deeds user need ≡ cause owners deeds user need }
    ensures held_by { (owners more : List ℕ) (entries : List Record) (user : ℕ) (need : Need)
        → need.table < length owners
        → holds_by (owners ++ more) entries user need ≡ holds_by owners entries user need }
    ensures lost_by { (owners more : List ℕ) (entries : List Record) (user : ℕ) (need : Need) (place : ℕ)
        → need.table < length owners
        → last_loss_by (owners ++ more) entries user need place ≡ last_loss_by owners entries user need place }
    ensures ended_by { (owners more : List ℕ) (entries : List Record) (revocation : Revocation)
        → AreOnOwnedTables owners (in_force entries)
        → ended_by_records (owners ++ more) entries revocation ≡ ended_by_records owners entries revocation }
{}

/// The records of the deeds before a place of a log say of every place up to it: cut there, they are the records of the deeds before that
/// place; and those of some tables say of these tables who held what, which grants a revocation ended, and the cause of a denial.
pub fn records_tell_of_logs()
    ensures cut { (log : List Statement) (place later : ℕ) → place ≤ later
        → log_records log place ≡ cut place (log_records log later) }
    ensures held { (log : List Statement) (covers : ℕ → Bool) (place later : ℕ) (user : ℕ) (need : Need)
        → place ≤ later → covers need.table ≡ true
        → holds_by (owners log) (cut place (covered covers (log_records log later))) user need
        ≡ holds (owners log) (deeds_before log place) user need }
    ensures ended { (log : List Statement) (covers : ℕ → Bool) (place later : ℕ) (revocation : Revocation)
        → place ≤ later → covers revocation.table ≡ true
        → ended_by_records (owners log) (cut place (covered covers (log_records log later))) revocation
        ≡ ended_by (owners log) (deeds_before log place) revocation }
    ensures cause { (log : List Statement) (covers : ℕ → Bool) (place later : ℕ) (user : ℕ) (need : Need)
        → place ≤ later → covers need.table ≡ true
        → cause (owners log) (deeds_before log place) user need
        ≡ cause_by (owners log) (covered covers (log_records log later)) place user need }
{}

/// A record is to the grantee that the deed of its place names at its position; and a revocation ends only records of grants that were made
/// before its place.
pub fn records_name_grantees()
    ensures granted { (log : List Statement) (place : ℕ) (grant : Grant)
        → Contains (deeds_before log place) (Granting grant) → grantee_at log (rank grant) ≡ Some grant.grantee }
    ensures revoked { (log : List Statement) (place later : ℕ) (outputs : List ℤ) (ranks : List ℕ)
        → outcome log place ≡ Some (Done outputs (Revoked ranks)) → place ≤ later → WereGranted log later ranks }
    ensures kept { (log : List Statement) (place : ℕ) (ranks : List ℕ) (grants : List Grant)
        → IsPart grants (kept (owners log) (deeds_before log place)) → ranks ≡ map rank grants → WereGranted log place ranks }
    ensures later { (log : List Statement) (place later : ℕ) (ranks : List ℕ)
        → place ≤ later → WereGranted log place ranks → WereGranted log later ranks }
{}
