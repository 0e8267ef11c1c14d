//! Laws of the meaning.

ghost use Rattle.std.specs.Prelude.{◌≡◌, ℕ, ℤ, pos, ◌+ℤ◌, int_le, List, [], ◌∷◌, ◌++◌, map, slice_get, Some, None, if◌then◌else◌};
ghost use Rattle.values.specs.declared.value.Value.{Value};
ghost use Rattle.catalogue.specs.Shapes.{TableShape};
ghost use Rattle.values.specs.Rows.{type_of};
ghost use Rattle.values.specs.Database.{Database};
ghost use Rattle.proclang_types.specs.Syntax.{ProcSyntax, StmtSyntax};
ghost use Rattle.proclang_types.specs.Typing.{kinds_of, ProcFits};
ghost use Rattle.footprint.specs.Rights.{FootprintOf, with_right};
ghost use Rattle.meaning.specs.Entries.{EntryShape};
ghost use Rattle.meaning.specs.Frame.{Agree, StaysInFootprint};
ghost use Rattle.meaning.specs.Runs.{AccessRule, Access};
ghost use Rattle.meaning.specs.Meaning.{StandIn};
ghost use Rattle.meaning.specs.Order.{OperandsComeFirst};
ghost use Rattle.meaning.specs.Turns.{numbers_between};
ghost use Rattle.meaning.specs.Fitting.{HasTypes, IsCallOf, StandInNeverShows};
ghost use Rattle.meaning.specs.Reconnaissance.{greatest_rights, HasGreatestRights, found_entry, HoldsAsFound, NeedsEachAccess, FindsOfTables, StandInNeverFound};

/// The frame law. From databases that agree on what an entry may read, it has one outcome and does the same to what it
/// may read, and it changes no row name that it may not write.
#[tactic(auto, using(crate::proofs::Frame::stays))]
pub fn stays_in_footprint()
    ensures { (entry : EntryShape) (one two : Database) → Agree entry one two → StaysInFootprint entry one two }
{}

/// What is taken for a variable or a column that is not there, or has another type, never shows: a call of a procedure
/// that fits its tables, with arguments of the parameters' types and on rows of the columns' types, has one meaning
/// whatever is taken for it. It leaves rows of the columns' types.
pub fn stand_in_never_shows()
    ensures { (proc : ProcSyntax) (entry : EntryShape) (db : Database) → IsCallOf proc entry →
        HasTypes entry.tables db → StandInNeverShows entry db }
{}

/// The footprint of a list of accesses has each resource that was accessed, with just the greatest right with which it
/// was: it covers each access of the list, and grants nothing for which there was no access of the resource itself.
#[tactic(auto, using(crate::proofs::Greatest::has_greatest_rights))]
pub fn footprint_has_greatest_rights()
    ensures { (accesses : List Access) → HasGreatestRights accesses (greatest_rights accesses) }
{}

/// One more access adds its right to the footprint.
#[tactic(auto, using(crate::proofs::Greatest::one_more))]
pub fn access_adds_its_right()
    ensures { (accesses : List Access) (access : Access) → greatest_rights (accesses ++ access ∷ []) ≡
        with_right (greatest_rights accesses) access.0 access.1 }
{}

// rule: stale.when
/// On each database that agrees with the one read on the found footprint, the found entry has the outcome that the
/// reconnaissance run had. So it is not stale there.
#[tactic(auto, using(crate::proofs::Found::holds_as_found))]
pub fn found_entry_is_not_stale()
    ensures { (tables : List TableShape) (body : List StmtSyntax) (arguments : List Value) (read db : Database) →
        Agree (found_entry tables body arguments read) read db → HoldsAsFound tables body arguments read db }
{}

/// On the database read, the entry needs each access of the reconnaissance run, and no other: with a footprint that
/// leaves out one of them it is stale, and with one that covers them all it has the outcome of that run.
#[tactic(auto, using(crate::proofs::Found::needs_each_access))]
pub fn each_access_is_needed()
    ensures { (tables : List TableShape) (body : List StmtSyntax) (arguments : List Value) (read : Database)
        (footprint : FootprintOf) →
        NeedsEachAccess tables body arguments read footprint }
{}

/// Reconnaissance of a body that fits its tables finds a footprint of these tables.
#[tactic(auto, using(crate::proofs::Places::finds_of_tables))]
pub fn found_footprint_is_of_tables()
    ensures { (tables : List TableShape) (proc : ProcSyntax) (arguments : List Value) (db : Database) →
        ProcFits tables proc → FindsOfTables tables proc.body arguments db }
{}

/// What is taken for a variable or a column that is not there, or has another type, is never found: reconnaissance of a
/// procedure that fits its tables, with arguments of the parameters' types and on rows of the columns' types, makes the
/// same accesses whatever is taken for it.
#[tactic(auto, using(crate::proofs::StandIns::never_found))]
pub fn stand_in_is_never_found()
    ensures { (tables : List TableShape) (proc : ProcSyntax) (arguments : List Value) (db : Database) →
        ProcFits tables proc → map type_of arguments ≡ kinds_of proc.params → HasTypes tables db
        → StandInNeverFound tables proc.body arguments db }
{}

// rule: order.operands
/// The order in which the parts of a statement fail, the same for all statements: its step, its operands from left to
/// right as they are written, and then what is tested of them: whether the first is a key or a partition's number,
/// whether the footprint covers the access, and whether the row is there. The first that fails ends the run.
pub fn operands_come_first()
    ensures { (d : StandIn) (rule : AccessRule) → OperandsComeFirst d rule }
{}

/// The numbers from one to another, place by place: each is one more than the one before it, the first is the lower
/// one, and there are those that are not above the higher one.
#[tactic(auto, using(crate::proofs::Ranges::numbers_at))]
pub fn numbers_go_from_low_to_high()
    ensures { (low high : ℤ) (place : ℕ) →
        slice_get (numbers_between low high) place ≡ (if int_le (low +ℤ pos place) high then Some (low +ℤ pos place)
        else None) }
{}
