//! What a document can say.

ghost use Rattle.proclang.specs.Says.{OneListOfProceduresIsSaid};

/// Over given tables, a document says one list of procedures, and no other.
pub fn one_list_of_procedures_is_said()
    ensures { OneListOfProceduresIsSaid }
{}
