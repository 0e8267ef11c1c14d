//! Laws of rights, modes and coarsening.

ghost use Rattle.language_laws.specs.Rights.{ClashesByWrite, GrowsFromReadToWrite};
ghost use Rattle.language_laws.specs.Modes.{GraysTable};
ghost use Rattle.language_laws.specs.Coarsening.{DatabaseHasGreatest};

/// Two rights clash exactly where both are there and one of them is Write: readers don't block readers.
pub fn rights_clash_by_write()
    ensures { ClashesByWrite }
{}

/// Read is less than Write, in the order of rights, in what a right satisfies and by rank alike.
pub fn write_is_above_read()
    ensures { GrowsFromReadToWrite }
{}

/// Which of the five modes are compatible: the 25 cells of the table of Gray, Lorie, Putzolu and Traiger (1976).
pub fn modes_are_grays()
    ensures { GraysTable }
{}

/// The last step of coarsening leaves one entry, on the database, whose right is the greatest of all that there were:
/// at least each of them, and one of them.
pub fn database_has_greatest_right()
    ensures { DatabaseHasGreatest }
{}
