//! What is read of rows documents.

ghost use Rattle.std.specs.Prelude.{List, ℕ};
ghost use Rattle.values.specs.Database.{Database};
ghost use Rattle.catalogue.specs.Rules.{IsCatalogue};
ghost use Rattle.catalogue.specs.Shapes.{TableShape};
ghost use Rattle.setup.specs.Says.{SaysSetup};
ghost use Rattle.setup.specs.Setups.{SetupShape};
ghost use Rattle.setup.specs.WithRows.{SaysSetupWithRows};
ghost use Rattle.rows_document.specs.Said.{AreRowsIn, IsReadBack, row_list, with_row_list};
ghost use Rattle.rows_document.specs.Texts.{rows_document};

/// What is written is read as those rows, exactly: where each row of a database is one of the catalogue's tables, its
/// rows document is JSON and says its rows in order, and these rows put into an empty database make it again.
pub fn rows_are_read_as_written()
    ensures { (tables : List TableShape) (db : Database) → IsCatalogue tables → AreRowsIn tables db →
        IsReadBack tables db }
{}

/// A setup starts from rows that were written: with the rows document of a database over its tables a setup's text says
/// the same tables, procedures, retries and digest, and the rows of that database, whichever rows it said before.
pub fn setup_starts_from_written_rows()
    ensures own { (text : List ℕ) (s : SetupShape) (db : Database) → SaysSetup text s → AreRowsIn s.tables db →
        SaysSetupWithRows text (rows_document s.tables db) (with_row_list s (row_list s.tables db)) }
    ensures other { (text rows : List ℕ) (s : SetupShape) (db : Database) → SaysSetupWithRows text rows s →
        AreRowsIn s.tables db →
        SaysSetupWithRows text (rows_document s.tables db) (with_row_list s (row_list s.tables db)) }
{}
