//! Laws of the texts of rows.

ghost use Rattle.std.specs.Prelude.{◌≡◌, ◌<◌, ℕ, List, Some, length};
ghost use Rattle.std.specs.FinMap.{entries, get};
ghost use Rattle.values.specs.declared.name.RowName.{RowName};
ghost use Rattle.catalogue.specs.Schemas.{HaveSameSchema};
ghost use Rattle.catalogue.specs.Shapes.{TableShape};
ghost use Rattle.values.specs.Database.{Database, RowOf};
ghost use Rattle.meaning.specs.Entries.{EntryShape};
ghost use Rattle.meaning.specs.Fitting.{HasTypes};
ghost use Rattle.meaning.specs.Serial.{serial_end};
ghost use Rattle.row_text.specs.Calls.{AreCallsOver};
ghost use Rattle.catalogue.specs.Rules.{IsCatalogue};
ghost use Rattle.row_text.specs.Partitions.{line_of_partition, partition_count, partition_digest, partition_text, AgreeInPartition};
ghost use Rattle.row_text.specs.Texts.{row_lines, row_text};

use meaning::stand_in_never_shows;

/// Where each row of a database is of one of the tables, the row text has a line for each of its rows, in the order of
/// tables and then of keys.
pub fn every_row_has_its_line()
    ensures { (tables : List TableShape) (db : Database) → ((name : RowName) (row : RowOf) → get db name ≡ Some row →
        name.table < length tables)
        → row_text tables db ≡ row_lines tables (entries db) }
{}

/// How keys are split shows in no row text: it is the same under two catalogues that have the same tables and columns.
pub fn row_text_depends_on_no_split()
    ensures { (ts us : List TableShape) (db : Database) → HaveSameSchema ts us → row_text ts db ≡ row_text us db }
{}

/// From rows of the columns' types, calls of procedures that fit the tables leave rows of the columns' types, each with
/// its line in the row text.
pub fn every_row_left_by_calls_has_its_line()
    ensures types { (tables : List TableShape) (calls : List EntryShape) (db : Database) → AreCallsOver tables calls →
        HasTypes tables db → HasTypes tables (serial_end calls db) }
    ensures lines { (tables : List TableShape) (calls : List EntryShape) (db : Database) → AreCallsOver tables calls →
        HasTypes tables db
        → row_text tables (serial_end calls db) ≡ row_lines tables (entries (serial_end calls db)) }
{
    stand_in_never_shows();
}

/// The digest and the line of a partition depend on the rows of that partition alone: databases that have the same rows
/// there have the same digest and the same line. So a change of rows changes no line of another partition.
pub fn partition_line_is_of_its_rows()
    ensures digest { (tables : List TableShape) (table part : ℕ) (one two : Database) →
        AgreeInPartition tables table part one two →
        partition_digest tables table part one ≡ partition_digest tables table part two }
    ensures line { (tables : List TableShape) (table part : ℕ) (one two : Database) →
        AgreeInPartition tables table part one two →
        line_of_partition tables table one part ≡ line_of_partition tables table two part }
{}

/// A partition text tells the digest of each partition: where two databases of one catalogue have equal partition
/// texts, each partition has rows in both or in neither, and its row lines have equal digests.
pub fn partition_text_tells_each_digest()
    ensures { (tables : List TableShape) (one two : Database) → IsCatalogue tables →
        partition_text tables one ≡ partition_text tables two → (table part : ℕ) → table < length tables →
        part < partition_count tables table →
        partition_digest tables table part one ≡ partition_digest tables table part two }
{}
