//! What a text can say, and what its faults tell.

ghost use Rattle.std.specs.Prelude.{List};
ghost use Rattle.serde_json.specs.Data.{Data};
ghost use Rattle.catalogue.specs.Shapes.{TableShape};
ghost use Rattle.setup.specs.Rows.{RowAt};
ghost use Rattle.setup.specs.Says.{OneSetupIsSaid};
ghost use Rattle.setup.specs.RowFaults.{ComesAfter, RowFaultsAreTold};

use catalogue::one_catalogue_is_said;
use proclang::one_list_of_procedures_is_said;

/// A text says one setup, and no other.
pub fn one_setup_is_said()
    ensures { OneSetupIsSaid }
{
    // proof: the same laws of the parts of a setup.
    one_catalogue_is_said();
    one_list_of_procedures_is_said();
}

/// The fault tells what is wrong with the first row that is not well formed: that it is no row, that its table is
/// unknown, that its key is negative, that its values are not those of a row of its table, or else that the row was
/// given before.
pub fn row_faults_are_told_apart()
    ensures { (tables : List TableShape) (rows : Data) (before : List RowAt) (d : Data) →
        ComesAfter tables rows before d → RowFaultsAreTold tables rows before d }
{}
