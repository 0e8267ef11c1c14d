//! What a run may touch.

ghost use Rattle.std.specs.Prelude.{◌≡◌, true, unwrap_or, OnOk};
ghost use Rattle.catalogue.specs.Places.{partition_of};
ghost use Rattle.values.specs.Database.{Database};
ghost use Rattle.footprint.specs.Tree.{row_resource};
ghost use Rattle.meaning.specs.Reconnaissance.{HasKey};
ghost use Rattle.workspace.specs.Coverage.{allows, rule_of};
ghost use Rattle.workspace.specs.States.{state_at};
ghost use Rattle.workspace.specs.Answers.{Gives};

use crate::stop::Stop;
use crate::workspace::Workspace;
use catalogue::Catalogue;
use footprint::{Footprint, InPart, InTable, Resource, Right};
use meaning::Ending;
use values::{Key, RowName, TableNo};

/// What happens at an access.
#[derive(Clone, Copy)]
pub enum Passage<'a> {
    /// It is tested against the footprint. Where that does not cover it, the run ends so.
    Covered(&'a Footprint, Ending),
    /// It is allowed, whatever it is, and recorded.
    Recorded,
}

/// What a run may touch: rows of the tables of a catalogue, as its passage lets it.
#[derive(Clone, Copy)]
pub struct Permit<'a> {
    pub catalogue: &'a Catalogue,
    pub passage: Passage<'a>,
}

/// The partition of a table that has a key. A table that the catalogue does not have counts as one of one partition.
pub fn part_of(catalogue: &Catalogue, table: TableNo, key: Key) -> u32
    ensures { result ≡ unwrap_or (partition_of catalogue.now table key) 0 }
{
    if table.place() < catalogue.len() {
        catalogue.part_of(table, key)
    } else {
        0
    }
}

/// The resource of a row name.
pub(crate) fn row_resource(catalogue: &Catalogue, name: &RowName) -> Resource
    ensures exact { result ≡ row_resource catalogue.now name.now }
    ensures key { HasKey result }
{
    let part = part_of(catalogue, name.table, name.key);
    Resource::Table(
        name.table,
        InTable::Part(part, InPart::Row(name.key.number())),
    )
}

impl Permit<'_> {
    // rule: order.grant
    /// An access is tested or recorded, as the passage says.
    #[tactic(auto, unfolding(meaning::specs::Runs::and_then))]
    pub(crate) fn pass(
        &self,
        space: &mut Workspace,
        resource: Resource,
        right: Right,
    ) -> Result<(), Stop>
        requires { HasKey resource }
        ensures gives { (db : Database) →
            Gives (λ _. tt) (state_at db space.new) result
            ((rule_of self.now).access resource right (state_at db space.old)) }
        ensures allowed { OnOk result (allows self.now.passage resource right ≡ true) }
        ensures writes { OnOk result (space.new.writes ≡ space.old.writes) }
    {
        match self.passage {
            Passage::Covered(footprint, uncovered) => {
                if footprint.covers(&resource, right) {
                    Ok(())
                } else {
                    Err(Stop::End(uncovered))
                }
            }
            Passage::Recorded => {
                space.accesses.add(resource, right)?;
                Ok(())
            }
        }
    }
}
