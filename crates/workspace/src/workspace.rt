//! What a run has of its own.
#![tactic(auto, unfolding(meaning::specs::Runs::and_then))]

ghost use Rattle.std.specs.Prelude.{◌≡◌, pos, [], true, OnOk, IfOk, slice_get};
ghost use Rattle.values.specs.Database.{Database};
ghost use Rattle.values.specs.declared.value.Value.TheVariants.{Int};
ghost use Rattle.proclang_types.specs.declared.right.Right.TheVariants.{Write};
ghost use Rattle.footprint.specs.Declaration.{number_or};
ghost use Rattle.meaning.specs.Runs.{step, declare, set_row, remove_row, set_variable, replying};
ghost use Rattle.meaning.specs.Meaning.{text_or};
ghost use Rattle.meaning.specs.Entries.{start};
ghost use Rattle.workspace.specs.Coverage.{KeepsCovered, permits};
ghost use Rattle.workspace.specs.States.{state_at, with_first};
ghost use Rattle.workspace.specs.Answers.{Gives};
ghost use Rattle.workspace.specs.declared.permit.Permit.{Permit as PermitOf};

use crate::accesses::Accesses;
use crate::stop::Stop;
use footprint::AbortCode;
use meaning::Ending;
use std::alloc::Global;
use std::collections::BTreeMap;
use values::{NoMemory, Row, RowName, Value};

/// For how many variables a run has room at its start, beside its arguments.
const ROOM: usize = 8;

/// Copies of values, with room for more after them.
fn copies(alloc: Global, values: &[Value]) -> Result<Vec<Value>, NoMemory>
    ensures { IfOk result (λ copies. copies.items ≡ values.now) }
{
    let mut copies = Vec::with_capacity(alloc, values.len().saturating_add(ROOM))?;
    for value in values {
        copies.push(value.clone()?)?;
    }
    Ok(copies)
}

/// The own writes of a run, its variables in the order of their declarations, the steps that it took, what it replied,
/// and the accesses recorded. A write without a row is a deletion.
#[derive(Drop)]
pub struct Workspace {
    pub writes: BTreeMap<RowName, Option<Row>>,
    pub variables: Vec<Value>,
    pub steps: u32,
    pub reply: Vec<Value>,
    pub accesses: Accesses,
}

impl Workspace {
    /// At the start of a body: the arguments are the first variables.
    pub fn new(alloc: Global, arguments: &[Value]) -> Result<Workspace, NoMemory>
        ensures gives { (db : Database) → IfOk result (λ space. state_at db space ≡ start arguments.now db) }
        ensures writes { IfOk result (λ space. space.writes.entries ≡ []) }
    {
        Ok(Workspace {
            writes: BTreeMap::new(alloc),
            variables: copies(alloc, arguments)?,
            steps: 0,
            reply: Vec::new(alloc),
            accesses: Accesses::new(alloc),
        })
    }

    /// The number of a variable; 0 for one that is not there or is a text.
    pub fn number(&self, place: usize) -> i64
        ensures { result ≡ number_or (pos 0) (slice_get self.now.variables.items place) }
    {
        match self.variables.get(place) {
            Some(Value::Int(number)) => *number,
            Some(Value::Text(_)) | None => 0,
        }
    }

    /// The text of a variable; the empty text for one that is not there or is a number.
    pub fn text(&self, place: usize) -> &str
        ensures { result.now ≡ text_or [] (slice_get self.now.variables.items place) }
    {
        match self.variables.get(place) {
            Some(Value::Text(text)) => text.as_str(),
            Some(Value::Int(_)) | None => "",
        }
    }

    /// Declares one more variable after the others.
    pub fn declare(&mut self, value: Value) -> Result<(), Stop>
        ensures gives { (db : Database) →
            Gives (λ _. tt) (state_at db self.new) result (declare value (state_at db self.old)) }
        ensures writes { OnOk result (self.new.writes ≡ self.old.writes) }
    {
        self.variables.push(value)?;
        Ok(())
    }

    /// Declares the variable after the others, or changes it.
    pub fn set_variable(&mut self, place: usize, value: Value) -> Result<(), Stop>
        ensures gives { (db : Database) →
            Gives (λ _. tt) (state_at db self.new) result (set_variable place value (state_at db self.old)) }
        ensures writes { OnOk result (self.new.writes ≡ self.old.writes) }
    {
        if place == self.variables.len() {
            self.declare(value)?;
        } else if place < self.variables.len() {
            self.variables[place] = value;
        }
        Ok(())
    }

    /// Declares the variable after the others, or changes it: its value is a number.
    pub fn set_number(&mut self, place: usize, number: i64) -> Result<(), Stop>
        ensures gives { (db : Database) →
            Gives (λ _. tt) (state_at db self.new) result (set_variable place (Int number) (state_at db self.old)) }
        ensures writes { OnOk result (self.new.writes ≡ self.old.writes) }
    {
        match self.variables.get(place) {
            Some(Value::Int(_)) => {
                self.variables[place] = Value::Int(number);
                Ok(())
            }
            Some(Value::Text(_)) | None => self.set_variable(place, Value::Int(number)),
        }
    }

    // rule: variable.ended
    /// Ends a block: the variables after the first `count` are no more.
    pub fn leave_block(&mut self, count: usize)
        ensures gives { (db : Database) → state_at db self.new ≡ with_first count (state_at db self.old) }
        ensures writes { self.new.writes ≡ self.old.writes }
    {
        self.variables.truncate(count);
    }

    // rule: step.limit
    /// Takes a step, of which there are 10,000. The error comes exactly where all are taken: abort 8.
    pub fn take_step(&mut self) -> Result<(), Stop>
        ensures gives { (db : Database) → Gives (λ _. tt) (state_at db self.new) result (step (state_at db self.old)) }
        ensures writes { OnOk result (self.new.writes ≡ self.old.writes) }
    {
        if self.steps >= 10_000 {
            return Err(Stop::End(Ending::Abort(AbortCode::Budget)));
        }
        self.steps += 1;
        Ok(())
    }

    /// Puts a row in place of what was there.
    pub fn write(&mut self, name: RowName, row: Row) -> Result<(), Stop>
        ensures gives { (db : Database) →
            Gives (λ _. tt) (state_at db self.new) result (set_row name row (state_at db self.old)) }
        ensures kept { (permit : PermitOf) → permits permit name Write ≡ true →
            OnOk result (KeepsCovered permit self.old self.new) }
    {
        self.writes.insert(name, Some(row))?;
        Ok(())
    }

    /// Leaves no row.
    pub fn remove(&mut self, name: RowName) -> Result<(), Stop>
        ensures gives { (db : Database) →
            Gives (λ _. tt) (state_at db self.new) result (remove_row name (state_at db self.old)) }
        ensures kept { (permit : PermitOf) → permits permit name Write ≡ true →
            OnOk result (KeepsCovered permit self.old self.new) }
    {
        self.writes.insert(name, None)?;
        Ok(())
    }

    // rule: order.reply
    /// Appends values to the reply, of which there are at most 64. Where they would be more the run ends with abort 7;
    /// the only other error is that allocation failed.
    pub fn append_reply(&mut self, mut values: Vec<Value>) -> Result<(), Stop>
        ensures gives { (db : Database) →
            Gives (λ _. tt) (state_at db self.new) result (replying values.items (state_at db self.old)) }
        ensures writes { OnOk result (self.new.writes ≡ self.old.writes) }
    {
        if values.len() > 64 || self.reply.len() > 64 - values.len() {
            return Err(Stop::End(Ending::Abort(AbortCode::TooLong)));
        }
        if self.reply.is_empty() {
            self.reply = values;
        } else {
            self.reply.append(&mut values)?;
        }
        Ok(())
    }
}
