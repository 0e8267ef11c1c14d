//! Rows.

ghost use Rattle.std.specs.Prelude.{◌≡◌, IfOk, slice_get, slice_set, option_copied, List};

use crate::value::Value;
use std::alloc::AllocError;
use std::marker::Model;
use std::mem;

/// A row: one value a column, in order.
#[derive(Debug, Drop)]
pub struct Row {
    values: Vec<Value>,
}

impl Model for Row {
    ghost use Rattle.values.specs.Database.{RowOf};

    ghost Value = { RowOf };

    ghost view = { λ r. r.values.items };
}

impl Clone for Row {
    ghost is_clone = { λ row copy. copy ≡ row };

    fn clone(&self) -> Result<Row, AllocError> {
        let values = copies(&self.values)?;
        Ok(Row { values })
    }
}

impl Row {
    /// The row with these values.
    pub fn new(values: Vec<Value>) -> Row
        ensures { result ≡ values.items }
    {
        Row { values }
    }

    /// The values, in the order of the columns.
    pub fn values(&self) -> &[Value]
        ensures { result.now ≡ self.now }
    {
        self.values.as_slice()
    }

    /// The value in a column, `None` past the last.
    pub fn get(&self, column: usize) -> Option<&Value>
        ensures { option_copied result ≡ slice_get self.now column }
    {
        self.values.get(column)
    }

    /// Sets the value in a column; past the last nothing changes.
    pub fn set(&mut self, column: usize, value: Value)
        ensures { self.new ≡ slice_set self.old column value }
    {
        set_at(&mut self.values, column, value);
    }

    /// Exchanges the values of two rows. Rows of the same number of values keep their memory: each value moves alone.
    pub fn swap(&mut self, other: &mut Row)
        ensures this { self.new ≡ other.old }
        ensures other { other.new ≡ self.old }
    {
        if self.values.len() == other.values.len() {
            self.values.swap_with_slice(&mut other.values);
        } else {
            mem::swap(self, other);
        }
    }
}

#[tactic(auto, using(std::proofs::lemmas::List::set_past))]
fn set_at(values: &mut Vec<Value>, column: usize, value: Value)
    ensures { values.new.items ≡ slice_set values.old.items column value }
{
    if column < values.len() {
        values[column] = value;
    }
}

fn copies(values: &Vec<Value>) -> Result<Vec<Value>, AllocError>
    ensures { IfOk result (λ copies. copies.items ≡ values.now.items) }
{
    let mut copies = Vec::with_capacity(values.allocator().clone()?, values.len())?;
    for value in values {
        copies.push(value.clone()?)?;
    }
    Ok(copies)
}
