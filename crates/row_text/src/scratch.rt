//! Where row lines are written before they are appended to a longer text.

ghost use Rattle.std.specs.Prelude.{◌≡◌, ◌≤◌, ◌++◌, OnOk, drop};
ghost use Rattle.row_text.specs.Feeding.{table_lines};
ghost use Rattle.row_text.specs.Texts.{row_line};

use crate::digest::{push_row_line, table_name};
use crate::lines::{put_line, put_lines};
use crate::words::ROOM;
use catalogue::Catalogue;
use std::alloc::{AllocError, Global};
use values::{Key, Row, RowName, TableNo};

/// Room for the lines of a few rows at a time.
#[derive(Drop)]
pub(crate) struct Scratch {
    // The lines of rows of few numbers are at its end.
    room: [u8; ROOM],
    // The line of any other row.
    line: String,
}

/// Appends what is in a room from a place on.
fn push_end(text: &mut Vec<u8>, room: &[u8; ROOM], start: usize) -> Result<(), AllocError>
    requires { start ≤ 2048 }
    ensures { OnOk result (text.new.items ≡ text.old.items ++ drop start room.now) }
{
    text.extend_from_slice(&room[start..])?;
    Ok(())
}

/// Appends a row line, which is written in the place of another.
fn push_whole(
    alloc: Global,
    catalogue: &Catalogue,
    name: &RowName,
    row: &Row,
    line: &mut String,
    text: &mut Vec<u8>,
) -> Result<(), AllocError>
    ensures { OnOk result (text.new.items ≡ text.old.items ++ row_line catalogue.now name.now row.now) }
{
    line.clear();
    push_row_line(alloc, line, catalogue, name, row)?;
    text.extend_from_slice(line.as_bytes())?;
    Ok(())
}

impl Scratch {
    /// Room with nothing in it.
    pub(crate) fn new(alloc: Global) -> Scratch {
        Scratch {
            room: [0; ROOM],
            line: String::new(alloc),
        }
    }

    /// Appends a row line.
    fn push_line(
        &mut self,
        alloc: Global,
        catalogue: &Catalogue,
        name: &RowName,
        row: &Row,
        text: &mut Vec<u8>,
    ) -> Result<(), AllocError>
        ensures { OnOk result (text.new.items ≡ text.old.items ++ row_line catalogue.now name.now row.now) }
    {
        let table = table_name(catalogue, name.table);
        match put_line(&mut self.room, ROOM, table, name.key, row) {
            Some(start) => push_end(text, &self.room, start),
            None => push_whole(alloc, catalogue, name, row, &mut self.line, text),
        }
    }

    /// Appends the lines of rows of a table, one by one.
    pub(crate) fn push_each(
        &mut self,
        alloc: Global,
        catalogue: &Catalogue,
        table: TableNo,
        rows: &[(Key, &Row)],
        text: &mut Vec<u8>,
    ) -> Result<(), AllocError>
        ensures { OnOk result (text.new.items ≡ text.old.items ++ table_lines catalogue.now table rows.now) }
    {
        for row in rows {
            let name = RowName::new(table, row.0);
            self.push_line(alloc, catalogue, &name, row.1, text)?;
        }
        Ok(())
    }

    /// Appends the lines of a few rows of a table: all at once if they are of numbers and there is room for them.
    pub(crate) fn push_lines(
        &mut self,
        alloc: Global,
        catalogue: &Catalogue,
        table: TableNo,
        rows: &[(Key, &Row)],
        text: &mut Vec<u8>,
    ) -> Result<(), AllocError>
        ensures { OnOk result (text.new.items ≡ text.old.items ++ table_lines catalogue.now table rows.now) }
    {
        match put_lines(&mut self.room, catalogue, table, rows) {
            Some(start) => push_end(text, &self.room, start),
            None => self.push_each(alloc, catalogue, table, rows, text),
        }
    }
}
