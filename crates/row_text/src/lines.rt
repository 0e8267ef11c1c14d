//! Row lines, each written before the one that it precedes, so that they end at the end of a room.

ghost use Rattle.std.specs.Prelude.{◌≡◌, ◌≤◌, ◌++◌, IfSome, drop};
ghost use Rattle.row_text.specs.Feeding.{row_words, table_lines};

use crate::digest::table_name;
use crate::words::{ROOM, put_words};
use catalogue::Catalogue;
use values::{Key, Row, TableNo};

/// Writes bytes, so that they end at `end`. Answers where they start, or `None` where there is no room.
fn put_bytes(room: &mut [u8; ROOM], end: usize, bytes: &[u8]) -> Option<usize>
    requires { end ≤ 2048 }
    ensures { IfSome result (λ start. (start ≤ 2048) × (drop start room.new ≡ bytes.now ++ drop end room.old)) }
{
    if end < bytes.len() {
        return None;
    }
    let start = end - bytes.len();
    room[start..end].copy_from_slice(bytes);
    Some(start)
}

/// Writes the line of a row of a table with that name, so that it ends at `end`. Answers where it starts, or `None`
/// where a value is a text or there is no room.
pub(crate) fn put_line(
    room: &mut [u8; ROOM],
    end: usize,
    table: &str,
    key: Key,
    row: &Row,
) -> Option<usize>
    requires { end ≤ 2048 }
    ensures { IfSome result (λ start. (start ≤ 2048) ×
        (drop start room.new ≡ (table.now ++ row_words key row.now) ++ drop end room.old)) }
{
    let start = put_words(room, end, key, row.values())?;
    put_bytes(room, start, table.as_bytes())
}

/// Writes the lines of rows of a table at the end of the room. Answers where they start, or `None` where a value is a
/// text or there is no room.
pub(crate) fn put_lines(
    room: &mut [u8; ROOM],
    catalogue: &Catalogue,
    table: TableNo,
    rows: &[(Key, &Row)],
) -> Option<usize>
    ensures { IfSome result (λ start. (start ≤ 2048) ×
        (drop start room.new ≡ table_lines catalogue.now table rows.now)) }
{
    let name = table_name(catalogue, table);
    let mut start = ROOM;
    let mut left = rows.len();
    while left > 0 {
        let row = &rows[left - 1];
        start = put_line(room, start, name, row.0, row.1)?;
        left -= 1;
    }
    Some(start)
}
