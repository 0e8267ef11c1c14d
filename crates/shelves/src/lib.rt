//! The rows of a database on shelves, one for each partition. A row can go out to a loan and come back, by itself or
//! with its shelf; while it is away it counts as it was lent.
//!
//! Proved, by each function that reads, puts, takes, writes or moves rows: what counts at every name afterwards, which
//! places and shelves are there, and which shelves are away.
//!
//! Not proved: what `add_row` and `push_rows` leave if allocation fails; that places of rows that were taken away go.
#![tactic(auto)]

mod contents;
mod exchange;
mod filling;
mod named;
mod place;
mod rebuilding;
mod scan;
mod shelf;
mod shelves;
mod shelving;
mod writing;

pub use exchange::{make_shelves, put_shelves, share_shelves, take_shelves};
pub use filling::filled;
pub use named::{NamedRow, listed_writes};
pub use rebuilding::rebuilt;
pub use scan::{next_row, push_rows};
pub use shelf::Shelf;
pub use shelves::{
    Shelves, add_row, count_places, empty_place, lend_row, make_place, put_row, row_at, share_row,
    take_row,
};
pub use shelving::{ends_partition, has_ends, shelf_of};
pub use writing::write;
