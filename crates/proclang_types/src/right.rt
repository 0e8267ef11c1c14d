//! Rights.

/// What a footprint gives on a resource, or an access asks for. `Read` is less than `Write`.
#[derive(Clone, Copy, Debug, PartialEq, Eq, PartialOrd, Ord)]
pub enum Right {
    Read,
    Write,
}
