//! Where an expression is.

use crate::scope::Scope;
use catalogue::Catalogue;
use proclang_forms::Section;

/// The last depth that blocks and expressions may nest to; the outermost have depth 1.
pub const DEEPEST: u32 = 24;

/// What an expression is read in.
#[derive(Clone, Copy)]
pub struct ExprContext<'a> {
    pub section: Section,
    pub catalogue: &'a Catalogue,
    /// The variables that it may name.
    pub scope: &'a Scope,
    /// How many levels may still nest.
    pub room: u32,
}
