//! The types of values.

ghost use Rattle.std.specs.Prelude.{◌≡◌};
ghost use Rattle.values.specs.Rows.{is_kind};

use crate::value::ColType;

/// Whether the two types are one.
pub fn is_kind(kind: ColType, other: ColType) -> bool
    ensures { result ≡ is_kind kind other }
{
    match kind {
        ColType::Int => other == ColType::Int,
        ColType::Text => other == ColType::Text,
    }
}
