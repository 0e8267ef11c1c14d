//! What a document can say.

ghost use Rattle.catalogue.specs.Rules.{OneCatalogueIsSaid};

/// A document says one catalogue, and no other.
pub fn one_catalogue_is_said()
    ensures { OneCatalogueIsSaid }
{}
