//! What a setup document says.

use requests::Setup;
use row_text::DigestForm;

/// What a setup document says.
#[derive(Drop)]
pub struct SetupDocument {
    /// What a run starts from.
    pub setup: Setup,
    /// Of which text of the rows the digests in a report are.
    pub digest: DigestForm,
}
