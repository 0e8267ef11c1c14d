//! What an engine runs every batch with.

use dispatcher::Settings;
use requests::Procs;

/// What an engine runs every batch with.
#[derive(Drop)]
pub(crate) struct Configuration {
    pub procs: Procs,
    pub settings: Settings,
    // How often a stale request is tried again: 0 to 2.
    pub retries: u8,
}
