//! What an end was set up for, and what it was told since.

use endpoint_model::Config;
use introducer::Directory;

/// The limits of an end, whether it introduces, and its rows of addresses.
#[derive(Drop)]
pub struct Settings {
    pub config: Config,
    /// Whether it forwards hellos to the ends that it keeps sessions with.
    pub introduces: bool,
    pub directory: Directory,
}
