//! An end of a world.

use endpoint::{Config, Endpoint};
use identity::Certificate;
use rtmfp_text::Name;

/// An end: its name, what it was given, and the endpoint. The secret of its group is 32 zeros
/// in generation 0, and that of its cookies is its fingerprint.
#[derive(Drop)]
pub struct End {
    pub(crate) name: Name,
    pub(crate) config: Config,
    pub(crate) cert: Certificate,
    pub(crate) endpoint: Endpoint,
}
