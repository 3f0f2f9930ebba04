//! What names an end: its certificate, what selects a certificate, by its fingerprint or by its name,
//! and the order of fingerprints.
#![tactic(auto)]

mod cert;
mod discriminator;
pub mod edges;
pub mod laws;
mod order;
mod service;
mod target;

pub use cert::{CertFault, Certificate};
pub use discriminator::Epd;
pub use order::prevails;
pub use service::ServiceName;
pub use target::Target;
