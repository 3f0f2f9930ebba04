//! Translators with their names, and places with the ends that stand there.

use rtmfp_forms::Address;
use rtmfp_text::Name;
use translators::Translator;

/// A translator, and what scripts call it.
#[derive(Drop)]
pub struct NamedTranslator {
    pub name: Name,
    pub translator: Translator,
}

/// Where an end stands.
#[derive(Clone, Copy, Debug, PartialEq, Eq)]
pub struct Standing {
    /// The number of the end.
    pub end: usize,
    /// Its place.
    pub at: Address,
    /// The number of the translator that it stands behind, if any.
    pub behind: Option<usize>,
}
