//! A loaded file with its section headers, and the checks of its sections.
ghost use Rattle.std.specs.Prelude.{◌≡◌};

use crate::loaded::Loaded;
use crate::store::HeaderStore;

/// A loaded file with the store that holds its section headers.
#[derive(Clone, Copy)]
pub struct SectionView<'a> {
    /// The file.
    pub loaded: Loaded,
    /// The section headers.
    pub store: &'a HeaderStore<'a>,
    pub ghost whole: { store.now.loaded ≡ loaded.header.e_shnum },
}
