//! A loaded file in the segment view (gABI 4, execution view).
ghost use Rattle.std.specs.Prelude.{◌≡◌};

use crate::loaded::Loaded;
use crate::store::HeaderStore;

/// A loaded file in the segment view, with the store that holds its program headers.
#[derive(Clone, Copy)]
pub struct ExecutionView<'a> {
    /// The file.
    pub loaded: Loaded,
    /// The program headers.
    pub store: &'a HeaderStore<'a>,
    pub ghost whole: { store.now.segments ≡ loaded.header.e_phnum },
}
