//! The version tables of symbols.
ghost use Rattle.std.specs.Prelude.{◌≡◌};

use crate::symbols::{VersionRecordTable, VersymTable};

/// The version tables of the symbols.
#[derive(Clone, Copy)]
pub(crate) struct VersionTables {
    /// The version symbol table, if there is one.
    pub words: Option<VersymTable>,
    /// The definitions, if there is a version symbol table and there are definitions.
    pub definitions: Option<VersionRecordTable>,
    /// The needs, if there is a version symbol table and there are needs.
    pub needs: Option<VersionRecordTable>,
}
