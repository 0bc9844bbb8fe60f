//! What a caller looks up as a loader does.
ghost use Rattle.std.specs.Prelude.{◌≡◌, ◌≤◌, IfSome, MatchBool, length};
ghost use Rattle.elf_loader.specs.Lookups.{AreShort};
ghost use Rattle.elf_model.specs.Loader.{asked_name};
ghost use Rattle.elf_options.specs.Wants.{asked_of, query_of};
ghost use Rattle.elf_capi.specs.Queries.{IsPermitted, asked_version, asks_of, goes_by_segments, wanted_by};

use elf_options::{SymbolQuery, VersionQuery};

/// The maximum number of bytes of a name, and of a version.
const NAME_BYTES: usize = 4_096;
/// The lookup tables are found by the program headers, even if there are section headers.
const BY_SEGMENTS: u32 = 1;
/// The version is to be the symbol's default version.
const DEFAULT_ONLY: u32 = 2;

/// A symbol to look up, as a caller passes it.
#[derive(Clone, Copy)]
pub struct Query<'a> {
    /// How it is looked up: the sum of the numbers above.
    pub flags: u32,
    /// The name of the symbol, without a NUL.
    pub name: &'a [u8],
    /// The name of its version; of no bytes if none is requested.
    pub version: &'a [u8],
}

impl<'a> Query<'a> {
    /// Returns `true` if the flags are known, and neither name is too long.
    pub fn is_permitted(&self) -> bool
        ensures { let asks = asks_of self.now in
            MatchBool result (IsPermitted asks) (IsPermitted asks → ⊥) }
    {
        self.flags <= BY_SEGMENTS + DEFAULT_ONLY
            && self.name.len() <= NAME_BYTES
            && self.version.len() <= NAME_BYTES
    }

    /// Returns `true` if it is looked up by the program headers.
    pub fn by_segments(&self) -> bool
        ensures { result ≡ goes_by_segments self.now.flags }
    {
        self.flags % 2 == BY_SEGMENTS
    }

    /// Returns the symbol query.
    pub fn wanted(&self) -> SymbolQuery<'a>
        ensures is { query_of result ≡ wanted_by (asks_of self.now) }
        ensures short { IsPermitted (asks_of self.now) → AreShort (query_of result) }
    {
        SymbolQuery {
            name: self.name,
            asked: self.asked(),
        }
    }

    /// Returns the version that is requested.
    fn asked(&self) -> VersionQuery<'a>
        ensures is { asked_of result ≡ asked_version self.now.flags self.now.version.now }
        ensures short { length self.now.version.now ≤ 4096 →
            IfSome (asked_name (asked_of result)) (λ version. length version ≤ 4096) }
    {
        if self.version.is_empty() {
            return VersionQuery::NoVersion;
        }
        if self.flags < DEFAULT_ONLY {
            return VersionQuery::Version(self.version);
        }
        VersionQuery::DefaultVersion(self.version)
    }
}
