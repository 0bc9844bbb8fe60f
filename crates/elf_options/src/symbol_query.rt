//! What is looked up.
ghost use Rattle.std.specs.Prelude.{◌≡◌, ◌==◌, ◌<◌, length, position, None, Some, IfSome, false, option_map};
ghost use Rattle.elf_model.specs.Prelude.{AT_SIGN, asked_after, asked_name, has_sign, has_sign_first, is_complete, parse_query};
ghost use Rattle.elf_options.specs.Wants.{asked_of, query_of};

/// The sign between a name and its version.
const AT_SIGN: u8 = b'@';

/// The version of a symbol that is looked up.
#[derive(Clone, Copy)]
pub enum VersionQuery<'a> {
    /// The version that a name alone takes: one that is not hidden, or none.
    NoVersion,
    /// A version by its name.
    Version(&'a [u8]),
    /// A version by its name, which must be the symbol's default version.
    DefaultVersion(&'a [u8]),
}

/// A symbol that is looked up, by its name and its version.
#[derive(Clone, Copy)]
pub struct SymbolQuery<'a> {
    /// The name of the symbol.
    pub name: &'a [u8],
    /// The version to look up.
    pub asked: VersionQuery<'a>,
}

impl<'a> SymbolQuery<'a> {
    /// Returns `true` if neither the name nor a given version is empty.
    #[tactic(auto, unfolding(elf_model::specs::Loader::is_complete))]
    pub fn is_complete(&self) -> bool
        ensures { result ≡ is_complete (query_of self.now) }
    {
        !self.name.is_empty() && !self.asked.has_empty_name()
    }
}

impl<'a> VersionQuery<'a> {
    /// Returns the name of the version, if one is given.
    pub fn name(&self) -> Option<&'a [u8]>
        ensures { option_map (λ name. name.now) result ≡ asked_name (asked_of self.now) }
    {
        match self {
            VersionQuery::NoVersion => None,
            VersionQuery::Version(version) | VersionQuery::DefaultVersion(version) => Some(
                *version,
            ),
        }
    }

    // Returns `true` if a version is given whose name is empty.
    fn has_empty_name(&self) -> bool
        ensures { result ≡ elim (asked_name (asked_of self.now)) [
          | None ↦ false
          | Some version ↦ length version == 0
        ] }
    {
        match self {
            VersionQuery::NoVersion => false,
            VersionQuery::Version(version) | VersionQuery::DefaultVersion(version) =>
                version.is_empty(),
        }
    }
}

/// Parses a text NAME, NAME@VERSION or NAME@@VERSION: it is split at its first `@`, and after a
/// second that follows directly the version must be the default one. A version may contain further
/// `@`. Each part may be empty.
#[tactic(auto, unfolding(elf_model::specs::Loader::parse_query))]
pub fn parse_query(text: &[u8]) -> SymbolQuery<'_>
    ensures { query_of result ≡ parse_query text.now }
{
    match find_sign(text) {
        None => SymbolQuery {
            name: text,
            asked: VersionQuery::NoVersion,
        },
        Some(place) => SymbolQuery {
            name: &text[..place],
            asked: asked_after(&text[place + 1..]),
        },
    }
}

// Returns the position of the first sign.
fn find_sign(text: &[u8]) -> Option<usize>
    ensures first { position (λ byte. byte == AT_SIGN) text.now ≡ result }
    ensures below { IfSome result (λ place. place < length text.now) }
{
    for (place, byte) in text.iter().enumerate() {
        if *byte == AT_SIGN {
            return Some(place);
        }
    }
    None
}

// Returns the version after the first sign.
fn asked_after(text: &[u8]) -> VersionQuery<'_>
    ensures { asked_of result ≡ asked_after text.now }
{
    if has_sign_first(text) {
        return VersionQuery::DefaultVersion(&text[1..]);
    }
    VersionQuery::Version(text)
}

/// Returns `true` if the sign is in a name.
pub(crate) fn has_sign(name: &[u8]) -> bool
    ensures { result ≡ has_sign name.now }
{
    name.contains(&AT_SIGN)
}

/// Returns `true` if a text begins with the sign.
pub(crate) fn has_sign_first(text: &[u8]) -> bool
    ensures { result ≡ has_sign_first text.now }
{
    !text.is_empty() && text[0] == AT_SIGN
}
