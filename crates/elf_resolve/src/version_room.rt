//! The memory for the names of the versions of a shared library.
ghost use Rattle.std.specs.Prelude.{◌≡◌, length};

use crate::string_buffer::HeldText;

/// One more than the largest index of a version.
pub(crate) const MOST_VERSIONS: usize = 1024;

/// The names of the versions that a library defines and of those that it needs, in memory that is
/// allocated once.
#[derive(Drop)]
pub(crate) struct VersionNames {
    pub defined: Vec<Option<HeldText>>,
    pub needed: Vec<Option<HeldText>>,
    pub ghost room_for_defined: { length defined.items ≡ 1024 },
    pub ghost room_for_needed: { length needed.items ≡ 1024 },
}
