//! Lines that end in a name, with the version after it if it has one.
ghost use Rattle.std.specs.Prelude.{◌≡◌, ◌≤◌, length};
ghost use Rattle.elf_format.specs.Fronts.{front_of};
ghost use Rattle.elf_listing.specs.Shows.{ListsLine, cut_of};
ghost use Rattle.elf_listing.specs.Suffixed.{ListsSuffixed, suffix_read};
ghost use Rattle.elf_listing.specs.SuffixTexts.{before_version, after_version};

use crate::listing::Listing;
use crate::read_suffix::VersionSuffixEnd;
use elf_format::{LinePrefix, SecondName, show_joined, show_named};
use elf_model::Format;
use elf_source::{Sink, Source};
use elf_table::{NameEnd, RunFault};

impl<S: Source, W: Sink> Listing<'_, '_, '_, '_, S, W> {
    /// Writes a line that ends in the name that was read. Consumes its prefix.
    pub(crate) fn named_line(
        &mut self,
        front: &mut LinePrefix,
        end: NameEnd,
    ) -> Result<(), RunFault>
        requires { length front.old.key.now ≤ 16 }
        ensures { ListsLine self.old self.new result (front_of front.old) end }
    {
        show_named(front, self.name.bytes(), is_cut(end), self.out)?;
        Ok(())
    }

    /// Writes a line that ends in the name that was read, with the version after it. Consumes its
    /// prefix.
    pub(crate) fn suffixed_line(
        &mut self,
        front: &mut LinePrefix,
        end: NameEnd,
        suffix: Option<VersionSuffixEnd>,
        version: &[u8],
    ) -> Result<(), RunFault>
        requires key { length front.old.key.now ≤ 16 }
        requires fits { length version.now ≤ 4096 }
        ensures { let suffix = suffix_read suffix version.now in
            ListsSuffixed self.old self.new result (front_of front.old) end suffix }
    {
        let Some(suffix) = suffix else {
            return self.named_line(front, end);
        };
        self.versioned_line(front, end, suffix, version)
    }

    /// Writes the line if there is a version.
    fn versioned_line(
        &mut self,
        front: &mut LinePrefix,
        end: NameEnd,
        suffix: VersionSuffixEnd,
        version: &[u8],
    ) -> Result<(), RunFault>
        requires key { length front.old.key.now ≤ 16 }
        requires fits { length version.now ≤ 4096 }
        ensures { let suffix = suffix_read (Some suffix) version.now in
            ListsSuffixed self.old self.new result (front_of front.old) end suffix }
    {
        let next = SecondName {
            between: before_version(front.format, suffix.is_default),
            name: version,
            tail: after_version(front.format, is_cut(suffix.end), suffix.is_default),
        };
        let shown = show_joined(front, self.name.bytes(), is_cut(end), &next, self.out);
        let SecondName {
            between: _,
            name: _,
            tail: _,
        } = next;
        shown?;
        Ok(())
    }
}

/// Returns `true` if a name is cut.
pub(crate) fn is_cut(end: NameEnd) -> bool
    ensures { result ≡ cut_of end }
{
    match end {
        NameEnd::Whole => false,
        NameEnd::Cut => true,
    }
}

/// Returns what separates a name and its version.
#[tactic(auto, unfolding(crate::specs::SuffixTexts::before_version))]
fn before_version(format: Format, is_default: bool) -> &'static [u8]
    ensures text { result.now ≡ before_version format is_default }
    ensures short { length result.now ≤ 16 }
{
    match (format, is_default) {
        (Format::Columns | Format::Table, false) => b"@",
        (Format::Columns | Format::Table, true) => b"@@",
        (Format::Object, _) => b",\"version\":\"",
    }
}

/// Returns what follows a version, with the end of the line.
#[tactic(auto, unfolding(crate::specs::SuffixTexts::after_version))]
fn after_version(format: Format, is_cut: bool, is_default: bool) -> &'static [u8]
    ensures text { result.now ≡ after_version format is_cut is_default }
    ensures short { length result.now ≤ 64 }
{
    match (format, is_cut, is_default) {
        (Format::Columns | Format::Table, false, _) => b"\n",
        (Format::Columns | Format::Table, true, _) => b"\\+\n",
        (Format::Object, false, false) => b"\",\"default\":false}\n",
        (Format::Object, false, true) => b"\",\"default\":true}\n",
        (Format::Object, true, false) => b"\",\"version_cut\":true,\"default\":false}\n",
        (Format::Object, true, true) => b"\",\"version_cut\":true,\"default\":true}\n",
    }
}
