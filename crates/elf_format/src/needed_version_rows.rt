//! The lines of the versions that the objects of a program need and don't find.
ghost use Rattle.std.specs.Prelude.{◌≡◌, ◌≤◌, length, option_map};
ghost use Rattle.elf_model.specs.NeededVersions.{needed_version_front, needed_version_line, version_state_name};
ghost use Rattle.elf_source.specs.Output.{OutPuts};
ghost use Rattle.elf_format.specs.Fronts.{front_of};

use crate::fields::{LinePrefix, begin_named, put_decimal, put_name_or_decimal, put_text};
use crate::named::show_named;
use crate::render::{Columns, Json, Render, Tabular};
use elf_model::{Format, VersionState};
use elf_source::{Out, OutFault, Sink};

/// Writes the `U` line of a version up to its name.
#[tactic(auto, unfolding(elf_model::specs::NeededVersions::needed_version_front))]
fn needed_version_row<R: Render>(
    front: &mut LinePrefix,
    object: u16,
    provider: Option<u16>,
    state: VersionState,
)
    ensures front { front_of front.new
        ≡ needed_version_front R.FORMAT object provider state }
    ensures key { length front.new.key.now ≤ 16 }
{
    begin_named::<R>(front, b"U", b"version");
    let line = &mut front.line;
    put_decimal::<R>(line, b"object", 5, u64::from(object), b' ');
    match provider {
        None => put_name_or_decimal::<R>(line, b"provider", 5, Some("-"), 0),
        Some(provider) => {
            put_name_or_decimal::<R>(line, b"provider", 5, None, u64::from(provider));
        }
    }
    put_text::<R>(
        line,
        b"state",
        8,
        version_state_name(state).as_bytes(),
        b' ',
    );
}

/// Returns the word of a state in a version's line.
#[tactic(auto, unfolding(elf_model::specs::NeededVersions::version_state_name))]
fn version_state_name(state: VersionState) -> &'static str
    ensures word { result.now ≡ version_state_name state }
    ensures short { length result.now ≤ 8 }
{
    match state {
        VersionState::NoFile => "nofile",
        VersionState::Bare => "bare",
        VersionState::NoVersion => "nover",
        VersionState::Refused => "refused",
    }
}

/// Writes the line of a version that an object needs and that is not there.
///
/// Its fields are the index of the object, the index of the object that should have it, or a hyphen
/// if there is none, its state, and its name, escaped as names are.
///
/// # Errors
/// A fault of the output, with a prefix of the line written.
pub fn show_needed_version<W: Sink>(
    object: u16,
    provider: Option<u16>,
    state: VersionState,
    name: &[u8],
    format: Format,
    out: &mut Out<W>,
) -> Result<(), OutFault>
    ensures puts { OutPuts out.old out.new result
        (needed_version_line format object provider state name.now) }
{
    let mut front = LinePrefix::new();
    match format {
        Format::Columns => needed_version_row::<Columns>(&mut front, object, provider, state),
        Format::Object => needed_version_row::<Json>(&mut front, object, provider, state),
        Format::Table => needed_version_row::<Tabular>(&mut front, object, provider, state),
    }
    show_named(&mut front, name, false, out)
}
