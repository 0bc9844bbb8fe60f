//! The lines of the symbols that the objects of a program reference.
ghost use Rattle.std.specs.Prelude.{◌≡◌, ◌≤◌, length};
ghost use Rattle.arrayvec.specs.ArrayVec.{array_vec_len};
ghost use Rattle.elf_model.specs.Prelude.{binding_front, binding_line, binding_state_name, definer_fields, with_fields};
ghost use Rattle.elf_source.specs.Output.{OutPuts};
ghost use Rattle.elf_format.specs.Fronts.{front_of};
ghost use Rattle.elf_model.specs.BindingLines.{line_requested};
ghost use Rattle.elf_model.specs.Loader.{asked_name};
ghost use Rattle.elf_format.specs.Requests.{after_request, before_request};
ghost use Rattle.elf_options.specs.Wants.{query_of};

use crate::columns::LineBuf;
use crate::fields::{LinePrefix, begin_named, put_decimal, put_name_or_decimal, put_text};
use crate::named::{SecondName, show_joined, show_named};
use crate::render::{Columns, Json, Render, Tabular};
use elf_model::{BindingState, Format};
use elf_options::SymbolQuery;
use elf_source::{Out, OutFault, Sink};

/// Writes the `B` line of a symbol up to its name.
#[tactic(auto, unfolding(elf_model::specs::BindingLines::binding_front))]
fn binding_row<R: Render>(front: &mut LinePrefix, object: u16, symbol: u64, state: BindingState)
    ensures front { front_of front.new ≡ binding_front R.FORMAT object symbol state }
    ensures key { length front.new.key.now ≤ 16 }
{
    begin_named::<R>(front, b"B", b"name");
    let line = &mut front.line;
    put_decimal::<R>(line, b"object", 5, u64::from(object), b' ');
    put_decimal::<R>(line, b"symbol", 10, symbol, b' ');
    put_text::<R>(
        line,
        b"state",
        8,
        binding_state_name(state).as_bytes(),
        b' ',
    );
    put_definer::<R>(line, state);
}

/// Writes the object that defines a symbol, or in which the lookup is refused, and the symbol
/// there; hyphens for what there is none of.
#[tactic(auto, unfolding(elf_model::specs::Fields::with_field))]
fn put_definer<R: Render>(line: &mut LineBuf, state: BindingState)
    requires { array_vec_len line.old ≤ 150 }
    ensures items { line.new.items ≡ with_fields R.FORMAT line.old.items (definer_fields state) }
{
    match state {
        BindingState::Bound { object, symbol } => {
            put_name_or_decimal::<R>(line, b"definer", 5, None, u64::from(object));
            put_name_or_decimal::<R>(line, b"definition", 10, None, symbol);
        }
        BindingState::Refused { object } => {
            put_name_or_decimal::<R>(line, b"definer", 5, None, u64::from(object));
            put_name_or_decimal::<R>(line, b"definition", 10, Some("-"), 0);
        }
        BindingState::Weak | BindingState::Unbound | BindingState::NoVersion => {
            put_name_or_decimal::<R>(line, b"definer", 5, Some("-"), 0);
            put_name_or_decimal::<R>(line, b"definition", 10, Some("-"), 0);
        }
    }
}

/// Returns the word of a state in a symbol's line.
#[tactic(auto, unfolding(elf_model::specs::BindingLines::binding_state_name))]
fn binding_state_name(state: BindingState) -> &'static str
    ensures word { result.now ≡ binding_state_name state }
    ensures short { length result.now ≤ 8 }
{
    match state {
        BindingState::Bound { .. } => "bound",
        BindingState::Weak => "weak",
        BindingState::Unbound => "unbound",
        BindingState::NoVersion => "nover",
        BindingState::Refused { .. } => "refused",
    }
}

/// Writes the line of a symbol that an object references.
///
/// Its fields are the object's index and the symbol's, its state, the index of the object that
/// defines it, or in which the lookup is refused, the index of the symbol there, and its name, with
/// the referenced version, escaped as names are.
///
/// # Errors
/// A fault of the output, with a prefix of the line written.
pub fn show_binding<W: Sink>(
    object: u16,
    symbol: u64,
    state: BindingState,
    wanted: &SymbolQuery<'_>,
    format: Format,
    out: &mut Out<W>,
) -> Result<(), OutFault>
    ensures puts { OutPuts out.old out.new result (binding_line format object symbol state
        (query_of wanted.now).name (asked_name (query_of wanted.now).asked)) }
{
    let mut front = LinePrefix::new();
    match format {
        Format::Columns => binding_row::<Columns>(&mut front, object, symbol, state),
        Format::Object => binding_row::<Json>(&mut front, object, symbol, state),
        Format::Table => binding_row::<Tabular>(&mut front, object, symbol, state),
    }
    match wanted.asked.name() {
        None => show_named(&mut front, wanted.name, false, out),
        Some(version) => show_requested(&mut front, wanted.name, version, out),
    }
}

/// Writes a line that ends in a name and the referenced version: in columns after `@`, in a JSON
/// object as a member.
///
/// # Errors
/// A fault of the output, with a prefix of the line written.
#[tactic(auto, using(crate::proofs::RequestLaws::requested_is))]
fn show_requested<W: Sink>(
    front: &mut LinePrefix,
    name: &[u8],
    version: &[u8],
    out: &mut Out<W>,
) -> Result<(), OutFault>
    requires { length front.old.key.now ≤ 16 }
    ensures puts { let front = front_of front.old in OutPuts out.old out.new result
        (line_requested front.format front.key front.text name.now version.now) }
{
    let next = SecondName {
        between: before_request(front.format),
        name: version,
        tail: after_request(front.format),
    };
    let shown = show_joined(front, name, false, &next, out);
    let SecondName {
        between: _,
        name: _,
        tail: _,
    } = next;
    shown
}

/// Returns what separates a name and the referenced version.
#[tactic(auto, unfolding(crate::specs::Requests::before_request))]
fn before_request(format: Format) -> &'static [u8]
    ensures text { result.now ≡ before_request format }
    ensures short { length result.now ≤ 16 }
{
    match format {
        Format::Columns | Format::Table => b"@",
        Format::Object => b",\"version\":\"",
    }
}

/// Returns what follows a referenced version, with the end of the line.
#[tactic(auto, unfolding(crate::specs::Requests::after_request))]
fn after_request(format: Format) -> &'static [u8]
    ensures text { result.now ≡ after_request format }
    ensures short { length result.now ≤ 16 }
{
    match format {
        Format::Columns | Format::Table => b"\n",
        Format::Object => b"\"}\n",
    }
}
