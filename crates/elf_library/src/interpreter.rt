//! The interpreter that a file names, and which files can be one.
ghost use Rattle.std.specs.Prelude.{◌≡◌, ◌<◌, ◌≤◌, ◌==◌, ◌+◌, ◌*◌, ℕ, List, IfErr, IfOk};
ghost use Rattle.elf_table.specs.Prelude.{CallDid, HoldsProgramHeaders, IsOfCheck, fault_of_result};
ghost use Rattle.elf_record.specs.Phdr.{IsPhdr};
ghost use Rattle.elf_model.specs.Prelude.{e_shnum, field, interpreter_at, interpreter_by_segments, interpreter_of, is_interpreter, loaded_interpreter, name_bytes, p_filesz, p_offset, segment_at};
ghost use Rattle.elf_model.specs.Interpreters.{INTERPRETER_BYTES};
ghost use Rattle.elf_library.specs.Interpreting.{ReturnsInterpreter, ReturnsIsInterpreter, ReturnsRefusal, end_refusal, interprets, path_range};
ghost use Rattle.elf_library.specs.Sought.{ReturnsWhole};

use crate::link_reader::{FRONT_BYTES, byte_at, machine_by};
use crate::reference::whole_name;
use elf_hash::load_by_segments;
use elf_record::numbers::PT_INTERP;
use elf_record::{Cause, Phdr, is_linked_type, u16_at};
use elf_source::{Counted, Source};
use elf_table::{
    ExecutionView, Fault, HeaderStore, NameBuf, Names, fill, is_out_of_bounds, refused,
};

/// The maximum number of bytes of a path, its NUL among them.
const PATH_BYTES: u64 = 4096;

/// Reads the path of the interpreter that a file names, as the system sees it: by its program
/// headers, ignoring its section headers (gABI 5, Program Interpreter). Returns whether it names
/// one; otherwise, and after a fault, the contents of `path` are unspecified.
///
/// # Errors
/// The first that fails:
///
/// - Those of [`load_by_segments`].
/// - At the first program header of the type: `TableOutside` if its bytes are outside the file,
///   `NameUnended` if they are fewer than two or more than 4,096, or the last is no NUL.
/// - Otherwise a read fault, or a refusal for lack of budget.
pub fn read_interpreter<S: Source>(
    src: &mut Counted<S>,
    store: &mut HeaderStore,
    path: &mut NameBuf,
) -> Result<bool, Fault>
    ensures did { CallDid src.old src.new (fault_of_result result)
        (64 + store.old.slots * 56 + (1 + name_bytes INTERPRETER_BYTES))
        (λ file. ReturnsInterpreter (interpreter_of file store.old.slots) path.new result) }
    ensures slots { store.new.slots ≡ store.old.slots }
{
    let hides = src.hides();
    src.mask_section_headers(true);
    let named = shown_interpreter(src, store, path);
    src.mask_section_headers(hides);
    named
}

/// Reads the same for the file as the source shows it, whose header locates no section headers.
///
/// # Errors
/// Those of [`read_interpreter`].
fn shown_interpreter<S: Source>(
    src: &mut Counted<S>,
    store: &mut HeaderStore,
    path: &mut NameBuf,
) -> Result<bool, Fault>
    ensures did { CallDid src.old src.new (fault_of_result result)
        (64 + store.old.slots * 56 + (1 + name_bytes INTERPRETER_BYTES))
        (λ file. e_shnum file ≡ 0 →
        ReturnsInterpreter (interpreter_by_segments file store.old.slots) path.new result) }
    ensures slots { store.new.slots ≡ store.old.slots }
{
    let loaded = load_by_segments(src, store)?;
    interpreter_by_segments(src, &ExecutionView { loaded, store }, path)
}

/// Reads the same for a file whose program headers are loaded.
///
/// # Errors
/// Those of [`read_interpreter`] after the load.
fn interpreter_by_segments<S: Source>(
    src: &mut Counted<S>,
    view: &ExecutionView<'_>,
    path: &mut NameBuf,
) -> Result<bool, Fault>
    requires { view.now.loaded.size ≡ src.old.seen.size }
    ensures { CallDid src.old src.new (fault_of_result result) (1 + name_bytes INTERPRETER_BYTES)
        (λ file. HoldsProgramHeaders file view.now.loaded view.now.store.now →
        ReturnsInterpreter (loaded_interpreter file) path.new result) }
{
    let Some(segment) = view.first_segment(PT_INTERP) else {
        return Ok(false);
    };
    interpreter_at(src, view, segment, path)?;
    Ok(true)
}

/// Reads the path that a program header locates: its bytes up to the first NUL.
///
/// # Errors
/// Those of [`read_interpreter`] at the program header.
fn interpreter_at<S: Source>(
    src: &mut Counted<S>,
    view: &ExecutionView<'_>,
    segment: u16,
    path: &mut NameBuf,
) -> Result<(), Fault>
    requires size { view.now.loaded.size ≡ src.old.seen.size }
    requires below { segment < view.now.store.now.segments }
    ensures { CallDid src.old src.new (fault_of_result result) (1 + name_bytes INTERPRETER_BYTES)
        (λ file. HoldsProgramHeaders file view.now.loaded view.now.store.now →
        ReturnsWhole (interpreter_at file (segment_at file segment)) path.new result) }
{
    let place = view.place(segment);
    let names = path_range(&view.segment(segment), view.loaded.size(), place)?;
    check_end(src, names, place)?;
    whole_name(src, names, 0, place, path)
}

/// Returns where the bytes are that a program header locates, if a path can have as many. A refusal
/// points to `place`.
///
/// # Errors
/// `TableOutside` if they are outside a file of `size` bytes, `NameUnended` if they are fewer than
/// two or more than 4,096.
fn path_range(header: &Phdr, size: u64, place: u64) -> Result<Names, Fault>
    ensures value { (file : List ℕ) (at : ℕ) → IsPhdr file at header.now →
        result ≡ path_range size (p_offset file at) (p_filesz file at) place }
    ensures within { IfOk result (λ names. names.at + names.size ≤ size) }
    ensures some { IfOk result (λ names. 1 < names.size) }
    ensures refusal { IfErr result IsOfCheck }
{
    if is_out_of_bounds(size, header.p_offset, header.p_filesz) {
        return refused(place, Cause::TableOutside);
    }
    if header.p_filesz < 2 || header.p_filesz > PATH_BYTES {
        return refused(place, Cause::NameUnended);
    }
    Ok(Names::new(header.p_offset, header.p_filesz))
}

/// Checks that the last byte of a path is a NUL.
///
/// # Errors
/// `NameUnended` at `place` if it is none, a read fault, or a refusal for lack of budget.
fn check_end<S: Source>(src: &mut Counted<S>, path: Names, place: u64) -> Result<(), Fault>
    requires within { path.at + path.size ≤ src.old.seen.size }
    requires some { 0 < path.size }
    ensures { CallDid src.old src.new (fault_of_result result) 1
        (λ file. ReturnsRefusal (end_refusal file path place) result) }
{
    let mut last = [0; 1];
    fill(src, path.at() + (path.size() - 1), &mut last)?;
    if !is_nul(&last) {
        return refused(place, Cause::NameUnended);
    }
    Ok(())
}

/// Returns whether a byte is a NUL.
fn is_nul(byte: &[u8; 1]) -> bool
    ensures { result ≡ (field byte.now 0 1 == 0) }
{
    byte_at(byte, 0) == 0
}

/// Returns whether a file can be the interpreter of a program of a machine: it is of 64 bits,
/// little-endian and of that machine, and executable or shared.
///
/// # Errors
/// A read fault, or a refusal for lack of budget.
pub fn is_interpreter<S: Source>(src: &mut Counted<S>, machine: u16) -> Result<bool, Fault>
    ensures { CallDid src.old src.new (fault_of_result result) 20
        (λ file. ReturnsIsInterpreter (is_interpreter machine file) result) }
{
    if src.length() < FRONT_BYTES as u64 {
        return Ok(false);
    }
    let mut front = [0; FRONT_BYTES];
    fill(src, 0, &mut front)?;
    Ok(interprets(&front, machine))
}

/// Returns `true` if a file with these first bytes can be that interpreter.
fn interprets(front: &[u8; FRONT_BYTES], machine: u16) -> bool
    ensures { result ≡ interprets machine front.now }
{
    match machine_by(front) {
        Some(found) => found == machine && is_linked_type(u16_at(front, 16)),
        None => false,
    }
}
