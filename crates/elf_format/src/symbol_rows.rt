//! The lines of symbols.
ghost use Rattle.elf_source.specs.Prelude.{IsOutFault, OutGrows, OutPuts};
ghost use Rattle.std.specs.Prelude.{◌≡◌, ◌≤◌, ℕ, List, length, IfErr, IfSome, option_copied, false};
ghost use Rattle.elf_model.specs.Prelude.{bindings, e_machine, name_of, named_line, places, symbol_prefix, symbol_types, visibilities};
ghost use Rattle.elf_model.specs.Names.DisplayedName.{Whole};
ghost use Rattle.elf_record.specs.Sym.{IsSym};
ghost use Rattle.elf_format.specs.Fronts.{front_of};

use crate::constant_names::ConstantNames;
use crate::fields::{
    LinePrefix, begin_named, put_decimal, put_half, put_hex_field, put_name_or_decimal,
};
use crate::name_tables::{name_in_either_table, name_of};
use crate::named::show_named;
use crate::render::{Columns, Json, Render, Tabular};
use elf_model::Format;
use elf_record::Sym;
use elf_record::gnu_numbers::{SHN_X86_64_LCOMMON, STB_GNU_UNIQUE, STT_GNU_IFUNC};
use elf_record::numbers::{
    SHN_ABS, SHN_COMMON, SHN_UNDEF, STB_GLOBAL, STB_LOCAL, STB_WEAK, STT_COMMON, STT_FILE,
    STT_FUNC, STT_NOTYPE, STT_OBJECT, STT_SECTION, STT_TLS, STV_DEFAULT, STV_HIDDEN, STV_INTERNAL,
    STV_PROTECTED,
};
use elf_source::{Out, OutFault, Sink};

/// Fills the prefix with the `Y` line of a symbol up to the name: the index of its section, its own
/// index, value, size, type, binding, visibility and section index (gABI 4, Symbol Table).
#[tactic(auto, unfolding(elf_model::specs::LineFronts::symbol_prefix))]
pub fn symbol_prefix<R: Render>(
    front: &mut LinePrefix,
    section: u16,
    index: u64,
    symbol: &Sym,
    naming: ConstantNames,
)
    ensures front { (file : List ℕ) (at : ℕ) → IsSym file at symbol.now → front_of front.new
        ≡ symbol_prefix R.FORMAT naming.gnu naming.machine file at section index }
    ensures key { length front.new.key.now ≤ 16 }
{
    let kind = u64::from(symbol.kind());
    let binding = u64::from(symbol.binding());
    let visibility = u64::from(symbol.visibility());
    let place = u64::from(symbol.st_shndx);
    begin_named::<R>(front, b"Y", b"name");
    let line = &mut front.line;
    put_half::<R>(line, b"table", section, b' ');
    put_decimal::<R>(line, b"index", 10, index, b' ');
    put_hex_field::<R>(line, b"value", 16, 12, symbol.st_value, b' ');
    put_hex_field::<R>(line, b"size", 16, 9, symbol.st_size, b' ');
    put_name_or_decimal::<R>(line, b"type", 7, symbol_type_name(kind, naming.gnu), kind);
    put_name_or_decimal::<R>(
        line,
        b"binding",
        6,
        binding_name(binding, naming.gnu),
        binding,
    );
    put_name_or_decimal::<R>(
        line,
        b"visibility",
        9,
        visibility_name(visibility),
        visibility,
    );
    put_name_or_decimal::<R>(line, b"place", 5, place_name(place, naming), place);
}

/// Does the same as [`symbol_prefix`], in a format that is known only at run time.
pub fn symbol_front_in(
    format: Format,
    front: &mut LinePrefix,
    section: u16,
    index: u64,
    symbol: &Sym,
    naming: ConstantNames,
)
    ensures front { (file : List ℕ) (at : ℕ) → IsSym file at symbol.now → front_of front.new
        ≡ symbol_prefix format naming.gnu naming.machine file at section index }
    ensures key { length front.new.key.now ≤ 16 }
{
    match format {
        Format::Columns => symbol_prefix::<Columns>(front, section, index, symbol, naming),
        Format::Object => symbol_prefix::<Json>(front, section, index, symbol, naming),
        Format::Table => symbol_prefix::<Tabular>(front, section, index, symbol, naming),
    }
}

/// Writes the `Y` line of a symbol with the given name, whole, in the standards' names.
///
/// # Errors
/// Returns a fault of the output; a prefix of the line was written.
pub fn show_symbol<W: Sink>(
    section: u16,
    index: u64,
    symbol: &Sym,
    name: &[u8],
    format: Format,
    out: &mut Out<W>,
) -> Result<(), OutFault>
    ensures puts { (file : List ℕ) (at : ℕ) → IsSym file at symbol.now →
        let front = symbol_prefix format false (e_machine file) file at section index in
        OutPuts out.old out.new result (named_line front (Whole name.now)) }
    ensures fails { IfErr result (IsOutFault out.new) }
    ensures grows { OutGrows out.old out.new }
{
    let mut front = LinePrefix::new();
    symbol_front_in(
        format,
        &mut front,
        section,
        index,
        symbol,
        ConstantNames::standard(0),
    );
    show_named(&mut front, name, false, out)
}

/// Returns the name of a symbol type.
fn symbol_type_name(kind: u64, gnu: bool) -> Option<&'static str>
    ensures name { option_copied result ≡ name_of (symbol_types gnu) kind }
    ensures short { IfSome result (λ name. length name.now ≤ 7) }
{
    name_in_either_table(&STANDARD_SYMBOL_TYPES, gnu, &GNU_SYMBOL_TYPES, kind)
}

/// The symbol types of the standard (gABI 4, Symbol Types).
const STANDARD_SYMBOL_TYPES: [(u64, &str); 7] = [
    (STT_NOTYPE as u64, "NOTYPE"),
    (STT_OBJECT as u64, "OBJECT"),
    (STT_FUNC as u64, "FUNC"),
    (STT_SECTION as u64, "SECTION"),
    (STT_FILE as u64, "FILE"),
    (STT_COMMON as u64, "COMMON"),
    (STT_TLS as u64, "TLS"),
];

/// The GNU symbol types that have names.
const GNU_SYMBOL_TYPES: [(u64, &str); 1] = [(STT_GNU_IFUNC as u64, "IFUNC")];

/// Returns the name of a symbol's binding.
fn binding_name(binding: u64, gnu: bool) -> Option<&'static str>
    ensures name { option_copied result ≡ name_of (bindings gnu) binding }
    ensures short { IfSome result (λ name. length name.now ≤ 6) }
{
    name_in_either_table(&STANDARD_BINDINGS, gnu, &GNU_BINDINGS, binding)
}

/// The symbol bindings of the standard (gABI 4, Symbol Binding).
const STANDARD_BINDINGS: [(u64, &str); 3] = [
    (STB_LOCAL as u64, "LOCAL"),
    (STB_GLOBAL as u64, "GLOBAL"),
    (STB_WEAK as u64, "WEAK"),
];

/// The GNU symbol bindings that have names.
const GNU_BINDINGS: [(u64, &str); 1] = [(STB_GNU_UNIQUE as u64, "UNIQUE")];

/// Returns the name of a symbol's visibility.
fn visibility_name(visibility: u64) -> Option<&'static str>
    ensures name { option_copied result ≡ name_of visibilities visibility }
    ensures short { IfSome result (λ name. length name.now ≤ 9) }
{
    name_of(&VISIBILITIES, visibility)
}

/// The visibilities of a symbol (gABI 4, Symbol Visibility).
const VISIBILITIES: [(u64, &str); 4] = [
    (STV_DEFAULT as u64, "DEFAULT"),
    (STV_INTERNAL as u64, "INTERNAL"),
    (STV_HIDDEN as u64, "HIDDEN"),
    (STV_PROTECTED as u64, "PROTECTED"),
];

/// Returns the name of a special section index that a symbol may have.
fn place_name(index: u64, naming: ConstantNames) -> Option<&'static str>
    ensures name { option_copied result ≡ name_of (places naming.gnu naming.machine) index }
    ensures short { IfSome result (λ name. length name.now ≤ 5) }
{
    let further = naming.is_gnu_on_x86_64();
    name_in_either_table(&STANDARD_PLACES, further, &X86_64_PLACES, index)
}

/// The special section indexes of the standard (gABI 4, Special Section Indexes).
const STANDARD_PLACES: [(u64, &str); 3] = [
    (SHN_UNDEF as u64, "UND"),
    (SHN_ABS as u64, "ABS"),
    (SHN_COMMON as u64, "COM"),
];

/// The special section indexes of x86-64 (x86-64 psABI, Special Sections).
const X86_64_PLACES: [(u64, &str); 1] = [(SHN_X86_64_LCOMMON as u64, "LCOM")];
