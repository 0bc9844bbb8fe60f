//! The names that a linker defines itself, if no file does.
ghost use Rattle.std.specs.Prelude.{◌≡◌, MatchOption, None, Some, bytes_eq};
ghost use Rattle.std.specs.List.{list_any};
ghost use Rattle.elf_model.specs.LinkLines.{linker_names};
ghost use Rattle.elf_resolve.specs.LinkerNames.{bounded_name, defines_name, output_of};

/// How many names are defined in every link.
const ALWAYS_COUNT: usize = 22;

/// Names that are defined in every link, by GNU ld and its scripts for x86-64.
const ALWAYS: [&str; ALWAYS_COUNT] = [
    "_GLOBAL_OFFSET_TABLE_",
    "_PROCEDURE_LINKAGE_TABLE_",
    "_TLS_MODULE_BASE_",
    "__bss_start",
    "_edata",
    "edata",
    "_end",
    "end",
    "__etext",
    "_etext",
    "etext",
    "__executable_start",
    "__ehdr_start",
    "__preinit_array_start",
    "__preinit_array_end",
    "__init_array_start",
    "__init_array_end",
    "__fini_array_start",
    "__fini_array_end",
    "__rela_iplt_start",
    "__rela_iplt_end",
    "__tdata_start",
];

/// The name of the dynamic entries.
const DYNAMIC_NAME: &[u8] = b"_DYNAMIC";

/// The name of a function whose calls a linker rewrites in a program.
const TLS_CALL: &[u8] = b"__tls_get_addr";

/// What the name of a section's beginning begins with.
const BEGINNING: &[u8] = b"__start_";

/// What the name of a section's end begins with.
const ENDING: &[u8] = b"__stop_";

/// What is made, which decides about some names.
#[derive(Clone, Copy)]
pub struct OutputKind {
    /// Whether a shared library is made.
    pub is_shared: bool,
    /// Whether the output has dynamic entries: it is shared or position-independent, or there is a
    /// shared library among the inputs.
    pub is_dynamic: bool,
}

impl OutputKind {
    /// A program that is made of objects and archives alone.
    pub const PROGRAM: OutputKind = OutputKind {
        is_shared: false,
        is_dynamic: false,
    };
}

/// Returns `true` if a linker defines a name, apart from the bounds of sections.
pub(crate) fn is_linker_name(name: &[u8], output: OutputKind) -> bool
    ensures { result ≡ defines_name (output_of output) name.now }
{
    if name == DYNAMIC_NAME {
        return output.is_dynamic;
    }
    if name == TLS_CALL {
        return !output.is_shared;
    }
    is_always(name)
}

/// Returns `true` if a name is defined in every link.
fn is_always(name: &[u8]) -> bool
    ensures { result ≡ list_any (bytes_eq name.now) linker_names }
{
    is_one_of(name, &ALWAYS)
}

/// Returns `true` if a name is one of some.
fn is_one_of(name: &[u8], names: &[&str]) -> bool
    ensures { result ≡ list_any (λ n. bytes_eq name.now n.now) names.now }
{
    for known in names {
        if name == known.as_bytes() {
            return true;
        }
    }
    false
}

/// Returns the name of the section whose beginning or end a name is.
pub(crate) fn bounded_section(name: &[u8]) -> Option<&[u8]>
    ensures { MatchOption result (bounded_name name.now ≡ None)
        (λ section. bounded_name name.now ≡ Some section.now) }
{
    match name.strip_prefix(BEGINNING) {
        Some(section) => Some(section),
        None => name.strip_prefix(ENDING),
    }
}
