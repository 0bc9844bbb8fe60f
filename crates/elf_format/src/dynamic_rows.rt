//! The lines of dynamic entries.
ghost use Rattle.std.specs.Prelude.{◌≡◌, ◌≤◌, ℕ, List, length, IfSome, option_copied};
ghost use Rattle.elf_model.specs.Prelude.{dynamic_prefix, dynamic_tags, name_of};
ghost use Rattle.elf_record.specs.Dyn.{IsDyn};
ghost use Rattle.elf_format.specs.Fronts.{front_of};

use crate::fields::{LinePrefix, begin_named, put_decimal, put_hex_field, put_name_or_hex};
use crate::name_tables::name_in_either_table;
use crate::render::Render;
use elf_record::Dyn;
use elf_record::gnu_numbers::{
    DT_AUDIT, DT_AUXILIARY, DT_CHECKSUM, DT_CONFIG, DT_DEPAUDIT, DT_FEATURE, DT_FILTER, DT_FLAGS_1,
    DT_GNU_CONFLICT, DT_GNU_CONFLICTSZ, DT_GNU_FLAGS_1, DT_GNU_HASH, DT_GNU_LIBLIST,
    DT_GNU_LIBLISTSZ, DT_GNU_PRELINKED, DT_MOVEENT, DT_MOVESZ, DT_MOVETAB, DT_PLTPAD, DT_PLTPADSZ,
    DT_POSFLAG_1, DT_PREINIT_ARRAY, DT_PREINIT_ARRAYSZ, DT_RELACOUNT, DT_RELCOUNT, DT_RELR,
    DT_RELRENT, DT_RELRSZ, DT_SYMINENT, DT_SYMINFO, DT_SYMINSZ, DT_SYMTAB_SHNDX, DT_TLSDESC_GOT,
    DT_TLSDESC_PLT, DT_USED, DT_VERDEF, DT_VERDEFNUM, DT_VERNEED, DT_VERNEEDNUM, DT_VERSYM,
};
use elf_record::numbers::{
    DT_BIND_NOW, DT_DEBUG, DT_FINI, DT_FINI_ARRAY, DT_FINI_ARRAYSZ, DT_FLAGS, DT_HASH, DT_INIT,
    DT_INIT_ARRAY, DT_INIT_ARRAYSZ, DT_JMPREL, DT_NEEDED, DT_NULL, DT_PLTGOT, DT_PLTREL,
    DT_PLTRELSZ, DT_REL, DT_RELA, DT_RELAENT, DT_RELASZ, DT_RELENT, DT_RELSZ, DT_RPATH, DT_RUNPATH,
    DT_SONAME, DT_STRSZ, DT_STRTAB, DT_SYMBOLIC, DT_SYMENT, DT_SYMTAB, DT_TEXTREL,
};

/// Fills the prefix with the `D` line of a dynamic entry up to the name: its index in its table,
/// tag and value (gABI 5, Dynamic Section); `gnu` says whether GNU tags have names.
pub fn dynamic_prefix<R: Render>(front: &mut LinePrefix, index: u64, entry: &Dyn, gnu: bool)
    // A tag is read as a signed number, and shown as its bits.
    ensures front { (file : List ℕ) (at : ℕ) → IsDyn file at entry.now →
        front_of front.new ≡ dynamic_prefix R.FORMAT gnu file at index }
    ensures key { length front.new.key.now ≤ 16 }
{
    let tag = entry.d_tag.cast_unsigned();
    begin_named::<R>(front, b"D", b"string");
    let line = &mut front.line;
    put_decimal::<R>(line, b"index", 5, index, b' ');
    put_name_or_hex::<R>(line, b"tag", 16, 16, tag_name(tag, gnu), tag);
    put_hex_field::<R>(line, b"value", 16, 12, entry.d_un, b' ');
}

/// Returns the name of a dynamic array tag.
fn tag_name(tag: u64, gnu: bool) -> Option<&'static str>
    ensures name { option_copied result ≡ name_of (dynamic_tags gnu) tag }
    ensures short { IfSome result (λ name. length name.now ≤ 16) }
{
    name_in_either_table(&STANDARD_TAGS, gnu, &GNU_TAGS, tag)
}

/// The tags of the standard (gABI 5, Dynamic Section).
const STANDARD_TAGS: [(u64, &str); 31] = [
    (DT_NULL, "NULL"),
    (DT_NEEDED, "NEEDED"),
    (DT_PLTRELSZ, "PLTRELSZ"),
    (DT_PLTGOT, "PLTGOT"),
    (DT_HASH, "HASH"),
    (DT_STRTAB, "STRTAB"),
    (DT_SYMTAB, "SYMTAB"),
    (DT_RELA, "RELA"),
    (DT_RELASZ, "RELASZ"),
    (DT_RELAENT, "RELAENT"),
    (DT_STRSZ, "STRSZ"),
    (DT_SYMENT, "SYMENT"),
    (DT_INIT, "INIT"),
    (DT_FINI, "FINI"),
    (DT_SONAME, "SONAME"),
    (DT_RPATH, "RPATH"),
    (DT_SYMBOLIC, "SYMBOLIC"),
    (DT_REL, "REL"),
    (DT_RELSZ, "RELSZ"),
    (DT_RELENT, "RELENT"),
    (DT_PLTREL, "PLTREL"),
    (DT_DEBUG, "DEBUG"),
    (DT_TEXTREL, "TEXTREL"),
    (DT_JMPREL, "JMPREL"),
    (DT_BIND_NOW, "BIND_NOW"),
    (DT_INIT_ARRAY, "INIT_ARRAY"),
    (DT_FINI_ARRAY, "FINI_ARRAY"),
    (DT_INIT_ARRAYSZ, "INIT_ARRAYSZ"),
    (DT_FINI_ARRAYSZ, "FINI_ARRAYSZ"),
    (DT_RUNPATH, "RUNPATH"),
    (DT_FLAGS, "FLAGS"),
];

/// The tags that later versions of the standard added, and GNU tags.
const GNU_TAGS: [(u64, &str); 40] = [
    (DT_PREINIT_ARRAY, "PREINIT_ARRAY"),
    (DT_PREINIT_ARRAYSZ, "PREINIT_ARRAYSZ"),
    (DT_SYMTAB_SHNDX, "SYMTAB_SHNDX"),
    (DT_RELRSZ, "RELRSZ"),
    (DT_RELR, "RELR"),
    (DT_RELRENT, "RELRENT"),
    (DT_GNU_FLAGS_1, "GNU_FLAGS_1"),
    (DT_GNU_PRELINKED, "GNU_PRELINKED"),
    (DT_GNU_CONFLICTSZ, "GNU_CONFLICTSZ"),
    (DT_GNU_LIBLISTSZ, "GNU_LIBLISTSZ"),
    (DT_CHECKSUM, "CHECKSUM"),
    (DT_PLTPADSZ, "PLTPADSZ"),
    (DT_MOVEENT, "MOVEENT"),
    (DT_MOVESZ, "MOVESZ"),
    (DT_FEATURE, "FEATURE"),
    (DT_POSFLAG_1, "POSFLAG_1"),
    (DT_SYMINSZ, "SYMINSZ"),
    (DT_SYMINENT, "SYMINENT"),
    (DT_GNU_HASH, "GNU_HASH"),
    (DT_TLSDESC_PLT, "TLSDESC_PLT"),
    (DT_TLSDESC_GOT, "TLSDESC_GOT"),
    (DT_GNU_CONFLICT, "GNU_CONFLICT"),
    (DT_GNU_LIBLIST, "GNU_LIBLIST"),
    (DT_CONFIG, "CONFIG"),
    (DT_DEPAUDIT, "DEPAUDIT"),
    (DT_AUDIT, "AUDIT"),
    (DT_PLTPAD, "PLTPAD"),
    (DT_MOVETAB, "MOVETAB"),
    (DT_SYMINFO, "SYMINFO"),
    (DT_VERSYM, "VERSYM"),
    (DT_RELACOUNT, "RELACOUNT"),
    (DT_RELCOUNT, "RELCOUNT"),
    (DT_FLAGS_1, "FLAGS_1"),
    (DT_VERDEF, "VERDEF"),
    (DT_VERDEFNUM, "VERDEFNUM"),
    (DT_VERNEED, "VERNEED"),
    (DT_VERNEEDNUM, "VERNEEDNUM"),
    (DT_AUXILIARY, "AUXILIARY"),
    (DT_USED, "USED"),
    (DT_FILTER, "FILTER"),
];
