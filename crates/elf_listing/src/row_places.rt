//! Where the rows of a listing are: for each kind of row its record, and what it describes.
ghost use Rattle.std.specs.Prelude.{◌≡◌, ◌==◌, ◌%◌, ◌||◌, ◌+◌, ◌<◌, ◌≤◌, ℕ, List};
ghost use Rattle.elf_model.specs.Prelude.{bytes_to_alignment, descriptor_start, place_of_header, place_of_record, place_of_relocation, place_of_relr, place_of_section, place_of_segment, place_of_symbol, place_of_version};
ghost use Rattle.elf_model.specs.RowPlaces.{is_address, is_in_memory_type};
ghost use Rattle.elf_model.specs.Records.{e_type};
ghost use Rattle.elf_model.specs.Versions.{VisitedRecord, record_size};
ghost use Rattle.elf_note.specs.Prelude.{IsVersion};
ghost use Rattle.elf_listing.specs.Notes.{align_of};
ghost use Rattle.elf_record.specs.Phdr.{IsPhdr};
ghost use Rattle.elf_record.specs.Rel.{IsRel};
ghost use Rattle.elf_record.specs.Shdr.{IsShdr};
ghost use Rattle.elf_record.specs.Sym.{IsSym};

use elf_model::{PlaceRange, RowPlace};
use elf_note::VersionRecord;
use elf_record::gnu_numbers::PT_GNU_RELRO;
use elf_record::numbers::{
    PT_DYNAMIC, PT_LOAD, PT_NOTE, PT_TLS, SHN_ABS, SHN_LORESERVE, SHN_UNDEF, SHN_XINDEX,
    SHT_NOBITS, STT_FILE, STT_SECTION, STT_TLS,
};
use elf_record::sizes::{
    PROGRAM_HEADER_BYTES, REL_BYTES, RELOCATION_BYTES, RELR_BYTES, SECTION_HEADER_BYTES,
    SYMBOL_BYTES, VERSION_DEFINITION_BYTES, VERSION_NAME_BYTES, VERSION_NEED_BYTES,
};
use elf_record::{NoteHead, Phdr, Rel, SectionFlags, Shdr, Sym, VersionKind, is_linked_type};

/// The size of the file header in bytes (gABI 4, ELF Header).
const FILE_HEADER_BYTES: u64 = 64;

/// Returns the place of the file header.
pub(crate) fn place_of_header() -> RowPlace
    ensures { result ≡ place_of_header }
{
    RowPlace::record(0, FILE_HEADER_BYTES)
}

/// Returns the place of a section header at `at`: it describes the section's bytes, and in memory
/// those of a section that takes memory while a program runs.
pub(crate) fn place_of_section(at: u64, header: &Shdr) -> RowPlace
    ensures { (file : List ℕ) → IsShdr file at header.now → result ≡ place_of_section file at }
{
    let is_loaded = header.sh_flags & SectionFlags::ALLOC.0 == SectionFlags::ALLOC.0;
    RowPlace {
        entry: PlaceRange {
            start: at,
            size: SECTION_HEADER_BYTES,
        },
        bytes: PlaceRange::when(
            header.sh_type != SHT_NOBITS,
            header.sh_offset,
            header.sh_size,
        ),
        memory: PlaceRange::when(is_loaded, header.sh_addr, header.sh_size),
    }
}

/// Returns the place of a program header at `at`: it describes the segment's bytes, and in memory
/// those of some types.
pub(crate) fn place_of_segment(at: u64, header: &Phdr) -> RowPlace
    ensures { (file : List ℕ) → IsPhdr file at header.now → result ≡ place_of_segment file at }
{
    RowPlace {
        entry: PlaceRange {
            start: at,
            size: PROGRAM_HEADER_BYTES,
        },
        bytes: PlaceRange {
            start: header.p_offset,
            size: header.p_filesz,
        },
        memory: PlaceRange::when(is_in_memory(header.p_type), header.p_vaddr, header.p_memsz),
    }
}

/// Returns `true` if a segment of the given type describes memory.
fn is_in_memory(kind: u32) -> bool
    ensures { result ≡ is_in_memory_type kind }
{
    kind == PT_LOAD
        || kind == PT_DYNAMIC
        || kind == PT_NOTE
        || kind == PT_TLS
        || kind == PT_GNU_RELRO
}

/// Returns the place of a symbol at `at`: it describes its bytes in memory, or if it has no size
/// the byte at its address.
pub(crate) fn place_of_symbol(at: u64, symbol: &Sym) -> RowPlace
    ensures { (file : List ℕ) → IsSym file at symbol.now → result ≡ place_of_symbol file at }
{
    let size = if symbol.st_size == 0 {
        1
    } else {
        symbol.st_size
    };
    RowPlace {
        entry: PlaceRange {
            start: at,
            size: SYMBOL_BYTES,
        },
        bytes: PlaceRange::nowhere(),
        memory: PlaceRange::when(has_address(symbol), symbol.st_value, size),
    }
}

/// Returns `true` if the value of a symbol is an address.
fn has_address(symbol: &Sym) -> bool
    ensures { result ≡ is_address (symbol.now.st_info % 16) symbol.now.st_shndx }
{
    let kind = symbol.kind();
    let place = symbol.st_shndx;
    !(kind == STT_TLS || kind == STT_SECTION || kind == STT_FILE)
        && place != SHN_UNDEF
        && (place < SHN_LORESERVE || place == SHN_ABS || place == SHN_XINDEX)
}

/// Returns the place of a relocation entry at `at` in a file of the given type, with an addend or
/// without: in a program or a library it describes eight bytes of memory.
pub(crate) fn place_of_relocation(kind: u16, at: u64, has_addend: bool, entry: &Rel) -> RowPlace
    ensures { (file : List ℕ) → kind ≡ e_type file → IsRel file at entry.now →
        result ≡ place_of_relocation has_addend file at }
{
    let size = if has_addend {
        RELOCATION_BYTES
    } else {
        REL_BYTES
    };
    RowPlace {
        entry: PlaceRange { start: at, size },
        bytes: PlaceRange::nowhere(),
        memory: PlaceRange::when(is_linked_type(kind), entry.r_offset, 8),
    }
}

/// Returns the place of an address that the word of relative relocations at `at` gives, in a file
/// of the given type: in a program or a library it describes eight bytes of memory.
pub(crate) fn place_of_relr(kind: u16, at: u64, address: u64) -> RowPlace
    ensures { (file : List ℕ) → kind ≡ e_type file → result ≡ place_of_relr file at address }
{
    RowPlace {
        entry: PlaceRange {
            start: at,
            size: RELR_BYTES,
        },
        bytes: PlaceRange::nowhere(),
        memory: PlaceRange::when(is_linked_type(kind), address, 8),
    }
}

/// Returns the place of a record of definitions or needs: a definition also describes its first
/// name.
pub(crate) fn place_of_version(found: &VersionRecord) -> RowPlace
    ensures { (file : List ℕ) (met : VisitedRecord) → IsVersion file met found.now →
        result ≡ place_of_version file met }
{
    RowPlace {
        entry: PlaceRange {
            start: found.at,
            size: version_bytes(found.kind),
        },
        bytes: PlaceRange {
            start: found.named_at,
            size: VERSION_NAME_BYTES,
        },
        memory: PlaceRange::nowhere(),
    }
}

/// Returns the size of a record of definitions or needs.
fn version_bytes(kind: VersionKind) -> u64
    ensures { result ≡ record_size kind }
{
    match kind {
        VersionKind::Definition => VERSION_DEFINITION_BYTES,
        VersionKind::File | VersionKind::Need => VERSION_NEED_BYTES,
    }
}

/// Returns the place of a note at `at`, with its padding: to 8 bytes if `is_wide` is `true`,
/// otherwise to 4.
pub(crate) fn place_of_note(is_wide: bool, at: u64, head: &NoteHead) -> RowPlace
    ensures { let align = align_of is_wide in
        let size = descriptor_start align head.now.namesz head.now.descsz + head.now.descsz in
        result ≡ place_of_record at (size + bytes_to_alignment align size) }
{
    let align = if is_wide { 8 } else { 4 };
    let name_end = 12 + u64::from(head.namesz);
    let gap = if head.descsz == 0 {
        0
    } else {
        to_alignment(align, name_end)
    };
    let size = name_end + gap + u64::from(head.descsz);
    RowPlace::record(at, size + to_alignment(align, size))
}

/// Returns the number of bytes from `size` to the next multiple of an alignment.
fn to_alignment(align: u64, size: u64) -> u64
    requires { (0 < align) × (align ≤ 8) }
    ensures value { result ≡ bytes_to_alignment align size }
    ensures few { result < 8 }
{
    (align - size % align) % align
}
