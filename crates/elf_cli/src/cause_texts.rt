//! What the causes of refusals mean, as `explain` reads it.

/// What each cause means, in the order of the manual page.
pub(crate) const CAUSES: &str = "\
short
    The file is shorter than a file header, 64 bytes. The offset is its size.
    (gABI 4, ELF Header)
    What to do: the file was cut, or is no program: copy or build it again.

too-long
    The file has 2^63 bytes or more. The offset is its size. This limit is
    elfsee's own.
    What to do: no loader takes such a file: look at what it is.

not-elf
    The first four bytes are not 7f 45 4c 46: e_ident[EI_MAG0] to
    e_ident[EI_MAG3], at 0. (gABI 4, ELF Identification)
    What to do: it may be a script, an archive (elfsee archive) or a linker
    script: look at its first line.

class
    The file is not a 64-bit file: e_ident[EI_CLASS], at 4, is not 2. (gABI 4,
    ELF Identification)
    What to do: it is a 32-bit file: take the 64-bit build of it.

data
    The file is not little-endian: e_ident[EI_DATA], at 5, is not 1. (gABI 4,
    ELF Identification)
    What to do: it is for a big-endian machine: take the build for this
    machine.

version
    e_ident[EI_VERSION], at 6, is not 1. Or a record of symbol versions has
    another layout than that of 1: vd_version or vn_version, its first two
    bytes; the offset is then that of the record, and only listings and
    lookups with --gnu check this. (gABI 4, ELF Identification)
    What to do: the identification is damaged, or the file is no ELF file of
    today: build it again. At a record of versions the file was changed by a
    tool that knows no versions: link it again.

extended-numbering
    A count or an index is too large for the file header and is stored in
    section 0, which is not read: e_phnum, at 38, or e_shstrndx, at 3e, is
    0xffff, or e_shnum, at 3c, is 0 and e_shoff is not. (gABI 4, ELF Header)
    What to do: the file has more sections than a header can count: build it
    in more parts, or without -ffunction-sections.

too-many-headers
    e_shnum, at 3c, or e_phnum, at 38, is more than --headers allows. (gABI 4,
    ELF Header)
    What to do: allow more: --headers 65279.

entry-size
    The entries of a table have another size than the standard's. At 3a:
    e_shentsize is not 64. At 36: e_phentsize is not 56. Otherwise sh_entsize
    is not 24, in a table of dynamic entries not 16. (gABI 4, ELF Header,
    Sections)
    What to do: another tool wrote this header, or it is damaged: link the
    file again.

size-not-whole
    The size of a table, sh_size or p_filesz, is not a multiple of the size of
    its entries. (gABI 4, Sections; gABI 5, Dynamic Section)
    What to do: the table is damaged or was cut: link the file again.

table-outside
    A table, or the section to be written, extends past the end of the file.
    At 28: the section headers, e_shoff and e_shnum. At 20: the program
    headers, e_phoff and e_phnum. Otherwise sh_offset and sh_size, or p_offset
    and p_filesz. (gABI 4, ELF Header, Sections; gABI 5, Program Header)
    What to do: the file was cut, or its header is damaged: compare its size
    with that of the original. Separated debug files name tables that only the
    original has.

bad-link
    A section index names no section, or none of the type that is needed. At
    3e: e_shstrndx. At a section header: its sh_link. At a relocation entry:
    it names a symbol, and the sh_link of its section names no symbol table.
    For apply and bytes, at 3c, where e_shnum is: SECTION is 0, or there is no
    such section. For bytes --segment, at 38, where e_phnum is: there is no
    such program header. (gABI 4, Sections)
    What to do: sections were removed or moved by another tool: strip or
    objcopy the original again. For apply and bytes, take an index that elfsee
    show --only sections prints.

not-strings
    A section that another one needs as its string table is of another type.
    The offset is that of the section that should be one: look at its sh_type,
    and at what refers to it. (gABI 4, String Table)
    What to do: sections were removed or moved by another tool: strip or
    objcopy the original again.

load-overlap
    With --by-segments, and in a lookup with --gnu of a file without section
    headers, a program header of type LOAD begins on a page of the previous
    one of that type, or below it. Pages have 4,096 bytes, and one whose
    p_memsz is 0 is not counted. A loader maps them in their order, and a
    later one covers an earlier one: what is listed would not be what is
    loaded. (gABI 5, Program Header, Program Loading)
    What to do: the file is no program for this system (a kernel's image has
    such segments), or is hostile: do not load it.

relr
    With --gnu, a word of a section of type RELR is a bitmap, and no address
    precedes it; or the eight bytes at one of its addresses end past 2^64. The
    offset is that of the word. (gABI 4, Relative Relocation Table)
    What to do: the section was cut or overwritten: link the file again.

name-outside
    A name begins after the end of its string table: sh_name, st_name or, in a
    dynamic entry, d_un. If the name is a relocation entry's, the offset is
    that of its symbol. (gABI 4, String Table)
    What to do: the string table was cut or exchanged: take the original, or
    strip it again.

name-unended
    A name does not end before the end of its string table, as the table's
    last byte is not zero. The fields are those of name-outside. (gABI 4,
    String Table)
    What to do: the string table was cut: take the original, or strip it
    again.

symbol-index
    A relocation entry names a symbol that its symbol table does not have: the
    upper half of r_info. In a file for MIPS64 the file may be correct: its
    r_info has another layout, and is read by that of the gABI. (gABI 4,
    Relocation)
    What to do: the symbol table was cut after the relocations were written:
    build the object again.

note-cut
    A table of notes ends within a note: its namesz or its descsz is too
    large, or there are bytes after the last note. (gABI 5, Note Section)
    What to do: a tool wrote a note of the wrong size: elfsee show --only
    notes prints those before it.

unmapped
    In a file without section headers, or with --by-segments, a dynamic entry
    has a string, but there is no string table: there is no entry of type
    STRTAB or STRSZ, or what they name is in no program header of type LOAD.
    The same holds for the symbols and relocation entries that dynamic entries
    locate, and in a lookup with --gnu by the program headers, if no program
    header of type LOAD contains one of its tables. (gABI 5, Dynamic Section,
    Program Loading)
    What to do: the dynamic table names an address that is not in the file:
    the file was cut, or is packed.

thin
    The file is a thin archive: the bytes of its members are in other files.
    The offset is 0.
    What to do: list the files that it names; or make an archive with ar
    without T.

not-archive
    The file does not begin with !<arch> and a newline. The offset is 0.
    What to do: the file is no archive: elfsee show reads an ELF file.

member-cut
    There is no member at the offset: its header of 60 bytes does not end in
    its mark, its size is no decimal number, the header or the data extend
    past the end of the file, or the name at the beginning of the data extends
    past their end.
    What to do: the archive was cut, or was changed as text: build it again.

version-cut
    A record of symbol versions leads to a place where none is: the table ends
    there, or as many records were read as fit in it. The offset is that of
    the record that leads there, or of what describes the table; or that of a
    definition whose name is not in the table.
    What to do: the table of versions was cut by another tool: link the file
    again.

version-index
    The number of a symbol version is 1,024 or more, or no record names it.
    The offset is that of the record, or of the symbol's entry.
    What to do: the table of versions does not match the symbols: link the
    file again.

no-hash
    No section is of type HASH, nor with --gnu of type GNU_HASH. The offset is
    that of e_shoff, 28. With --gnu a file without section headers, or any
    with --by-segments, has no dynamic entry of either type, and the offset is
    that of e_phoff, 20. (gABI 5, Hash Table)
    What to do: only shared libraries and programs that use them have one.
    List all symbols: elfsee show --only symbols.

hash-shape
    The table has no buckets, or its sh_size has no room for its two counts,
    or for as many words as nbucket and nchain say. Or it is of type HASH in a
    file for Alpha, machine 0x9026, and its words have 8 bytes: its sh_entsize
    is 8, or it is found by a dynamic entry, which gives no size. A GNU hash
    table also has four counts and a filter: the number of the filter's words
    is not a power of two, or its shift is 32 or more. The offset is that of
    its section header, or of its dynamic entry. (gABI 5, Hash Table)
    What to do: no loader can look up a name in it: link the file again.

hash-index
    A word of the table is not the index of a chain and a symbol, or in a GNU
    hash table leads to none. The offset is that of the word. (gABI 5, Hash
    Table)
    What to do: no loader can look up names in it safely: link the file again.

hash-cycle
    A chain loops. The offset is that of the bucket in which it begins. (gABI
    5, Hash Table)
    What to do: a loader would not end here: link the file again.

not-rel
    The file is not relocatable: e_type, at 10, is not 1; or it is not for
    x86-64: e_machine, at 12, is not 62. (gABI 4, ELF Header)
    What to do: apply takes an object file for x86-64 that the compiler wrote
    (.o), not a program or a library.

unsupported
    The type of the entry, the lower half of r_info, is not supported.
    Supported are NONE, 64, PC32, PLT32, 32, 32S, 16, 8 and PC64; if an item
    got: has the name of the entry's symbol, also GOTPCREL, GOTPCRELX and
    REX_GOTPCRELX; and if an item tpgot: has it, GOTTPOFF. (psABI 4,
    Relocation Types) Or the entry takes the address of a symbol that the file
    defines, and whose type, the lower half of st_info, is from 10 to 15: no
    plt: item has the name of an indirect function, type 10, and the meaning
    of the others is specific to an operating system or a processor. (gABI 4,
    Symbol Types) Or, at its header, the section is compressed: its sh_flags
    have 800, and entries refer to the bytes before compression. (gABI 4,
    Section Compression)
    What to do: link it with ld; or, for a compressed section, decompress it
    with objcopy --decompress-debug-sections.

place-outside
    The bytes that the entry stores are not in the section: r_offset is too
    large. (gABI 4, Relocation)
    What to do: the object is damaged: build it again.

undefined
    The symbol of the entry is undefined or common, and no item def: has its
    name: st_shndx of the symbol. (gABI 4, Symbol Table)
    What to do: give its address: an item def:NAME=ADDR. --explain prints
    which.

unplaced
    No item at: has the section of the symbol, or, for a type that is relative
    to its place, SECTION itself; or st_shndx of the symbol is not that of a
    section. (gABI 4, Symbol Table)
    What to do: give the section's address: an item at:INDEX=ADDR. --explain
    prints which.

overflow
    The value does not fit the type: the given addresses are too far from each
    other, or too large. (psABI 4, Relocation Types)
    What to do: place the sections within 2 GiB of each other; or build with
    -mcmodel=large, or with -fPIC and a got: or plt: item. ld says: relocation
    truncated to fit.

not-image
    The file is no program and no shared library: e_type, at 10, is neither 2
    nor 3; or it is not for x86-64: e_machine, at 12, is not 62. (gABI 4, ELF
    Header)
    What to do: link it: image takes what a loader loads. For an object file
    (.o) use apply.

load-align
    A program header of type LOAD has a p_vaddr and a p_offset that do not
    differ by a multiple of 4,096: no page of the file is at the address of a
    page. The offset is that of the program header. (gABI 5, Program Loading)
    What to do: the headers are damaged, or the file is for another system:
    link it again.

repeat
    A dynamic entry has the tag of one before it, and relocations depend on
    it. Loaders differ in which of the two they use. The offset is that of the
    second. (gABI 5, Dynamic Section)
    What to do: a tool added an entry twice, or the file is hostile: link it
    again.

table-written
    The relocation would change a segment that has relocations or symbols, or
    the dynamic entries: what a loader reads next could be another. The offset
    is that of the entry, or of the word of a table of relative relocations.
    (gABI 5, Dynamic Section)
    What to do: such a file is hostile, or was made to be loaded in another
    way: do not load it.

budget
    --max-read leaves too few bytes for the next read, at this offset; or for
    writing a section, and the offset is that of the section. It says nothing
    about the file.
    What to do: allow more: --max-read, or leave it out.

too-many-objects
    More than 512 objects are needed. The offset is that of the dynamic entry
    that needs one more.
    What to do: the file is hostile, or a library needs itself under ever new
    names.

too-many-paths
    More paths would be tried than --max-tries allows, 100,000 if it is not
    given. The offset is that of the dynamic entry of the library that is
    searched for.
    What to do: allow more with --max-tries, or look at the directories of
    RPATH and RUNPATH.";
