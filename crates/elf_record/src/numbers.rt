//! The numbers that the standards name.

/// The object file type of no type (gABI 4, ELF Header).
pub const ET_NONE: u16 = 0;
/// The object file type of a relocatable file.
pub const ET_REL: u16 = 1;
/// The object file type of an executable file.
pub const ET_EXEC: u16 = 2;
/// The object file type of a shared object.
pub const ET_DYN: u16 = 3;
/// The object file type of a core file.
pub const ET_CORE: u16 = 4;

/// The section type of no section (gABI 4, Section Types).
pub const SHT_NULL: u32 = 0;
/// The section type of contents that the program defines.
pub const SHT_PROGBITS: u32 = 1;
/// The section type of a symbol table.
pub const SHT_SYMTAB: u32 = 2;
/// The section type of a string table.
pub const SHT_STRTAB: u32 = 3;
/// The section type of relocation entries with addends.
pub const SHT_RELA: u32 = 4;
/// The section type of a hash table of symbols.
pub const SHT_HASH: u32 = 5;
/// The section type of dynamic entries.
pub const SHT_DYNAMIC: u32 = 6;
/// The section type of notes.
pub const SHT_NOTE: u32 = 7;
/// The section type of bytes that the file does not hold.
pub const SHT_NOBITS: u32 = 8;
/// The section type of relocation entries without addends.
pub const SHT_REL: u32 = 9;
/// A section type that is reserved, and has no meaning.
pub const SHT_SHLIB: u32 = 10;
/// The section type of a symbol table for dynamic linking.
pub const SHT_DYNSYM: u32 = 11;
/// The section type of an array of initialization functions.
pub const SHT_INIT_ARRAY: u32 = 14;
/// The section type of an array of termination functions.
pub const SHT_FINI_ARRAY: u32 = 15;
/// The section type of an array of pre-initialization functions.
pub const SHT_PREINIT_ARRAY: u32 = 16;
/// The section type of a section group.
pub const SHT_GROUP: u32 = 17;
/// The section type of the section indexes of a symbol table that has too few bits for them.
pub const SHT_SYMTAB_SHNDX: u32 = 18;

/// The segment type of no segment (gABI 5, Segment Types).
pub const PT_NULL: u32 = 0;
/// The segment type of bytes that are loaded into memory.
pub const PT_LOAD: u32 = 1;
/// The segment type of dynamic entries.
pub const PT_DYNAMIC: u32 = 2;
/// The segment type of the path of an interpreter.
pub const PT_INTERP: u32 = 3;
/// The segment type of notes.
pub const PT_NOTE: u32 = 4;
/// A segment type that is reserved, and has no meaning.
pub const PT_SHLIB: u32 = 5;
/// The segment type of the program headers themselves.
pub const PT_PHDR: u32 = 6;
/// The segment type of thread-local storage.
pub const PT_TLS: u32 = 7;

/// The section index of what is in no section (gABI 4, Special Section Indexes).
pub const SHN_UNDEF: u16 = 0;
/// The first section index that names no section.
pub const SHN_LORESERVE: u16 = 0xff00;
/// The section index of a value that relocation does not change.
pub const SHN_ABS: u16 = 0xfff1;
/// The section index of a common symbol.
pub const SHN_COMMON: u16 = 0xfff2;
/// The section index that says that the index is stored elsewhere.
pub const SHN_XINDEX: u16 = 0xffff;
/// The number of program headers that says that it is stored in section 0 (gABI 4, ELF Header).
pub const PN_XNUM: u16 = 0xffff;

/// The binding of a symbol that only its own file sees (gABI 4, Symbol Binding).
pub const STB_LOCAL: u8 = 0;
/// The binding of a symbol that all files see.
pub const STB_GLOBAL: u8 = 1;
/// The binding of a symbol that a global one overrides.
pub const STB_WEAK: u8 = 2;

/// The symbol type of no type (gABI 4, Symbol Types).
pub const STT_NOTYPE: u8 = 0;
/// The symbol type of data.
pub const STT_OBJECT: u8 = 1;
/// The symbol type of a function.
pub const STT_FUNC: u8 = 2;
/// The symbol type of a section.
pub const STT_SECTION: u8 = 3;
/// The symbol type of a source file's name.
pub const STT_FILE: u8 = 4;
/// The symbol type of common data.
pub const STT_COMMON: u8 = 5;
/// The symbol type of thread-local data.
pub const STT_TLS: u8 = 6;
/// The first of the symbol types whose meaning is specific to the operating system or the
/// processor.
pub const STT_LOOS: u8 = 10;

/// The visibility that the binding determines (gABI 4, Symbol Visibility).
pub const STV_DEFAULT: u8 = 0;
/// The visibility that the processor's standard defines.
pub const STV_INTERNAL: u8 = 1;
/// The visibility within a component only.
pub const STV_HIDDEN: u8 = 2;
/// The visibility to all, but not preemptible.
pub const STV_PROTECTED: u8 = 3;

/// The dynamic array tag of the end of the dynamic entries (gABI 5, Dynamic Section).
pub const DT_NULL: u64 = 0;
/// The dynamic array tag of the name of a needed library.
pub const DT_NEEDED: u64 = 1;
/// The dynamic array tag of the size of the relocation entries of the procedure linkage table.
pub const DT_PLTRELSZ: u64 = 2;
/// The dynamic array tag of the address of the global offset table.
pub const DT_PLTGOT: u64 = 3;
/// The dynamic array tag of the address of the hash table.
pub const DT_HASH: u64 = 4;
/// The dynamic array tag of the address of the string table.
pub const DT_STRTAB: u64 = 5;
/// The dynamic array tag of the address of the symbol table.
pub const DT_SYMTAB: u64 = 6;
/// The dynamic array tag of the address of the relocation entries with addends.
pub const DT_RELA: u64 = 7;
/// The dynamic array tag of the size of the relocation entries with addends.
pub const DT_RELASZ: u64 = 8;
/// The dynamic array tag of the size of a relocation entry with an addend.
pub const DT_RELAENT: u64 = 9;
/// The dynamic array tag of the size of the string table.
pub const DT_STRSZ: u64 = 10;
/// The dynamic array tag of the size of a symbol.
pub const DT_SYMENT: u64 = 11;
/// The dynamic array tag of the address of the initialization function.
pub const DT_INIT: u64 = 12;
/// The dynamic array tag of the address of the termination function.
pub const DT_FINI: u64 = 13;
/// The dynamic array tag of the name of the shared object itself.
pub const DT_SONAME: u64 = 14;
/// The dynamic array tag of library search paths that are searched first.
pub const DT_RPATH: u64 = 15;
/// The dynamic array tag that says that symbols are searched in the object itself first.
pub const DT_SYMBOLIC: u64 = 16;
/// The dynamic array tag of the address of the relocation entries without addends.
pub const DT_REL: u64 = 17;
/// The dynamic array tag of the size of the relocation entries without addends.
pub const DT_RELSZ: u64 = 18;
/// The dynamic array tag of the size of a relocation entry without an addend.
pub const DT_RELENT: u64 = 19;
/// The dynamic array tag of the kind of the relocation entries of the procedure linkage table.
pub const DT_PLTREL: u64 = 20;
/// The dynamic array tag of what a debugger uses.
pub const DT_DEBUG: u64 = 21;
/// The dynamic array tag that says that text may be relocated.
pub const DT_TEXTREL: u64 = 22;
/// The dynamic array tag of the address of the relocation entries of the procedure linkage table.
pub const DT_JMPREL: u64 = 23;
/// The dynamic array tag that says that all relocations are applied before the program starts.
pub const DT_BIND_NOW: u64 = 24;
/// The dynamic array tag of the address of the initialization functions.
pub const DT_INIT_ARRAY: u64 = 25;
/// The dynamic array tag of the address of the termination functions.
pub const DT_FINI_ARRAY: u64 = 26;
/// The dynamic array tag of the size of the array of initialization functions.
pub const DT_INIT_ARRAYSZ: u64 = 27;
/// The dynamic array tag of the size of the array of termination functions.
pub const DT_FINI_ARRAYSZ: u64 = 28;
/// The dynamic array tag of library search paths.
pub const DT_RUNPATH: u64 = 29;
/// The dynamic array tag of flags of the object.
pub const DT_FLAGS: u64 = 30;

/// The machine of x86-64 (psABI, Machine Information).
pub const EM_X86_64: u16 = 62;
/// The machine of Alpha, as GNU files have it.
pub const EM_ALPHA: u16 = 0x9026;

/// Nothing is stored (psABI, Relocation Types).
pub const R_X86_64_NONE: u32 = 0;
/// Eight bytes.
pub const R_X86_64_64: u32 = 1;
/// Four bytes, relative to the place.
pub const R_X86_64_PC32: u32 = 2;
/// Four bytes, a call relative to the place.
pub const R_X86_64_PLT32: u32 = 4;
/// The symbol's bytes are copied when the program starts.
pub const R_X86_64_COPY: u32 = 5;
/// Eight bytes of the global offset table.
pub const R_X86_64_GLOB_DAT: u32 = 6;
/// Eight bytes of the procedure linkage table's part of it.
pub const R_X86_64_JUMP_SLOT: u32 = 7;
/// Eight bytes, relative to the base address.
pub const R_X86_64_RELATIVE: u32 = 8;
/// Four bytes, unsigned.
pub const R_X86_64_32: u32 = 10;
/// Four bytes, signed.
pub const R_X86_64_32S: u32 = 11;
/// Two bytes.
pub const R_X86_64_16: u32 = 12;
/// One byte.
pub const R_X86_64_8: u32 = 14;
/// Eight bytes, relative to the place.
pub const R_X86_64_PC64: u32 = 24;
