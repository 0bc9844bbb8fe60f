//! The GNU numbers, and further numbers of the standards, that a listing names if asked to.

/// The section type of relative relocation entries (generic ABI, Section Types).
pub const SHT_RELR: u32 = 19;
/// The section type of GNU attributes.
pub const SHT_GNU_ATTRIBUTES: u32 = 0x6fff_fff5;
/// The section type of a GNU hash table.
pub const SHT_GNU_HASH: u32 = 0x6fff_fff6;
/// The section type of a list of prelinked libraries.
pub const SHT_GNU_LIBLIST: u32 = 0x6fff_fff7;
/// The section type of definitions of symbol versions.
pub const SHT_GNU_VERDEF: u32 = 0x6fff_fffd;
/// The section type of needed symbol versions.
pub const SHT_GNU_VERNEED: u32 = 0x6fff_fffe;
/// The section type of a symbol version table.
pub const SHT_GNU_VERSYM: u32 = 0x6fff_ffff;
/// The section type of unwind tables (x86-64 psABI, Section Types).
pub const SHT_X86_64_UNWIND: u32 = 0x7000_0001;

/// The section flag of what the linker must keep.
pub const SHF_GNU_RETAIN: u64 = 0x20_0000;
/// The section flag of memory of a special kind.
pub const SHF_GNU_MBIND: u64 = 0x100_0000;
/// The section flag of large sections (x86-64 psABI, Section Attribute Flags).
pub const SHF_X86_64_LARGE: u64 = 0x1000_0000;
/// The section flag of what the linker excludes from its output.
pub const SHF_EXCLUDE: u64 = 0x8000_0000;

/// The segment type of a frame table.
pub const PT_GNU_EH_FRAME: u32 = 0x6474_e550;
/// The segment type of the permissions of the stack.
pub const PT_GNU_STACK: u32 = 0x6474_e551;
/// The segment type of what is read-only after relocation.
pub const PT_GNU_RELRO: u32 = 0x6474_e552;
/// The segment type of properties.
pub const PT_GNU_PROPERTY: u32 = 0x6474_e553;
/// The segment type of stack traces.
pub const PT_GNU_SFRAME: u32 = 0x6474_e554;

/// The binding of a symbol that is unique in the whole process.
pub const STB_GNU_UNIQUE: u8 = 10;
/// The type of a symbol whose function computes the address to use.
pub const STT_GNU_IFUNC: u8 = 10;
/// The section index of a large common symbol (x86-64 psABI, Special Sections).
pub const SHN_X86_64_LCOMMON: u16 = 0xff02;

/// The relocation type of x86-64 for the offset of a symbol's entry in the global offset table
/// (x86-64 psABI, Relocation Types).
pub const R_X86_64_GOT32: u32 = 3;
/// The relocation type of x86-64 for the address of a symbol's entry in the global offset table,
/// from the place.
pub const R_X86_64_GOTPCREL: u32 = 9;
/// The relocation type of x86-64 for an address from the place, two bytes.
pub const R_X86_64_PC16: u32 = 13;
/// The relocation type of x86-64 for an address from the place, one byte.
pub const R_X86_64_PC8: u32 = 15;
/// The relocation type of x86-64 for the module of a thread-local symbol.
pub const R_X86_64_DTPMOD64: u32 = 16;
/// The relocation type of x86-64 for the offset of a symbol in its module's thread-local storage,
/// eight bytes.
pub const R_X86_64_DTPOFF64: u32 = 17;
/// The relocation type of x86-64 for the offset of a symbol from the thread pointer, eight bytes.
pub const R_X86_64_TPOFF64: u32 = 18;
/// The relocation type of x86-64 for the entry pair of a thread-local symbol.
pub const R_X86_64_TLSGD: u32 = 19;
/// The relocation type of x86-64 for the entry pair of this module's thread-local storage.
pub const R_X86_64_TLSLD: u32 = 20;
/// The relocation type of x86-64 for the offset of a symbol in its module's thread-local storage,
/// four bytes.
pub const R_X86_64_DTPOFF32: u32 = 21;
/// The relocation type of x86-64 for the entry with the offset of a symbol from the thread pointer.
pub const R_X86_64_GOTTPOFF: u32 = 22;
/// The relocation type of x86-64 for the offset of a symbol from the thread pointer, four bytes.
pub const R_X86_64_TPOFF32: u32 = 23;
/// The relocation type of x86-64 for an address from the global offset table.
pub const R_X86_64_GOTOFF64: u32 = 25;
/// The relocation type of x86-64 for the address of the global offset table, from the place.
pub const R_X86_64_GOTPC32: u32 = 26;
/// The relocation type of x86-64 for the offset of a symbol's entry, eight bytes.
pub const R_X86_64_GOT64: u32 = 27;
/// The relocation type of x86-64 for the address of a symbol's entry from the place, eight bytes.
pub const R_X86_64_GOTPCREL64: u32 = 28;
/// The relocation type of x86-64 for the address of the global offset table from the place, eight
/// bytes.
pub const R_X86_64_GOTPC64: u32 = 29;
/// The relocation type of x86-64 for the offset of an entry that a procedure linkage table uses.
pub const R_X86_64_GOTPLT64: u32 = 30;
/// The relocation type of x86-64 for the address of a procedure linkage table entry from the global
/// offset table.
pub const R_X86_64_PLTOFF64: u32 = 31;
/// The relocation type of x86-64 for the size of a symbol, four bytes.
pub const R_X86_64_SIZE32: u32 = 32;
/// The relocation type of x86-64 for the size of a symbol, eight bytes.
pub const R_X86_64_SIZE64: u32 = 33;
/// The relocation type of x86-64 for the address of a thread-local descriptor, from the place.
pub const R_X86_64_GOTPC32_TLSDESC: u32 = 34;
/// The relocation type of x86-64 for the call by a thread-local descriptor.
pub const R_X86_64_TLSDESC_CALL: u32 = 35;
/// The relocation type of x86-64 for a thread-local descriptor.
pub const R_X86_64_TLSDESC: u32 = 36;
/// The relocation type of x86-64 for the result of a function at a relative address.
pub const R_X86_64_IRELATIVE: u32 = 37;
/// The relocation type of x86-64 for a relative address, eight bytes.
pub const R_X86_64_RELATIVE64: u32 = 38;
/// The relocation type of x86-64 for an address from the place, after a BND prefix.
pub const R_X86_64_PC32_BND: u32 = 39;
/// The relocation type of x86-64 for a procedure linkage table entry from the place, after a BND
/// prefix.
pub const R_X86_64_PLT32_BND: u32 = 40;
/// The relocation type of x86-64 for the address of a symbol's entry from the place, which a linker
/// may relax.
pub const R_X86_64_GOTPCRELX: u32 = 41;
/// The relocation type of x86-64 for the same after a REX prefix.
pub const R_X86_64_REX_GOTPCRELX: u32 = 42;
/// The relocation type of x86-64 for a C++ virtual table that another inherits.
pub const R_X86_64_GNU_VTINHERIT: u32 = 250;
/// The relocation type of x86-64 for a C++ virtual table entry that is used.
pub const R_X86_64_GNU_VTENTRY: u32 = 251;

/// The tag of the pre-initialization functions (gABI 5, Dynamic Section).
pub const DT_PREINIT_ARRAY: u64 = 32;
/// The tag of the size of the array of these pointers.
pub const DT_PREINIT_ARRAYSZ: u64 = 33;
/// The tag of the section indexes of symbols.
pub const DT_SYMTAB_SHNDX: u64 = 34;
/// The tag of the size of the relative relocation entries.
pub const DT_RELRSZ: u64 = 35;
/// The tag of the relative relocation entries.
pub const DT_RELR: u64 = 36;
/// The tag of the size of one of them.
pub const DT_RELRENT: u64 = 37;
/// The tag of further GNU flags.
pub const DT_GNU_FLAGS_1: u64 = 0x6fff_fdf4;
/// The tag of the time at which the file was prelinked.
pub const DT_GNU_PRELINKED: u64 = 0x6fff_fdf5;
/// The tag of the size of the conflicts of a prelinked file.
pub const DT_GNU_CONFLICTSZ: u64 = 0x6fff_fdf6;
/// The tag of the size of the list of prelinked libraries.
pub const DT_GNU_LIBLISTSZ: u64 = 0x6fff_fdf7;
/// The tag of a checksum.
pub const DT_CHECKSUM: u64 = 0x6fff_fdf8;
/// The tag of the size of the padding of the procedure linkage table.
pub const DT_PLTPADSZ: u64 = 0x6fff_fdf9;
/// The tag of the size of an entry of the move table.
pub const DT_MOVEENT: u64 = 0x6fff_fdfa;
/// The tag of the size of the move table.
pub const DT_MOVESZ: u64 = 0x6fff_fdfb;
/// The tag of features.
pub const DT_FEATURE: u64 = 0x6fff_fdfc;
/// The tag of flags of the next entry.
pub const DT_POSFLAG_1: u64 = 0x6fff_fdfd;
/// The tag of the size of the symbol information table.
pub const DT_SYMINSZ: u64 = 0x6fff_fdfe;
/// The tag of the size of an entry of it.
pub const DT_SYMINENT: u64 = 0x6fff_fdff;
/// The tag of the GNU hash table.
pub const DT_GNU_HASH: u64 = 0x6fff_fef5;
/// The tag of the procedure linkage table entry of thread-local descriptors.
pub const DT_TLSDESC_PLT: u64 = 0x6fff_fef6;
/// The tag of the global offset table entry of thread-local descriptors.
pub const DT_TLSDESC_GOT: u64 = 0x6fff_fef7;
/// The tag of the conflicts of a prelinked file.
pub const DT_GNU_CONFLICT: u64 = 0x6fff_fef8;
/// The tag of the list of prelinked libraries.
pub const DT_GNU_LIBLIST: u64 = 0x6fff_fef9;
/// The tag of a configuration file.
pub const DT_CONFIG: u64 = 0x6fff_fefa;
/// The tag of the auditors of the libraries that this file needs.
pub const DT_DEPAUDIT: u64 = 0x6fff_fefb;
/// The tag of the auditors of this file.
pub const DT_AUDIT: u64 = 0x6fff_fefc;
/// The tag of the padding of the procedure linkage table.
pub const DT_PLTPAD: u64 = 0x6fff_fefd;
/// The tag of the move table.
pub const DT_MOVETAB: u64 = 0x6fff_fefe;
/// The tag of the symbol information table.
pub const DT_SYMINFO: u64 = 0x6fff_feff;
/// The tag of the symbol version table.
pub const DT_VERSYM: u64 = 0x6fff_fff0;
/// The tag of the number of relative entries with addends.
pub const DT_RELACOUNT: u64 = 0x6fff_fff9;
/// The tag of the number of relative entries without addends.
pub const DT_RELCOUNT: u64 = 0x6fff_fffa;
/// The tag of further flags.
pub const DT_FLAGS_1: u64 = 0x6fff_fffb;
/// The tag of the definitions of symbol versions.
pub const DT_VERDEF: u64 = 0x6fff_fffc;
/// The tag of the number of definitions.
pub const DT_VERDEFNUM: u64 = 0x6fff_fffd;
/// The tag of the needed symbol versions.
pub const DT_VERNEED: u64 = 0x6fff_fffe;
/// The tag of the number of files whose versions are needed.
pub const DT_VERNEEDNUM: u64 = 0x6fff_ffff;
/// The tag of a library that is searched before this one.
pub const DT_AUXILIARY: u64 = 0x7fff_fffd;
/// The tag of a library that is used.
pub const DT_USED: u64 = 0x7fff_fffe;
/// The tag of a library that this one is a filter for.
pub const DT_FILTER: u64 = 0x7fff_ffff;
