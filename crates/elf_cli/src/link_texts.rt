//! What the causes and the states in the lines of a link mean, as `explain` reads it.

/// What each cause of `resolve` alone means, in the order of the manual page.
pub(crate) const LINK_CAUSES: &str = "\
type
    The file is neither relocatable nor a shared library: e_type, at 10, is
    not 1 or 3. (gABI 4, ELF Header)
    What to do: give the linker objects, archives and shared libraries; this is
    a program, or a core file.

machine
    The file is not for x86-64: e_machine, at 12, is not 62. (gABI 4, ELF
    Header)
    What to do: take the build of it for this machine.

lto
    The file has intermediate code alone, and no symbols that count: its symbol
    table has __gnu_lto_slim. The offset is that of this symbol.
    What to do: compile it without -flto, or with -ffat-lto-objects.

script
    The file is neither an ELF file nor an archive, and no linker script of at
    most 4,096 bytes that only names inputs: GROUP, INPUT, AS_NEEDED,
    OUTPUT_FORMAT. The offset is 0.
    What to do: look at its first line; name the inputs of a longer script
    themselves.

no-index
    The archive has members, and no index of their symbols is the first of
    them. The offset is 8.
    What to do: make the index: ranlib ARCHIVE.

index-cut
    The archive's index is shorter than the number of its entries says, or a
    name in it has no end. The offset is 8.
    What to do: make the index again: ranlib ARCHIVE.

index-member
    An entry of the archive's index has an offset at which no member begins.
    The offset is that of the entry.
    What to do: make the index again: ranlib ARCHIVE.

too-many-keys
    There are more names of symbols than --keys allows, or they or the tables
    of one file have more bytes than --key-bytes. The offset is that of the
    symbol, the entry or the table.
    What to do: allow more: --keys, --key-bytes.

too-many-rows
    There are more files and members than --rows allows, or more entries of
    indexes, members of archives or further definitions than --index.
    What to do: allow more: --rows, --index.";

/// What each state of `resolve` alone means, by the lines that have it.
pub(crate) const LINK_STATES: &str = "\
unneeded
    Line I: the shared library comes after --as-needed, and no object needs a
    symbol of it other than weakly. It is no part of the link.

same
    Line I: a shared library of the same name is part of the link already.

defined
    Line G: the file of the second column defines the symbol.

weakdef
    Line G: the file of the second column defines the symbol, weakly.

common
    Line G: the symbol is a common, and the file of the second column has the
    largest one.

shared
    Line G: the shared library of the second column defines the symbol. Line I:
    the file is a shared library.

multiple
    Line G: the file of the second column defines the symbol, and counts; lines
    M have the other files that define it. A linker says: multiple definition.
    What to do: leave the others out, or make their symbols static or weak. The
    line W after a member says for which symbol it was taken.

order
    Line G: no file defines the symbol; what lines O name has it, and comes
    before the file that needs it. A linker says: undefined reference.
    What to do: put the archive after the files that need it, or both between
    --start-group and --end-group.

undef
    Line G: no file of the link defines the symbol, and the file of the third
    column needs it. A linker says: undefined reference.
    What to do: add the library that defines it: elfsee list --defined
    --name NAME finds it.

linker
    Line G: no file defines the symbol; the linker does.";
