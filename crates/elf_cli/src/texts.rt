//! The texts of help, of the program and of each command, in at most 80 columns.

use crate::command_args::CommandName;

pub(crate) const ABOUT: &str = "\
Lists ELF64 files, looks up names in them, and applies their relocations.
It terminates for any input, within its limits of memory and reads.";

pub(crate) const MORE: &str = "\
Examples:
  elfsee show -to sections,segments /bin/ls
  elfsee needs /bin/ls
  elfsee check /usr/lib
  elfsee traits --require relro=full,stack=nx /usr/bin

'elfsee help COMMAND' prints the options of a command, and the columns of its
lines. Each line begins with a letter; a table (-t) has the names of columns.

Exit status:
  0  all was listed, found or applied, and nothing is wrong with any file
  1  a file is refused, or a name, a word, a library or a symbol is missing
  2  the arguments are invalid, or help was requested
  3  a file cannot be opened or read, or the output cannot be written
The man page, elfsee(1), has each message.";

pub(crate) const ITEMS: &str = "\
Items, as arguments at most 64 sections and 32 of each other type:
  at:INDEX=ADDR    the address of section INDEX, 1 to 65279
  def:NAME=ADDR    the address of an undefined or common symbol
  plt:NAME=ADDR    that of a symbol's entry in the procedure linkage table
  got:NAME=ADDR    that of a symbol's entry in the global offset table
  tpgot:NAME=ADDR  that of the entry there of a symbol's offset from the thread
                   pointer
No two items of one type may have the same INDEX or NAME. NAME has 1 to 255
bytes, and an item is split at its last '='. ADDR is 0x and 1 to 16 hexadecimal
digits.

Example: elfsee apply example.o 1 at:1=0x401000 def:main=0x401200

Output: the section's bytes, or a line
  !  place cause";

pub(crate) const COPIED: &str = "\
The bytes are those that the section or the segment has in the file: a
compressed section stays compressed, and one of the type NOBITS or NULL has
none. SECTION is an index, or a name that begins with a dot or a letter: then
it is the first section of that name. If there is none, the status is 1.

Examples:
  elfsee bytes /lib/libexample.so .comment
  elfsee bytes --segment 2 /lib/libexample.so

Output: the bytes, or a line
  !  place cause";

pub(crate) const IMAGED: &str = "\
The segment's bytes in memory, after a loader has relocated the file:
  base=ADDR          the load address: what is added to each address of the file
  sym:INDEX=ADDR     the address that dynamic symbol INDEX is bound to
  call:INDEX=ADDR    that for calls, if it is another one
  mod:INDEX=N        the module id of the object that it is bound in
  dtp:INDEX=N        its value in that object
  tp:INDEX=N         its offset from the thread pointer
  ires:ADDR=VALUE    the answer of the resolver at ADDR of the file
  copy:INDEX=HEX     the bytes of an object that the program copies
  desc=ADDR          the first word of a static TLS descriptor
With INDEX 0 mod: and tp: are of the file itself. ADDR and VALUE are 0x and 1 to
16 hexadecimal digits, N the same or a decimal number.

An entry that lacks an item is refused, or with --leave changes nothing. With
--missing or --leave an item is also lacking for a symbol that is weak or that
the file defines, since another object may define it.

Examples:
  elfsee image libexample.so 2 base=0x7f0000000000 sym:1=0x7f0000400010
  elfsee image --missing libexample.so base=0x7f0000000000

Output: the segment's bytes, or a line
  !  place cause
With --missing:
  M  place address type symbol cause";

pub(crate) const FOUND: &str = "\
The answer is the first match in the file's SysV hash chain; a loader may
choose differently.

With --gnu it is the symbol that glibc's dynamic loader picks in this file,
except in the cases that elfsee(1) lists: from the GNU hash table or, if there
is none, from the SysV one. NAME may then have a version: NAME@VERSION, or
NAME@@VERSION if it must be the default one. If there is also --by-segments,
the tables are found by the program headers, whatever the section headers are.

Examples:
  elfsee find /lib/libexample.so printf
  elfsee find --gnu /lib/libexample.so printf@GLIBC_2.2.5

Columns:
  Y  table index value size type binding visibility place name
  X  table index number hidden name
  F  answer steps";

pub(crate) const CHECKED: &str = "\
Prints one line for each file: C, its state, where it is malformed and why, and
its path.
  ok       'show' with these options exits with status 0
  refused  it exits with status 1; an offset in the file and the cause follow
           the state
  no-elf   it does not begin with the magic number. Archives are no-elf too;
           with --members one is ok, or refused for the first fault of its own
           or of its members' listings, at its offset in the archive
  unread   it cannot be opened or read, or is more than 64 directories deep
  memory   there was no memory for it
If a PATH is a directory, all files in it are checked, in the order of their
names; symbolic links in it are not followed. If some names are not UTF-8 or
too long, a last line 'C unnamed' counts them.

Exit status: 0 if all files are ok or no-elf, 1 if some are refused, 3 if some
are unread, memory or unnamed.

Examples:
  elfsee check --only header /usr/lib
  find /opt -name '*.so' -print0 | elfsee check --files0-from -

Columns:
  C  state place cause path";

pub(crate) const SHOWN: &str = "\
With --name or --name-list only the symbols are listed, or the parts given with
--only: symbols, relocs, or with --gnu versions. Of them, only the rows with
one of the names are shown. Neither allows --names: as many bytes of a name are
compared as the longest NAME has. With --versions, NAME matches each version of
the name, NAME@VERSION that version, and NAME@@VERSION that version if it is
the default one.

With --defined, --undefined or --dynamic only the symbols are listed, or the
parts given with --only; of other parts all rows are shown. --defined cannot be
used with --undefined.

--at PLACE shows only the rows at this byte of the file, --address ADDR only
those of this address in memory; both numbers are decimal, or hexadecimal after
0x. --at with the offset of a line ! shows what contains the malformed row.

Examples:
  elfsee show --only symbols /bin/ls
  elfsee show --undefined /bin/ls
  elfsee show --only sections,symbols --address 0x4000 /bin/ls
  elfsee show --table --only sections,segments /bin/ls
  elfsee show --name main --name printf /bin/ls
  elfsee show --gnu --versions --name memcpy@@GLIBC_2.14 /lib64/libc.so.6

Columns:
  H  type machine entry phoff shoff flags phnum shnum shstrndx
  S  index type flags address offset size link info name
  P  index type permissions offset vaddr paddr filesz memsz align
  Y  table index value size type binding visibility place name
  R  table offset type symbol addend name
  N  index type namesz descsz name descriptor
  D  index tag value string
  V  index kind number flags hash name
  X  table index number hidden name
  !  place cause";

pub(crate) const SAMPLED: &str = "\
Example: elfsee sample --only header

Columns: those of 'elfsee help show'.";

pub(crate) const LISTED: &str = "\
Prints for each ELF file a line @ with its path, followed by what 'show' prints
for it with these options; with --members also for each archive, followed by
what 'archive' prints. Nothing is printed for other files, except a line C for
one that is unread or without memory. Files and directories are read as by
'check'.

Exit status: 0 if all files are listed, 1 if some are refused, 3 if some are
unread, memory or unnamed.

Examples:
  elfsee list --only dynamic /usr/bin
  elfsee list --only symbols --members /usr/lib/x86_64-linux-gnu

Columns: those of 'elfsee help show', and
  @  path
  A  index offset size name
  C  state place cause path";

pub(crate) const HARDENED: &str = "\
Prints one line for each ELF file: T, its kind, eight traits, and its path. The
traits are those that a loader sees, in the program headers and the dynamic
entries.
  kind     exec, pie, static, lib, object, core or other
  relro    full, partial or none: what is read-only after relocation
  stack    nx or exec: whether the stack is executable; - for a core
  pages    w^x or wx: whether a segment is writable and executable
  text     fixed or patch: whether relocations change a segment that is not
           writable
  cet      ibt, shstk, ibt+shstk or -: the control-flow checks that it supports
  canary   canary or -: whether it has a stack guard
  fortify  fortify or -: whether it has checked calls of the C library
  path     rpath, runpath or -: where libraries are searched for first
A file without program headers also has - for relro, stack, pages and text.
Files and directories are read as by 'check'. Nothing is printed for other
files, except a line C for one that is refused, unread or without memory.

With --require WORDS, as in relro=full,stack=nx, a file of kind exec, pie,
static or lib that lacks words has a line for each of them: !, the column, =
and the word that the file has there. With 'kind=pie|lib' it may have either.
The column of the path may be named rpath too.

Exit status: 0 if no file is refused or lacks a word, 1 if some are or do, 3 if
some are unread, memory or unnamed.

Examples:
  elfsee traits /usr/bin
  elfsee traits --require kind=pie,relro=full,stack=nx,pages=w^x /usr/sbin/sshd

Columns:
  T  kind relro stack pages text cet canary fortify rpath path
  !  trait
  C  state place cause path";

pub(crate) const NEEDED: &str = "\
Prints one line for each object: L, its index, the index of the object that
first needed it, its state, the place and the cause of its fault, and its path.
FILE is object 0. Nothing is run or loaded.
  found    it was read, and the libraries that it needs follow
  missing  no directory has it; its name is printed in place of the path
  refused  its headers, its dynamic entries or its lookup tables are malformed
Then, if FILE names an interpreter, I, whether it is found, and its path; and
for each version that an object needs and does not find U, the object, the
object that should have it, the state (nofile, bare, nover or refused), and the
version.
Libraries are searched for in RPATH, --library-path, RUNPATH, the loader's
cache and --default, in this order, as by a loader. DIRS are directories,
separated by colons; without --default they are /lib/x86_64-linux-gnu,
/usr/lib/x86_64-linux-gnu, /lib64, /usr/lib64, /lib and /usr/lib. The cache is
/etc/ld.so.cache below --root, or that of --cache; with --default there is none.

With --symbols, a line for each symbol that an object needs follows: B, the
object's index, the symbol's index, its state, the index of the object that
defines it and of the symbol there, and its name, with @ and its version if it
needs one.
  bound    it has a definition: that of the first object in which a loader
           finds one
  weak     no object defines it, and none has to
  unbound  no object defines it
  nover    no object defines it, and the library of its version has no such
           version
  refused  the lookup ends at a fault of this object

With --unused each library that the program names itself and uses nothing of
has a line L again, after all others, with the state
  unused   it defines no symbol that the program needs or copies
Of several files, or a directory, each program and library has a line @ with
its path before these lines; files and directories are visited as by check.
With --problems only the lines that make the status 1 are printed.

Exit status: 1 if a library, the interpreter or a version is missing, an object
is refused, or a symbol is unbound, nover or refused; of many files 3 if some
are unread, memory or unnamed.

Examples:
  elfsee needs /bin/ls
  elfsee needs --symbols /bin/ls
  elfsee needs --root /srv/other /srv/other/bin/ls
  elfsee needs --problems /usr/bin

Columns:
  L  index needed_by state place cause path
  I  state path
  U  object provider state version
  B  object symbol state definer definition name
  @  path";

pub(crate) const RESOLVED: &str = "\
WORDS are the arguments of GNU ld for x86-64, in their order, as 'gcc -###'
prints them after the name of the linker. Nothing is linked or run. Prints one
line for each file: I, its index, its kind, for a member of an archive the index
of that and the member's, and its path or name; and after each member that was
taken for a symbol W, its index, the index of the file that needs it, and the
symbol.
  object, shared, archive, member  it is part of the link
  unneeded  nothing needs it, and --as-needed precedes it
  same      a shared library of this name is part of the link
  missing   there is no such file
  refused   it is malformed, and the link ends there
Then G for each symbol of an object: its state, the index of the file that
defines it, the index of the first that references it, and its name.
  defined, weakdef, common, shared  this file's definition counts
  multiple  M lines follow with the other files that define it
  order     no file defines it, and O lines follow: an archive, or a library
            that was not needed then, has it and precedes the file that needs it
  undef     no file defines it
  weak      no file defines it, and none has to
  linker    the linker defines it
  unused    no file defines it, and none needs it
After order and weak O, the index of the archive or the library, the member's,
and the symbol. With --problems only the lines that make the status 1 are
printed.

Exit status: 1 if a symbol is undef, order or multiple, or a file is missing or
refused.

Examples:
  elfsee resolve -- main.o -lfoo
  elfsee resolve --problems -- -static crt1.o crti.o main.o -lc crtn.o

Columns:
  I  index kind archive member path
  W  index needed_by name
  G  state definer referrer name
  M  index name
  O  index member name";

pub(crate) const EXPLAINED: &str = "\
Each cause is that of a line !, each state that of a line C, F, L, I, U or B.
An unknown word ends it with exit status 2 and the cause or state most like it.

Example: elfsee explain table-outside";

pub(crate) const MEMBERS: &str = "\
Prints one line for each member: A, its index, the offset and the size of its
data, and its name. If it is an ELF file, its listing follows, with offsets
from the first byte of its data. If that file is refused, the next member
follows.
  --only PART   list the members and these parts of each;
                --only members: only the members
  --max-read N  read at most N bytes of the archive
  --name NAME   of the members' symbols, or of the parts of --only, show those
                with this name

Exit status: 1 if the archive or a member is refused.

Examples:
  elfsee archive --only symbols /usr/lib/x86_64-linux-gnu/libc.a
  elfsee archive --name printf /usr/lib/x86_64-linux-gnu/libc.a

Columns: those of 'elfsee help show', and
  A  index offset size name";

/// Returns what the help of a command prints after its arguments.
pub(crate) fn more_of(command: CommandName) -> &'static str {
    match command {
        CommandName::Show => SHOWN,
        CommandName::Sample => SAMPLED,
        CommandName::Find => FOUND,
        CommandName::Apply => ITEMS,
        CommandName::Bytes => COPIED,
        CommandName::Image => IMAGED,
        CommandName::Check => CHECKED,
        CommandName::List => LISTED,
        CommandName::Traits => HARDENED,
        CommandName::Needs => NEEDED,
        CommandName::Resolve => RESOLVED,
        CommandName::Archive => MEMBERS,
        CommandName::Explain => EXPLAINED,
        CommandName::Version => "Example: elfsee version",
    }
}
