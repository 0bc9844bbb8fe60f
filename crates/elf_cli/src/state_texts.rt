//! What the states in lines mean, as `explain` reads it.

/// What each state means, by the lines that have it.
pub(crate) const STATES: &str = "\
ok
    Line C: elfsee show with these options exits with status 0: the tables
    that it lists are sound. Whether segments can be mapped is not checked.

refused
    Line C: the file has this fault at this offset, or has more than is
    allowed, or is of a type that elfsee does not read: see the cause. Line L:
    so is this object, or it is no library. Line U: the records of versions of
    the object that should define it are malformed. Line B: the lookup ends at
    a fault of this object. Line I of a link: so is this file, and the link
    ends there.
    What to do: elfsee explain CAUSE says what a cause means.

no-elf
    Line C: the file does not begin with 7f 45 4c 46.

unread
    Line C: the file cannot be opened or read, or is more than 64 directories
    deep.
    What to do: look at its permissions; elfsee's exit status is 3.

memory
    Line C: there was no memory for the file.
    What to do: allow fewer headers: --headers.

unnamed
    Line C: so many names in directories are not UTF-8 or too long.
    What to do: rename these files.

found
    Lines L and I: the file was found and read. Line F: the name was found.

missing
    Line L: no directory that is searched has the library; its name is
    printed. Line I: the program interpreter is not there, or is not for this
    machine: the shell says 'No such file or directory' of a program that
    exists. Line I of a link: there is no file of this path, or in no directory
    that is searched the library.
    What to do: install the package that has it, or set LD_LIBRARY_PATH or a
    RUNPATH to its directory; elfsee reads --library-path instead of the
    variable.

unused
    Line L: the program needs this library itself and uses no symbol of it.
    Line G: no file defines the symbol, and only an argument or a section that
    is dropped asks for it.
    What to do: link without it, or with --as-needed.

nofile
    Line U: no object is the file that should have this version. A loader ends
    here.
    What to do: link again: the library was renamed after the program was
    linked.

bare
    Line U: the library that should have this version has no versions at all.
    A loader ends at the first symbol that it takes from there.
    What to do: install the version of the library that the program was linked
    with.

nover
    Line U: the library has versions, and not this one. A loader says: version
    not found. Line B: the symbol's version is not there.
    What to do: install a newer version of the library, or build the program
    where it runs.

bound
    Line B: a loader finds the symbol in this object.

weak
    Line B: no object defines the symbol, and none has to: it is weak. Line G:
    so does no file of the link; lines O have the archives that define it, of
    which a weak reference takes no member.

unbound
    Line B: no object defines the symbol. A loader says: undefined symbol.
    What to do: link with the library that defines it: elfsee list --defined
    --name NAME finds it. A plugin's symbols may be those of its program.

absent
    Line F: no symbol in the hash table has this name and, if one is given,
    this version.
    What to do: elfsee show --gnu --versions --name NAME prints the versions
    of the name, also of symbols that no hash table has.";
