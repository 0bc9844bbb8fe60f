//! Laws of the definitions.
ghost use Rattle.elf_walk.specs.Entries.{EntryIsFound, LastIsFound};
ghost use Rattle.elf_walk.specs.Gathered.{ReadsJoin};
ghost use Rattle.elf_walk.specs.Pass.{PassKeeps};
ghost use Rattle.elf_walk.specs.Passes.{AllNames, OrderAscends};

/// Proves that the names a pass over a directory keeps are the first of those after its starting
/// name, sorted by their bytes, without duplicates; and that it is known whether there are more.
pub fn pass_keeps()
    ensures { PassKeeps }
{}

/// Proves that sorted names ascend: each is after all before it.
pub fn order_ascends()
    ensures { OrderAscends }
{}

/// Proves that passes over the names of a directory, each starting after the last name of the one
/// before, give all names sorted by their bytes, without duplicates, however many names each of
/// them keeps.
pub fn all_names()
    ensures { AllNames }
{}

/// Proves that an entry that ends in NUL is found, and those after it are those of the bytes after
/// it.
pub fn entry_is_found()
    ensures { EntryIsFound }
{}

/// Proves that bytes without NUL are one entry, if there are any.
pub fn last_is_found()
    ensures { LastIsFound }
{}

/// Proves that the entries of several reads are those of all their bytes, if no read ends within an
/// entry.
pub fn reads_join()
    ensures { ReadsJoin }
{}
