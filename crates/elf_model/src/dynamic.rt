//! The laws of dynamic entries.
ghost use Rattle.elf_model.specs.Dynamic.{CountedIsListed, ListedIsCounted};
ghost use Rattle.elf_model.specs.Dynamic.{NoValueHasNoTag, ValueIsFirst};

/// The entries that are counted are those up to and with the first DT_NULL, or all.
pub fn counted_is_listed()
    ensures { CountedIsListed }
{}

/// The entries up to and with the first DT_NULL, or all, are those that are counted.
pub fn listed_is_counted()
    ensures { ListedIsCounted }
{}

/// The value of a tag is that of the first entry with the tag.
pub fn value_is_first()
    ensures { ValueIsFirst }
{}

/// If there is no value for a tag, no entry has the tag.
pub fn no_value_has_no_tag()
    ensures { NoValueHasNoTag }
{}
