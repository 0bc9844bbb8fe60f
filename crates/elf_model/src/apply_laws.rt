//! Laws of relocations applied to a section, each proved from the definitions.
ghost use Rattle.elf_model.specs.ApplyLaws.{LengthKept, BytePatched, WindowPatched, FinalBelow, KeptAbove, EntryStoresValue, ChangesInside};
ghost use Rattle.elf_model.specs.ApplyLaws.{AppliedKeepsLength};

/// Patches within a section keep its length.
pub fn length_kept()
    ensures { LengthKept }
{}

/// Each byte of a patched section is the byte after all patches.
pub fn byte_patched()
    ensures { BytePatched }
{}

/// A window of a patched section is the window with the parts of the patches that fall into it.
pub fn window_patched()
    ensures { WindowPatched }
{}

/// The bytes before all patches are unchanged.
pub fn final_below()
    ensures { FinalBelow }
{}

/// The bytes after all patches are unchanged.
pub fn kept_above()
    ensures { KeptAbove }
{}

/// An entry that stores bytes stores the value of its type's B, A and P at its offset.
pub fn entry_stores_value()
    ensures { EntryStoresValue }
{}

/// What the relocation entries store lies in the section.
pub fn changes_inside()
    ensures { ChangesInside }
{}

/// A section with its relocations applied has as many bytes as it has in the file.
pub fn applied_keeps_length()
    ensures { AppliedKeepsLength }
{}
