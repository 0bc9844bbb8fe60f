//! The laws of records.
ghost use Rattle.elf_model.specs.RecordLaws.{FieldsOfSlices, LinesOfSlices};

/// A field of a slice is the file's field.
pub fn fields_of_slices()
    ensures { FieldsOfSlices }
{}

/// A record's line, or its prefix, is the same at the record's own bytes.
pub fn lines_of_slices()
    ensures { LinesOfSlices }
{}
