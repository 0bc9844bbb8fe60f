//! The three renderings of a line.
ghost use Rattle.elf_model.specs.declared.formats.Format.TheVariants.{Columns as InColumns, Object as AsObject, Table as InTable};
ghost use Rattle.elf_model.specs.declared.formats.Format.{Format as Spec};

use elf_model::Format;

/// A rendering of lines. A function that appends a field takes the format from it at compile time:
/// each rendering has code of its own, in which no field tests the format.
pub trait Render {
    /// The format of its lines.
    const FORMAT: Format;

    /// The format of its lines.
    ghost FORMAT: { Spec };
}

/// Lines in columns.
pub struct Columns;

impl Render for Columns {
    const FORMAT: Format = Format::Columns;

    ghost FORMAT = { InColumns };
}

/// Lines as JSON objects.
pub struct Json;

impl Render for Json {
    const FORMAT: Format = Format::Object;

    ghost FORMAT = { AsObject };
}

/// Lines in a table.
pub struct Tabular;

impl Render for Tabular {
    const FORMAT: Format = Format::Table;

    ghost FORMAT = { InTable };
}
