//! The request for a lookup as a loader does it.
ghost use Rattle.std.specs.Prelude.{◌≡◌, ◌^◌, ◌≤◌, ◌++◌, ℕ, List, length, IfErr, Some, option_map, true};
ghost use Rattle.elf_format.specs.Named.{shown_as};
ghost use Rattle.elf_listing.specs.Shows.{IsOfOutput};
ghost use Rattle.elf_loader.specs.Lookups.{AreShort, LooksThrough};
ghost use Rattle.elf_loader.specs.Prelude.{AnswersLoaderLookup, name_shown, version_found};
ghost use Rattle.elf_model.specs.Prelude.{LoaderLookup, asked_name, e_machine, found_version_line, looked_at, named_line, symbol_prefix};
ghost use Rattle.elf_model.specs.Names.DisplayedName.{Whole};
ghost use Rattle.elf_record.specs.Sym.{IsSym};
ghost use Rattle.elf_source.specs.Prelude.{IsOutFault, OutGrows, OutPuts};
ghost use Rattle.elf_requests.specs.Answers.{WroteAnswer};
ghost use Rattle.elf_requests.specs.Lookups.{resolved_answer};
ghost use Rattle.elf_requests.specs.Requests.{RunsResolve};
ghost use Rattle.elf_options.specs.Wants.{asked_of, query_of};

use elf_format::{
    ConstantNames, LinePrefix, show_named, show_steps, symbol_front_in, symbol_version_front_in,
};
use elf_listing::show_stop;
use elf_loader::{FoundSymbol, FoundVersion, SymbolLookup, VersionName, look_up};
use elf_model::Format;
use elf_options::{SymbolQuery, VersionQuery, parse_query};
use elf_source::{Counted, Limited, Out, OutFault, Sink, Source};
use elf_table::{HeaderStore, Limits, NameBuf, NameEnd, RunFault};

/// How a name is looked up, and how the result is written.
#[derive(Clone, Copy)]
pub(crate) struct LookupStyle {
    /// Whether the lookup tables are found by the program headers even if there are section
    /// headers.
    pub by_segments: bool,
    /// How a line is written.
    pub format: Format,
}

/// Looks up a name in a file as a loader does, alone or with a version: `text` is NAME,
/// NAME@VERSION or NAME@@VERSION.
///
/// Writes the symbol's line, with GNU names, the line of its version, if the file has versions, and
/// how many symbols were tried; or only that number if no symbol matches, or the line of the
/// refusal. Returns the status: 0 if a symbol was found, otherwise 1. The text has at most 4,096
/// bytes. If there is a budget, no more is read; on return no limit is set.
///
/// # Errors
/// A refusal, whose line was written, a fault of the source, with nothing written, or of the
/// output, with a prefix of the text written.
pub(crate) fn resolve<S: Source, W: Sink>(
    src: &mut Counted<S>,
    store: &mut HeaderStore,
    limits: Limits,
    text: &[u8],
    style: LookupStyle,
    out: &mut Out<W>,
) -> Result<u8, RunFault>
    requires slots { (store.old.slots ≡ limits.headers) × (src.old.asked ≤ 2 ^ 127) }
    requires most { length text.now ≤ 4096 }
    ensures slots { store.new.slots ≡ store.old.slots }
    ensures runs { RunsResolve limits text.now style.by_segments style.format
        src.old src.new out.old out.new result }
{
    let wanted = parse_query(text);
    let mut name = NameBuf::new();
    let by_segments = style.by_segments;
    let found = src.within(
        limits.budget,
        &mut |src: &mut Counted<S>|
            requires { AreShort (query_of wanted) }
            ensures did { LooksThrough src.old src.new (looked_at by_segments)
                store.entry.now.slots (query_of wanted.entry) name.exit result }
            ensures slots { store.exit.now.slots ≡ store.entry.now.slots }
        { look_up(src, store, &wanted, by_segments, &mut name) },
    );
    match found {
        Ok(lookup) => show_resolved(&lookup, &wanted, &name, style.format, out),
        Err(fault) => Err(show_stop(fault.into(), style.format, out)),
    }
}

/// Writes the lines of a lookup's result, and returns its status.
///
/// # Errors
/// A fault of the output, with a prefix of the lines written.
fn show_resolved<W: Sink>(
    lookup: &SymbolLookup,
    wanted: &SymbolQuery<'_>,
    name: &NameBuf,
    format: Format,
    out: &mut Out<W>,
) -> Result<u8, RunFault>
    ensures grows { OutGrows out.old out.new }
    ensures fails { IfErr result (IsOfOutput out.new) }
    ensures text { (file : List ℕ) (looked : LoaderLookup) → AnswersLoaderLookup file
        (asked_of wanted.now.asked) name.now looked lookup.now → WroteAnswer out.old out.new result
        (resolved_answer format file wanted.now.name.now looked) }
{
    match lookup {
        SymbolLookup::Found(found) => {
            show_found(found, wanted, name, format, out)?;
            show_steps(true, found.tried, format, out)?;
            Ok(0)
        }
        SymbolLookup::Absent { tried } => {
            show_steps(false, *tried, format, out)?;
            Ok(1)
        }
    }
}

/// Writes the line of a symbol that was found, with the wanted name, and that of its version.
///
/// # Errors
/// A fault of the output, with a prefix of the lines written.
fn show_found<W: Sink>(
    found: &FoundSymbol,
    wanted: &SymbolQuery<'_>,
    name: &NameBuf,
    format: Format,
    out: &mut Out<W>,
) -> Result<(), OutFault>
    ensures grows { OutGrows out.old out.new }
    ensures fails { IfErr result (IsOutFault out.new) }
    ensures puts { (file : List ℕ) (at : ℕ) → IsSym file at found.now.symbol →
        found.now.machine ≡ e_machine file →
        let front = symbol_prefix format true
        (e_machine file) file at found.now.section found.now.index in
        let version = option_map
        (version_found (asked_of wanted.now.asked) name.now) found.now.version in
        OutPuts out.old out.new result (named_line front (Whole wanted.now.name.now)
        ++ found_version_line format found.now.index version) }
{
    let naming = ConstantNames {
        gnu: true,
        machine: found.machine,
    };
    let mut front = LinePrefix::new();
    symbol_front_in(
        format,
        &mut front,
        found.section,
        found.index,
        &found.symbol,
        naming,
    );
    show_named(&mut front, wanted.name, false, out)?;
    let Some(version) = &found.version else {
        return Ok(());
    };
    show_version(found.index, version, &wanted.asked, name, format, out)
}

/// Writes the line of the version of the symbol at an index.
///
/// # Errors
/// A fault of the output, with a prefix of the line written.
fn show_version<W: Sink>(
    index: u64,
    version: &FoundVersion,
    asked: &VersionQuery<'_>,
    name: &NameBuf,
    format: Format,
    out: &mut Out<W>,
) -> Result<(), OutFault>
    ensures puts { let version = version_found (asked_of asked.now) name.now version.now in
        OutPuts out.old out.new result (found_version_line format index (Some version)) }
{
    let mut front = LinePrefix::new();
    symbol_version_front_in(format, &mut front, version.index, index, version.word);
    let (bytes, is_cut) = version_name(version.name, asked, name);
    show_named(&mut front, bytes, is_cut, out)
}

/// Returns the name of a version, and whether it is cut.
fn version_name<'a>(
    version: VersionName,
    asked: &VersionQuery<'a>,
    name: &'a NameBuf,
) -> (&'a [u8], bool)
    ensures { shown_as result.1 result.0.now
        ≡ name_shown (asked_name (asked_of asked.now)) name.now version }
{
    match version {
        VersionName::Wanted => (asked.name().unwrap_or(&[]), false),
        VersionName::Unnamed => (&[], false),
        VersionName::Told(end) => (name.bytes(), end == NameEnd::Cut),
    }
}
