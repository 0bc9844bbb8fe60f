//! The public surface by the names of the crates that have it, and those of its calls that no other
//! crate makes.
ghost use Rattle.std.specs.Prelude.{◌≡◌};
ghost use Rattle.elf_table.specs.Prelude.{StringsInBounds, TableInBounds};

use crate::pieces::ChunkedReader;
use crate::requests::listing;
use elf_fixtures::{
    build_note, hash_with_cycle, library_without_sections, one_call, one_symbol_table,
    repeated_tags,
};
use elf_hash::{Lookup, find, sysv_hash};
use elf_listing::{FIXED_BYTES, RunFault, cause_word, show, show_refusal, show_steps, show_symbol};
use elf_model::Format;
use elf_note::{DynCursor, NoteCursor, NoteRow, dynamic_rows};
use elf_record::{
    Cause, Dyn, Ehdr, NoteHead, Parts, Phdr, Refusal, Rela, SectionFlags, SegmentFlags, Shdr, Sym,
    SymbolSection,
};
use elf_reloc::{Applied, ApplyFault, Item, Layout, LayoutFault, Patch, ValueFault, apply, value};
use elf_requests::{ParsedCommand, Request, RequestFault, Task, outcome, request, run};
use elf_source::{
    AskFault, Counted, FailSource, MemorySource, Out, OutFault, Sink, SinkFault, SliceSink, Source,
    SourceFault, StreamSource, TurnSource, WriteSink,
};
use elf_table::{
    Caps, Cursor, Fault, HeaderBuffer, HeaderStore, Loaded, NameBuf, NameEnd, NameLimit, Names,
    Row, Table, header, load,
};
use std::process::Abort;
use std::test::Fail;

#[test]
fn records_are_encoded_as_they_were(rt: HostRuntime) {
    let file = one_symbol_table();
    let mut bytes = [0; 64];
    bytes.copy_from_slice(&file[..64]);
    assert!(rt; Ehdr::check(&bytes).is_ok() && Ehdr::decode(&bytes).encode() == bytes);
    assert!(rt; Shdr::decode(&bytes).encode() == bytes);
    let bytes = [7; 56];
    assert!(rt; Phdr::decode(&bytes).encode() == bytes);
    let bytes = [7; 24];
    assert!(rt; Rela::decode(&bytes).encode() == bytes && Sym::decode(&bytes).encode() == bytes);
    assert!(rt; Dyn::decode(&[7; 16]).encode() == [7; 16]);
    assert!(rt; NoteHead::decode(&[7; 12]).encode() == [7; 12]);
}

#[test]
fn fields_of_a_symbol_are_its_bits(rt: HostRuntime) {
    let symbol = Sym::decode(&[0x9d; 24]);
    assert!(rt; symbol.binding() == 9 && symbol.kind() == 13 && symbol.visibility() == 1);
    assert!(rt; matches!(symbol.place(), SymbolSection::Section(0x9d9d)));
    let entry = Rela::decode(&[3; 24]);
    assert!(rt; entry.symbol() == 0x0303_0303 && entry.kind() == 0x0303_0303);
    assert!(rt; SectionFlags::ALLOC.0 == 2 && SegmentFlags::W.0 == 2 && Parts::NOTES.0 == 32);
}

/// Reads the header of a file and loads its section headers.
fn open<S: Source>(src: &mut Counted<S>, store: &mut HeaderStore) -> Result<Loaded, Fault> {
    let header = header(src)?;
    load(src, store, &header)
}

/// Returns the first byte of the second symbol's name, its section, and whether its name is
/// `wanted`.
fn second_symbol<S: Source>(
    src: &mut Counted<S>,
    symbols: Table,
    names: Names,
    wanted: &[u8],
    rt: &impl Abort,
) -> Result<(NameEnd, bool), Fault>
    requires table { TableInBounds src.old.seen.size symbols }
    requires names { StringsInBounds src.old.seen.size names }
{
    assert!(rt; symbols.len() == 2 && symbols.entry() == 24 && wanted.len() <= 4096);
    let symbol = symbols.symbol(src, 1)?;
    let mut name = NameBuf::new();
    let index = u64::from(symbol.st_name);
    let end = names.read(src, index, symbols.at(), NameLimit { bytes: 63 }, &mut name)?;
    assert!(rt; name.bytes() == wanted);
    let equal = names.equals(src, index, symbols.at(), wanted)?;
    Ok((end, equal))
}

/// Returns `true` if a section of a loaded file links to no symbol table.
fn links_to_no_symbols(
    loaded: &Loaded,
    store: &HeaderStore<'_>,
    section: u16,
    rt: &impl Abort,
) -> bool {
    assert!(rt; store.loaded() == loaded.header().e_shnum);
    assert!(rt; section < store.loaded());
    matches!(loaded.linked(store, section), Ok(None))
}

#[test]
fn a_loaded_file_has_its_tables(rt: HostRuntime) -> Result<(), Fail> {
    let mut buffer = HeaderBuffer::new(rt.alloc(), 3)?;
    let mut store = buffer.store();
    let mut src = Counted::new(MemorySource::new(one_symbol_table()));
    let loaded = open(&mut src, &mut store).expect(&rt, "a file that passes");
    assert!(rt; store.bytes() == 192 && store.loaded() == 3);
    assert!(rt; loaded.header().e_shnum == 3);
    let table = loaded.table(&store, 1, 24).expect(&rt, "a table");
    assert!(rt; table.len() == 2 && table.at() == 0x40);
    assert!(rt; loaded.strings(&store, 1).expect(&rt, "strings").size() == 6);
    assert!(rt; loaded.names(&store).is_none() && loaded.segments().len() == 0);
    assert!(rt; links_to_no_symbols(&loaded, &store, 1, &rt));
    assert!(rt; loaded.bytes(311, 1, 0).is_ok());
    assert!(rt;
        loaded.bytes(311, 2, 9).err()
            == Some(Fault::Refused(Refusal {
                at: 9,
                cause: Cause::TableOutside,
            }))
    );
    Ok(())
}

#[test]
fn a_symbol_is_read_with_its_name(rt: HostRuntime) -> Result<(), Fail> {
    let mut buffer = HeaderBuffer::new(rt.alloc(), 3)?;
    let mut store = buffer.store();
    let mut src = Counted::new(MemorySource::new(one_symbol_table()));
    let loaded = open(&mut src, &mut store).expect(&rt, "a file that passes");
    assert!(rt; store.loaded() == 3 && loaded.header().e_shnum == 3);
    assert!(rt; loaded.size() == src.length());
    let (table, names) = loaded.symbols(&store, 1).expect(&rt, "symbols");
    let second = second_symbol(&mut src, table, names, b"main", &rt);
    assert!(rt; second == Ok((NameEnd::Whole, true)));
    Ok(())
}

#[test]
fn a_loaded_file_has_its_segments_tables(rt: HostRuntime) -> Result<(), Fail> {
    let mut buffer = HeaderBuffer::new(rt.alloc(), 2)?;
    let mut store = buffer.store();
    let mut src = Counted::new(MemorySource::new(library_without_sections()));
    let header = header(&mut src).expect(&rt, "a header");
    let loaded = load(&mut src, &mut store, &header).expect(&rt, "a file that passes");
    assert!(rt; loaded.header().e_shnum == 0 && loaded.header().e_phnum == 2);
    assert!(rt; loaded.load_segments(&mut src, &mut store) == Ok(()));
    assert!(rt; store.segments() == 2 && store.loaded() == 0);
    let entries = loaded.dynamic(&store, 1).expect(&rt, "entries");
    assert!(rt; entries.at() == 0xb0 && entries.len() == 4);
    let strings = loaded
        .mapped(&store, 0x4000f0, 11, 0xb0)
        .expect(&rt, "strings");
    assert!(rt; strings.at() == 0xf0 && strings.size() == 11);
    assert!(rt;
        loaded.mapped(&store, 0x4000f0, 12, 0xb0).err()
            == Some(Fault::Refused(Refusal {
                at: 0xb0,
                cause: Cause::Unmapped,
            }))
    );
    Ok(())
}

/// Returns the index of a row.
fn index_of(row: &Row<'_>) -> u64
    ensures { result ≡ row.now.index }
{
    row.index
}

/// Returns the offset of a note's descriptor.
fn descriptor_of(row: &NoteRow<'_>) -> u64
    ensures { result ≡ row.now.desc_at }
{
    row.desc_at
}

#[test]
fn notes_and_entries_are_lent(rt: HostRuntime) {
    let mut src = Counted::new(MemorySource::new(build_note()));
    let mut notes: NoteCursor = NoteCursor::new(Table::new(0, 36, 1), 4);
    let mut name = NameBuf::new();
    assert!(rt; src.length() == 36);
    match notes.next(&mut src, NameLimit { bytes: 63 }, &mut name) {
        Ok(Some(row)) => assert!(rt; descriptor_of(&row) == 16),
        Ok(None) | Err(_) => assert!(rt; false),
    }
    let mut src = Counted::new(MemorySource::new(repeated_tags()));
    let mut entries: DynCursor = dynamic_rows(Table::new(0, 5, 16));
    assert!(rt; src.length() == 80);
    match entries.next(&mut src) {
        Ok(Some(row)) => assert!(rt; index_of(&row) == 0),
        Ok(None) | Err(_) => assert!(rt; false),
    }
}

#[test]
fn sources_and_sinks_fail(rt: HostRuntime) {
    let mut source = FailSource::new(MemorySource::new(b"ab"), 0);
    assert!(rt; source.length() == 2);
    assert!(rt; source.fill(0, &mut [0; 2]) == Err(SourceFault::Device));
    assert!(rt; TurnSource::new(b"a", b"ab").is_none());
    let stream = StreamSource::over(ChunkedReader::new(b"abc")).expect(&rt, "a stream");
    assert!(rt; stream.length() == 3);
    let mut none = [];
    let mut sink = SliceSink::new(&mut none);
    assert!(rt; sink.take(b"a") == Err(SinkFault) && sink.failed());
}

#[test]
fn a_request_is_carried_out(rt: HostRuntime) -> Result<(), Fail> {
    let asked = listing(3, Parts::HEADER)?;
    let mut buffer = HeaderBuffer::new(rt.alloc(), 3)?;
    let mut store = buffer.store();
    let mut src = Counted::new(MemorySource::new(one_symbol_table()));
    let mut out = Out::new(WriteSink::new(Vec::new(rt.alloc())));
    assert!(rt; store.slots() == asked.limits.headers);
    assert!(rt; run(&asked, &mut src, &mut store, &mut out) == Ok(0));
    assert!(rt; out.into_inner().into_inner().starts_with(b"H REL "));
    Ok(())
}

#[test]
fn rows_are_lent_one_after_another(rt: HostRuntime) {
    let mut src = Counted::new(MemorySource::new(one_symbol_table()));
    let mut cursor = Cursor::new(Table::new(0x40, 2, 24));
    assert!(rt; src.length() == 312);
    match cursor.next(&mut src) {
        Ok(Some(row)) => assert!(rt;
            row.index == 0 && row.at == 0x40 && row.bytes == [0; 24].as_slice()
        ),
        Ok(None) | Err(_) => assert!(rt; false),
    }
}

#[test]
fn a_name_is_found_or_absent(rt: HostRuntime) -> Result<(), Fail> {
    let mut buffer = HeaderBuffer::new(rt.alloc(), 4)?;
    let mut store = buffer.store();
    let mut src = Counted::new(MemorySource::new(hash_with_cycle()));
    match find(&mut src, &mut store, b"b") {
        Ok(
            Lookup::Found {
                section,
                index,
                steps,
                ..
            },
        ) => {
            assert!(rt; section == 2 && index == 2 && steps == 2);
        }
        Ok(Lookup::Absent { .. }) | Err(_) => assert!(rt; false),
    }
    assert!(rt; sysv_hash(b"exit") == 0x0006_cf04);
    Ok(())
}

#[test]
fn lines_are_those_of_the_listing(rt: HostRuntime) {
    let mut buffer = [0; 256];
    let mut out = Out::new(SliceSink::new(&mut buffer));
    let refusal = Refusal {
        at: 16,
        cause: Cause::NotRel,
    };
    assert!(rt; cause_word(Cause::NotRel) == "not-rel");
    assert!(rt; show_refusal(refusal, Format::Columns, &mut out) == Ok(()));
    assert!(rt; show_steps(true, 2, Format::Columns, &mut out) == Ok(()));
    let symbol = Sym::decode(&[0; 24]);
    assert!(rt; show_symbol(2, 1, &symbol, b"a", Format::Columns, &mut out) == Ok(()));
    let text = concat!(
        "! 0000000000000010 not-rel\n",
        "F found           2\n",
        "Y     2          1 0000000000000000 0000000000000000 NOTYPE  LOCAL  DEFAULT   UND   a\n",
    );
    assert!(rt; out.written() == text.len() as u128);
    assert!(rt; out.into_inner().written() == text.as_bytes());
    assert!(rt; FIXED_BYTES <= 16_384);
}

#[test]
fn a_refusal_ends_a_listing_with_its_line(rt: HostRuntime) -> Result<(), Fail> {
    let mut buffer = HeaderBuffer::new(rt.alloc(), 3)?;
    let mut store = buffer.store();
    let caps = Caps::new(3, 63).ok_or("caps")?;
    let mut text = [0; 256];
    let mut out = Out::new(SliceSink::new(&mut text));
    let mut src = Counted::new(MemorySource::new(&one_symbol_table()[..63]));
    assert!(rt; store.slots() == caps.headers() && caps.name() == 63 && caps.budget() == None);
    assert!(rt; caps.with_budget(1).budget() == Some(1));
    let refusal = Refusal {
        at: 63,
        cause: Cause::Short,
    };
    let answer = show(&mut src, &mut store, caps, Parts::HEADER, &mut out);
    assert!(rt; answer == Err(RunFault::Refused(refusal)) && src.asked() == 0);
    assert!(rt; out.into_inner().written() == b"! 000000000000003f short\n".as_slice());
    Ok(())
}

#[test]
fn a_section_is_applied(rt: HostRuntime) -> Result<(), Fail> {
    let mut buffer = HeaderBuffer::new(rt.alloc(), 5)?;
    let mut store = buffer.store();
    let mut layout = Layout::new();
    let place = Item::Section {
        index: 1,
        address: 0x1000,
    };
    assert!(rt; layout.push(place) == Ok(()) && layout.push(place) == Err(LayoutFault::Repeat));
    let mut text = [0; 8];
    let mut out = Out::new(SliceSink::new(&mut text));
    let mut src = Counted::new(MemorySource::new(one_call()));
    let refusal = Refusal {
        at: 0x48,
        cause: Cause::Undefined,
    };
    let answer: Result<Applied, ApplyFault> = apply(&mut src, &mut store, 1, &layout, &mut out);
    assert!(rt; answer.err() == Some(ApplyFault::Refused(refusal)) && out.written() == 0);
    let entry = Item::Entry {
        name: b"f",
        address: 0x2000,
    };
    assert!(rt; layout.push(entry) == Ok(()));
    match apply(&mut src, &mut store, 1, &layout, &mut out) {
        Ok(Applied { size, entries }) => assert!(rt; size == 5 && entries == 1),
        Err(_) => assert!(rt; false),
    }
    assert!(rt; out.into_inner().written() == [0xe8, 0xfb, 0x0f, 0, 0].as_slice());
    let patch: Result<Patch, ValueFault> = value(10, 0x1_0000_0000, 0, 0, 0);
    assert!(rt; patch.err() == Some(ValueFault::Overflow));
    Ok(())
}

#[test]
fn a_limit_refuses_what_passes_it(rt: HostRuntime) {
    let mut bytes = [0; 8];
    let mut src = Counted::new(MemorySource::new(one_symbol_table()));
    assert!(rt; src.length() == 312 && src.asked() == 0);
    src.limit(Some(4));
    assert!(rt; src.ask(0, &mut bytes) == Err(AskFault::Budget) && src.left() == Some(4));
    assert!(rt; src.fill(0, &mut bytes) == Ok(()) && &bytes[..4] == b"\x7fELF".as_slice());
}

#[test]
fn faults_have_an_exit_status(rt: HostRuntime) {
    let (fault, at) = (SourceFault::Ended, 0);
    assert!(rt; outcome(&Err(RunFault::Source { fault, at })) == (3, "elfsee: read fault"));
    let fault = OutFault { written: 0 };
    assert!(rt; outcome(&Err(RunFault::Out(fault))) == (3, "elfsee: write fault"));
}

#[test]
fn words_are_a_request(rt: HostRuntime) {
    let mut layout = Layout::new();
    match request(rt.alloc(), &["find", "file", "name"], &mut layout) {
        Ok(ParsedCommand::File(Request { task, .. })) => {
            assert!(rt; matches!(task, Task::Find { .. }));
        }
        Ok(_) | Err(_) => assert!(rt; false),
    }
    let mut layout = Layout::new();
    match request(rt.alloc(), &["find", "file", ""], &mut layout) {
        Err(RequestFault::BadName) => {}
        Ok(_) | Err(_) => assert!(rt; false),
    }
}
