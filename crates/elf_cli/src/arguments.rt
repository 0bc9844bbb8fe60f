//! The arguments of all commands: options first, then positional arguments, in the order of help.
ghost use Rattle.std.specs.Prelude.{◌≡◌, map};
ghost use Rattle.elf_cli.specs.CommandLine.{argument_rows};
ghost use Rattle.elf_cli.specs.Described.{argument_row};

use crate::arg_specs::{ArgKind, ArgSpec};
use crate::command_sets::{
    APPLY, ARCHIVE, BYTES, CHECK, EXPLAIN, FIND, IMAGE, LINES, LIST, LISTING, MANY_FILES, ONE_FILE,
    READING, RESOLVE, SAMPLE, SELECTING, SHOW, TRAITS,
};
use crate::needs_arguments::{
    BINDINGS, CACHE, DEFAULT, LIBRARY_PATH, MAX_TRIES, NO_CACHE, PROBLEMS, ROOT, UNUSED,
};
use crate::resolve_arguments::{INDEX, KEY_BYTES, KEYS, LINK_HEADERS, ROWS, WORDS};
use clap::builder::ValueParser;

static ARGUMENTS: [ArgSpec; 52] = [
    ArgSpec {
        name: "headers",
        short: None,
        alias: Some("max-headers"),
        kind: ArgKind::Count(ValueParser::Signed(1, 65279), "4096"),
        help: "Allow N section and N program headers,\n\
            1 to 65279",
        commands: READING,
    },
    LINK_HEADERS,
    ArgSpec {
        name: "names",
        short: None,
        alias: Some("max-name-len"),
        kind: ArgKind::Count(ValueParser::Signed(1, 4096), "256"),
        help: "Show at most N bytes of a name,\n\
            1 to 4096",
        commands: LISTING,
    },
    ArgSpec {
        name: "max-read",
        short: None,
        alias: None,
        kind: ArgKind::Number(ValueParser::Unsigned(0, 9_223_372_036_854_775_807)),
        help: "Read at most N bytes of the file:\n\
            0 to 9223372036854775807 [default: no limit]",
        commands: READING | RESOLVE,
    },
    KEYS,
    KEY_BYTES,
    INDEX,
    ROWS,
    MAX_TRIES,
    LIBRARY_PATH,
    DEFAULT,
    ROOT,
    CACHE,
    NO_CACHE,
    BINDINGS,
    UNUSED,
    PROBLEMS,
    ArgSpec {
        name: "require",
        short: None,
        alias: None,
        kind: ArgKind::Value("WORDS"),
        help: "Print which of these words each program and\n\
            library lacks, as in stack=nx,relro=full",
        commands: TRAITS,
    },
    ArgSpec {
        name: "only",
        short: Some('o'),
        alias: None,
        kind: ArgKind::Filled("PART"),
        help: "List these parts, separated by commas\n\
            [default: all] [possible values: header, sections,\n\
            segments, symbols, relocs, notes, dynamic,\n\
            versions]",
        commands: SHOW | SAMPLE | CHECK | LIST,
    },
    ArgSpec {
        name: "only",
        short: Some('o'),
        alias: None,
        kind: ArgKind::Filled("PART"),
        help: "List these parts, separated by commas\n\
            [default: all] [possible values: members, header,\n\
            sections, segments, symbols, relocs, notes,\n\
            dynamic, versions]",
        commands: ARCHIVE,
    },
    ArgSpec {
        name: "gnu",
        short: Some('g'),
        alias: None,
        kind: ArgKind::Flag,
        help: "Also name the numbers defined by GNU, and list\n\
            symbol versions",
        commands: LISTING,
    },
    // Whether the name is looked up as glibc's dynamic loader does it.
    ArgSpec {
        name: "gnu",
        short: Some('g'),
        alias: None,
        kind: ArgKind::Flag,
        help: "Find the symbol that glibc's dynamic loader picks;\n\
            NAME may have a version",
        commands: FIND,
    },
    ArgSpec {
        name: "by-segments",
        short: Some('D'),
        alias: Some("use-dynamic"),
        kind: ArgKind::Flag,
        help: "Find tables by the program headers, as a loader\n\
            does",
        commands: LISTING,
    },
    // Whether the tables are found as that loader finds them even if there are section headers.
    ArgSpec {
        name: "by-segments",
        short: Some('D'),
        alias: Some("use-dynamic"),
        kind: ArgKind::Flag,
        help: "With --gnu: find the tables by the program\n\
            headers, as the loader does",
        commands: FIND,
    },
    ArgSpec {
        name: "json",
        short: Some('j'),
        alias: None,
        kind: ArgKind::Flag,
        help: "Print each line as a JSON object",
        commands: LINES | RESOLVE,
    },
    ArgSpec {
        name: "table",
        short: Some('t'),
        alias: None,
        kind: ArgKind::Flag,
        help: "Print a table with the names of its columns;\n\
            implies --gnu and --versions",
        commands: LINES,
    },
    ArgSpec {
        name: "versions",
        short: None,
        alias: None,
        kind: ArgKind::Flag,
        help: "With --gnu: append its version to the name of a\n\
            symbol, as NAME@VERSION",
        commands: SELECTING | SAMPLE,
    },
    ArgSpec {
        name: "name",
        short: Some('n'),
        alias: None,
        kind: ArgKind::Repeated("NAME"),
        help: "Show only the rows with this name;\n\
            at most 64 times",
        commands: SELECTING,
    },
    ArgSpec {
        name: "name-list",
        short: None,
        alias: None,
        kind: ArgKind::Value("LIST"),
        help: "Also show the rows with the names in the file\n\
            LIST, one per line",
        commands: SELECTING,
    },
    ArgSpec {
        name: "defined",
        short: None,
        alias: None,
        kind: ArgKind::Flag,
        help: "Of symbols, show only the defined ones",
        commands: SELECTING,
    },
    ArgSpec {
        name: "undefined",
        short: None,
        alias: None,
        kind: ArgKind::Flag,
        help: "Of symbols, show only the undefined ones",
        commands: SELECTING,
    },
    ArgSpec {
        name: "dynamic",
        short: None,
        alias: None,
        kind: ArgKind::Flag,
        help: "Of symbols, show only those of dynamic tables",
        commands: SELECTING,
    },
    ArgSpec {
        name: "at",
        short: None,
        alias: None,
        kind: ArgKind::Value("PLACE"),
        help: "Show only the rows at this byte of the file, as in\n\
            1024 or 0x400",
        commands: SELECTING,
    },
    ArgSpec {
        name: "address",
        short: None,
        alias: None,
        kind: ArgKind::Value("ADDR"),
        help: "Show only the rows of this address",
        commands: SELECTING,
    },
    ArgSpec {
        name: "layout",
        short: None,
        alias: None,
        kind: ArgKind::Value("LIST"),
        help: "Also take the items in the file LIST, one per\n\
            line, any number of them",
        commands: APPLY | IMAGE,
    },
    ArgSpec {
        name: "max-write",
        short: None,
        alias: None,
        kind: ArgKind::Number(ValueParser::Unsigned(0, 9_223_372_036_854_775_807)),
        help: "Write at most N bytes:\n\
            0 to 9223372036854775807 [default: 4294967296]",
        commands: IMAGE,
    },
    ArgSpec {
        name: "leave",
        short: None,
        alias: None,
        kind: ArgKind::Flag,
        help: "Let an entry that lacks an item change nothing",
        commands: IMAGE,
    },
    ArgSpec {
        name: "missing",
        short: None,
        alias: None,
        kind: ArgKind::Flag,
        help: "Print the entries that lack an item, of the whole\n\
            file: no SEGMENT is given then",
        commands: IMAGE,
    },
    ArgSpec {
        name: "explain",
        short: None,
        alias: None,
        kind: ArgKind::Flag,
        help: "If an address is missing or a value does not fit,\n\
            print the type, the symbol and what would help, or\n\
            the value",
        commands: APPLY,
    },
    ArgSpec {
        name: "segment",
        short: None,
        alias: None,
        kind: ArgKind::Number(ValueParser::Unsigned(0, 65535)),
        help: "Write the bytes of the program header of index N,\n\
            0 to 65535, not a section's",
        commands: BYTES,
    },
    ArgSpec {
        name: "members",
        short: None,
        alias: None,
        kind: ArgKind::Flag,
        help: "Also read the members of archives",
        commands: CHECK | LIST,
    },
    ArgSpec {
        name: "files0-from",
        short: None,
        alias: None,
        kind: ArgKind::Value("FILE"),
        help: "Also take the paths in FILE, each ended by a NUL\n\
            byte; - is standard input",
        commands: MANY_FILES,
    },
    ArgSpec {
        name: "FILE",
        short: None,
        alias: None,
        kind: ArgKind::Needed,
        help: "The file to read; - is the one on standard input",
        commands: ONE_FILE,
    },
    ArgSpec {
        name: "NAME",
        short: None,
        alias: None,
        kind: ArgKind::Needed,
        help: "The name to look up: 1 to 4096 bytes",
        commands: FIND,
    },
    ArgSpec {
        name: "SECTION",
        short: None,
        alias: None,
        kind: ArgKind::Index(ValueParser::Signed(0, 65535)),
        help: "The index of the section to write: 0 to 65535",
        commands: APPLY,
    },
    ArgSpec {
        name: "SECTION",
        short: None,
        alias: None,
        kind: ArgKind::Optional,
        help: "The section to write: its index, or its name if that\n\
            begins with a dot or a letter",
        commands: BYTES,
    },
    ArgSpec {
        name: "SEGMENT",
        short: None,
        alias: None,
        kind: ArgKind::Optional,
        help: "The index of the LOAD program header to write:\n\
            0 to 65535",
        commands: IMAGE,
    },
    ArgSpec {
        name: "ITEM",
        short: None,
        alias: None,
        kind: ArgKind::Any,
        help: "What the loader would decide: base=ADDR,\n\
            sym:INDEX=ADDR and others, as below",
        commands: IMAGE,
    },
    ArgSpec {
        name: "ITEM",
        short: None,
        alias: None,
        kind: ArgKind::Any,
        help: "An address: at:INDEX=ADDR, def:NAME=ADDR,\n\
            plt:NAME=ADDR, got:NAME=ADDR or tpgot:NAME=ADDR",
        commands: APPLY,
    },
    ArgSpec {
        name: "PATH",
        short: None,
        alias: None,
        kind: ArgKind::Any,
        help: "A file or a directory; - is the file on standard input",
        commands: MANY_FILES,
    },
    WORDS,
    ArgSpec {
        name: "CAUSE",
        short: None,
        alias: None,
        kind: ArgKind::Any,
        help: "A cause or a state that a line has, such as\n\
            table-outside; without any, all",
        commands: EXPLAIN,
    },
];

/// Returns the arguments of all commands.
pub(crate) fn all_arguments() -> &'static [ArgSpec]
    ensures { map argument_row result.now ≡ argument_rows }
{
    &ARGUMENTS
}
