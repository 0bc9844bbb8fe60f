//! The options and the arguments of `resolve`, in the order of help.
use crate::arg_specs::{ArgKind, ArgSpec};
use crate::command_sets::RESOLVE;
use clap::builder::ValueParser;

pub(crate) const LINK_HEADERS: ArgSpec = ArgSpec {
    name: "headers",
    short: None,
    alias: Some("max-headers"),
    kind: ArgKind::Count(ValueParser::Signed(1, 65279), "65279"),
    help: "Allow N section and N program headers,\n\
        1 to 65279",
    commands: RESOLVE,
};

pub(crate) const KEYS: ArgSpec = ArgSpec {
    name: "keys",
    short: None,
    alias: None,
    kind: ArgKind::Number(ValueParser::Unsigned(1, 16_777_216)),
    help: "Allow N names of symbols, of files and indexes:\n\
        1 to 16777216 [default: 262144]",
    commands: RESOLVE,
};

pub(crate) const KEY_BYTES: ArgSpec = ArgSpec {
    name: "key-bytes",
    short: None,
    alias: None,
    kind: ArgKind::Number(ValueParser::Unsigned(1, 1_073_741_824)),
    help: "Allow N bytes of names:\n\
        1 to 1073741824 [default: 16777216]",
    commands: RESOLVE,
};

pub(crate) const INDEX: ArgSpec = ArgSpec {
    name: "index",
    short: None,
    alias: None,
    kind: ArgKind::Number(ValueParser::Unsigned(1, 16_777_216)),
    help: "Allow N entries of the indexes of archives:\n\
        1 to 16777216 [default: 262144]",
    commands: RESOLVE,
};

pub(crate) const ROWS: ArgSpec = ArgSpec {
    name: "rows",
    short: None,
    alias: None,
    kind: ArgKind::Number(ValueParser::Unsigned(1, 16_777_216)),
    help: "Allow N files and members of archives:\n\
        1 to 16777216 [default: 16384]",
    commands: RESOLVE,
};

pub(crate) const WORDS: ArgSpec = ArgSpec {
    name: "WORDS",
    short: None,
    alias: None,
    kind: ArgKind::Any,
    help: "After --, the arguments of a linker",
    commands: RESOLVE,
};
