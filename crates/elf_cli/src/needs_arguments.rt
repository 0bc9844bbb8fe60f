//! The options of `needs`, in the order of help.
use crate::arg_specs::{ArgKind, ArgSpec};
use crate::command_sets::{NEEDS, RESOLVE};
use clap::builder::ValueParser;

pub(crate) const MAX_TRIES: ArgSpec = ArgSpec {
    name: "max-tries",
    short: None,
    alias: None,
    kind: ArgKind::Number(ValueParser::Unsigned(0, 9_223_372_036_854_775_807)),
    help: "Try at most N paths for a FILE:\n\
        0 to 9223372036854775807 [default: 100000]",
    commands: NEEDS,
};

pub(crate) const LIBRARY_PATH: ArgSpec = ArgSpec {
    name: "library-path",
    short: None,
    alias: None,
    kind: ArgKind::Value("DIRS"),
    help: "Also search these directories, like those of\n\
        LD_LIBRARY_PATH for a loader",
    commands: NEEDS,
};

pub(crate) const DEFAULT: ArgSpec = ArgSpec {
    name: "default",
    short: None,
    alias: None,
    kind: ArgKind::Value("DIRS"),
    help: "Search these directories last, instead of those of\n\
        a system",
    commands: NEEDS,
};

pub(crate) const ROOT: ArgSpec = ArgSpec {
    name: "root",
    short: None,
    alias: Some("sysroot"),
    kind: ArgKind::Value("DIR"),
    help: "Take each path that begins with a slash relative\n\
        to DIR",
    commands: NEEDS,
};

pub(crate) const CACHE: ArgSpec = ArgSpec {
    name: "cache",
    short: None,
    alias: None,
    kind: ArgKind::Value("FILE"),
    help: "Search the loader's cache FILE,\n\
        not /etc/ld.so.cache",
    commands: NEEDS,
};

pub(crate) const NO_CACHE: ArgSpec = ArgSpec {
    name: "no-cache",
    short: None,
    alias: None,
    kind: ArgKind::Flag,
    help: "Search no loader's cache",
    commands: NEEDS,
};

pub(crate) const BINDINGS: ArgSpec = ArgSpec {
    name: "symbols",
    short: None,
    alias: Some("bindings"),
    kind: ArgKind::Flag,
    help: "Also print which object each symbol comes\n\
        from",
    commands: NEEDS,
};

pub(crate) const UNUSED: ArgSpec = ArgSpec {
    name: "unused",
    short: None,
    alias: None,
    kind: ArgKind::Flag,
    help: "Also print which libraries FILE names itself and\n\
        uses nothing of",
    commands: NEEDS,
};

pub(crate) const PROBLEMS: ArgSpec = ArgSpec {
    name: "problems",
    short: None,
    alias: None,
    kind: ArgKind::Flag,
    help: "Print only the lines that make the status 1",
    commands: NEEDS | RESOLVE,
};
