//! Sets of commands: which of them have an argument. Each command has a bit.

pub(crate) const SHOW: u16 = 1;

pub(crate) const SAMPLE: u16 = 2;

pub(crate) const FIND: u16 = 4;

pub(crate) const APPLY: u16 = 8;

pub(crate) const CHECK: u16 = 16;

pub(crate) const LIST: u16 = 32;

pub(crate) const TRAITS: u16 = 64;

pub(crate) const NEEDS: u16 = 128;

pub(crate) const ARCHIVE: u16 = 256;

pub(crate) const EXPLAIN: u16 = 512;

pub(crate) const VERSION: u16 = 1024;

pub(crate) const BYTES: u16 = 2048;

pub(crate) const IMAGE: u16 = 4096;

pub(crate) const RESOLVE: u16 = 8192;

/// Those that read the file that an argument names.
pub(crate) const ONE_FILE: u16 = SHOW | FIND | APPLY | BYTES | IMAGE | ARCHIVE;

/// Those that read many files.
pub(crate) const MANY_FILES: u16 = CHECK | LIST | TRAITS | NEEDS;

/// Those that read a file.
pub(crate) const READING: u16 = ONE_FILE | SAMPLE | MANY_FILES;

/// Those that write lines.
pub(crate) const LINES: u16 = LISTING | FIND | TRAITS | NEEDS;

/// Those that list the tables of a file, or check them as a listing does.
pub(crate) const LISTING: u16 = SHOW | SAMPLE | CHECK | LIST | ARCHIVE;

/// Those whose rows may be selected.
pub(crate) const SELECTING: u16 = SHOW | LIST | ARCHIVE;
