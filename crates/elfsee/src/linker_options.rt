//! The options of a linker that have a value.

/// Options with a value: the letter of each, and its long name.
const VALUED: [(char, &str); 4] = [
    ('l', "library"),
    ('L', "library-path"),
    ('u', "undefined"),
    ('e', "entry"),
];

/// The beginnings of long options that may have one hyphen, and begin with the letter of another.
const LONG: [&str; 13] = [
    "eh-frame-hdr",
    "export-dynamic",
    "emit-relocs",
    "embedded-relocs",
    "enable-",
    "end-group",
    "error-",
    "exclude-libs",
    "ld-generated-",
    "unique",
    "unresolved-symbols",
    "undefined-version",
    "littleendian",
];

/// Options that change nothing here. The value of each is the next argument if it is not attached.
pub(crate) const PASSED: [&str; 57] = [
    "a",
    "A",
    "architecture",
    "assert",
    "audit",
    "auxiliary",
    "compress-debug-sections",
    "ctf-share-types",
    "depaudit",
    "dependency-file",
    "dynamic-linker",
    "dynamic-list",
    "error-handling-script",
    "exclude-libs",
    "export-dynamic-symbol",
    "export-dynamic-symbol-list",
    "f",
    "F",
    "filter",
    "fini",
    "flto-partition",
    "fuse-ld",
    "gpsize",
    "h",
    "hash-size",
    "hash-style",
    "I",
    "ignore-unresolved-symbol",
    "init",
    "m",
    "Map",
    "max-cache-size",
    "o",
    "O",
    "oformat",
    "orphan-handling",
    "out-implib",
    "output",
    "P",
    "plugin",
    "plugin-opt",
    "retain-symbols-file",
    "rpath",
    "rpath-link",
    "section-start",
    "soname",
    "sort-section",
    "spare-dynamic-tags",
    "sysroot",
    "task-link",
    "trace-symbol",
    "unresolved-symbols",
    "version-exports-section",
    "version-script",
    "y",
    "Y",
    "z",
];

/// Returns the name of an option, after one or two hyphens.
pub(crate) fn option_name(word: &str) -> &str {
    if let Some(name) = word.strip_prefix("--") {
        return name;
    }
    match word.strip_prefix('-') {
        Some(name) => name,
        None => word,
    }
}

/// Returns the letter and the value of an option with one letter or its long name, and how many
/// arguments it has.
pub(crate) fn value_of<'w>(
    word: &str,
    name: &'w str,
    next: Option<&'w str>,
) -> Option<(char, &'w str, usize)> {
    for (letter, long) in VALUED {
        if let Some((value, count)) = value_by(word, name, next, letter, long) {
            return Some((letter, value, count));
        }
    }
    None
}

/// Returns the value of an option with a letter or its long name, and how many arguments it has, if
/// it is that one.
fn value_by<'w>(
    word: &str,
    name: &'w str,
    next: Option<&'w str>,
    letter: char,
    long: &str,
) -> Option<(&'w str, usize)> {
    if name == long {
        return Some((next.unwrap_or(""), 2));
    }
    if let Some(value) = long_value(name, long) {
        return Some((value, 1));
    }
    let value = letter_value(word, name, letter)?;
    if value.is_empty() {
        return Some((next.unwrap_or(""), 2));
    }
    Some((value, 1))
}

/// Returns what follows a long name and an equals sign.
fn long_value<'w>(name: &'w str, long: &str) -> Option<&'w str> {
    let rest = name.strip_prefix(long)?;
    rest.strip_prefix('=')
}

/// Returns what follows a letter after one hyphen, unless it is a long option.
fn letter_value<'w>(word: &str, name: &'w str, letter: char) -> Option<&'w str> {
    if word.starts_with("--") || is_long(name) {
        return None;
    }
    name.strip_prefix(letter)
}

/// Returns `true` if a name begins as a long option does.
fn is_long(name: &str) -> bool {
    for long in LONG {
        if name.starts_with(long) {
            return true;
        }
    }
    false
}
