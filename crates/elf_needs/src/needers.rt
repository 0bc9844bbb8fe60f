//! The directories in which a library that an object needs is searched.
ghost use Rattle.std.specs.Prelude.{◌≡◌, ◌<◌, ◌≤◌, ◌+◌, ◌++◌, [], length, option_map};
ghost use Rattle.std.specs.List.{cons_option};
ghost use Rattle.elf_needs.specs.Searching.{default_dirs, default_for, first_runpath, object_dirs, rpath_dirs, rpath_of, runpath_of, search_dirs};
ghost use Rattle.elf_needs.specs.Steps.{dirs_in, dirs_of, needer_of, needers_of};

use crate::search_path_list::SearchPathList;
use arrayvec::ArrayVec;
use elf_format::FoundBy;

/// An object that needs others: its DT_RPATH and its DT_RUNPATH, if it has them, the directory that
/// it is in (gABI 5, Shared Object Dependencies), and whether its needs are not searched for in the
/// default directories.
#[derive(Clone, Copy)]
pub struct NeedingObject<'a> {
    /// Its DT_RPATH.
    pub rpath: Option<&'a [u8]>,
    /// Its DT_RUNPATH.
    pub runpath: Option<&'a [u8]>,
    /// The directory that it is in.
    pub directory: &'a [u8],
    /// Whether its needs have no default directories: DF_1_NODEFLIB.
    pub nodeflib: bool,
}

impl<'a> Default for NeedingObject<'a> {
    ghost is_default = { λ n. n.directory.now ≡ [] };

    fn default() -> Self {
        NeedingObject {
            rpath: None,
            runpath: None,
            directory: b"",
            nodeflib: false,
        }
    }
}

/// Lists of directories, in the order in which they are searched.
pub type SearchPaths<'a> = ArrayVec<SearchPathList<'a>, 515>;

/// Returns the directories that a text of an object gives.
fn object_dirs<'a>(
    needer: &NeedingObject<'a>,
    text: &'a [u8],
    found_by: FoundBy,
) -> SearchPathList<'a>
    ensures { dirs_of result ≡ object_dirs needer.now.directory.now text.now found_by }
{
    SearchPathList {
        text,
        separator: b':',
        origin: Some(needer.directory),
        found_by,
    }
}

/// Returns what an object's own DT_RPATH gives: nothing if it has DT_RUNPATH.
fn rpath_of<'a>(needer: &NeedingObject<'a>) -> Option<SearchPathList<'a>>
    ensures { option_map dirs_of result ≡ rpath_of (needer_of needer.now) }
{
    if needer.runpath.is_some() {
        return None;
    }
    match needer.rpath {
        Some(text) => Some(object_dirs(needer, text, FoundBy::Rpath)),
        None => None,
    }
}

/// Returns what an object's DT_RUNPATH gives.
fn runpath_of<'a>(needer: &NeedingObject<'a>) -> Option<SearchPathList<'a>>
    ensures { option_map dirs_of result ≡ runpath_of (needer_of needer.now) }
{
    match needer.runpath {
        Some(text) => Some(object_dirs(needer, text, FoundBy::Runpath)),
        None => None,
    }
}

/// Returns the default directories.
fn default_dirs(text: &[u8]) -> SearchPathList<'_>
    ensures { dirs_of result ≡ default_dirs text.now }
{
    SearchPathList {
        text,
        separator: b':',
        origin: None,
        found_by: FoundBy::Default,
    }
}

/// Returns the default directories for what an object needs, the first of some.
#[tactic(auto, unfolding(crate::specs::Searching::default_for))]
fn default_for<'a>(needers: &[NeedingObject<'a>], default: &'a [u8]) -> &'a [u8]
    ensures { result.now ≡ default_for (needers_of needers.now) default.now }
{
    if let Some(needer) = needers.first() {
        if needer.nodeflib {
            return b"";
        }
    }
    default
}

/// Returns what DT_RUNPATH of the first of some objects gives.
#[tactic(auto, unfolding(crate::specs::Searching::first_runpath))]
fn first_runpath<'a>(needers: &[NeedingObject<'a>]) -> Option<SearchPathList<'a>>
    ensures { option_map dirs_of result ≡ first_runpath (needers_of needers.now) }
{
    match needers.first() {
        Some(needer) => runpath_of(needer),
        None => None,
    }
}

/// Appends directories, if there are any.
fn put_dirs<'a>(lists: &mut SearchPaths<'a>, list: Option<SearchPathList<'a>>)
    requires { length lists.old.items < 515 }
    ensures dirs { dirs_in lists.new.items
        ≡ dirs_in lists.old.items ++ cons_option (option_map dirs_of list.entry) [] }
    ensures len { length lists.new.items ≤ length lists.old.items + 1 }
{
    if let Some(list) = list {
        lists.push(list);
    }
}

/// Appends the lists of the directories in which a library is searched that an object needs, the
/// first of at most 512; after it comes the object that first needed it, and so on. The last list is
/// that of the default directories, and is empty if the object has none.
pub fn gather_dirs<'a>(
    needers: &[NeedingObject<'a>],
    library: SearchPathList<'a>,
    default: &'a [u8],
    lists: &mut SearchPaths<'a>,
)
    requires { length needers.now ≤ 512 }
    ensures { dirs_in lists.new.items
        ≡ search_dirs (dirs_of library.entry) default.now (needers_of needers.now) }
{
    let runpath = first_runpath(needers);
    lists.clear();
    if runpath.is_none() {
        gather_rpaths(needers, lists);
    }
    put_dirs(lists, Some(library));
    put_dirs(lists, runpath);
    put_dirs(lists, Some(default_dirs(default_for(needers, default))));
}

/// Appends what DT_RPATH of objects gives to no directories.
fn gather_rpaths<'a>(needers: &[NeedingObject<'a>], lists: &mut SearchPaths<'a>)
    requires few { length needers.now ≤ 512 }
    requires none { lists.old.items ≡ [] }
    ensures dirs { dirs_in lists.new.items ≡ rpath_dirs (needers_of needers.now) }
    ensures few { length lists.new.items ≤ 512 }
{
    for needer in needers {
        put_dirs(lists, rpath_of(needer));
    }
}
