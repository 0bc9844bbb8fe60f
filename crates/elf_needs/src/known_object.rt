//! The objects that are known so far.
ghost use Rattle.std.specs.Prelude.{◌≡◌, ◌++◌, ◌∷◌, [], IfSome, is_some, length, option_map, position, slice_get, true};
ghost use Rattle.elf_library.specs.Prelude.{with_text};
ghost use Rattle.elf_needs.specs.Called.{HoldsNothing, IsDirOfObject, alias_of, aliased, called_by, first_called, is_alias, is_called, is_text, index_by_short_name, is_object_file, object_by_file, text_told};

use crate::known_interpreter::Interpreter;
use crate::paths::dir_of_path;
use elf_format::{FoundBy, ObjectState};
use elf_library::{FileIdentity, LinkInfo, LinkInfoStore, NeededLibrary, StringArena, is_file};
use std::alloc::{AllocError, Global};

/// The maximum number of objects of a program.
pub const MOST_OBJECTS: usize = 512;

/// How many bytes of paths, and how many paths, there is room for: 4,096 for each object, and for
/// the interpreter's path, as the program has it and as it is shown.
const PATH_ROOM: u32 = 2_105_344;

const MOST_PATHS: u32 = 514;
/// How many bytes of texts, and how many texts, there is room for, shared by all objects: 8,192 and
/// 64 for each.
const TEXT_ROOM: u32 = 4_194_304;

const MOST_TEXTS: u32 = 32_768;

/// An object: where it is, and what it needs.
#[derive(Clone, Copy)]
pub(crate) struct KnownObject {
    /// The index of the object that first needed it.
    pub needer: Option<u16>,
    /// The index of the name by which it was first needed.
    pub name: Option<u32>,
    /// The index of its path, whose directory replaces `$ORIGIN`.
    pub path: Option<u32>,
    /// Which file it is, if it is found and that is known.
    pub file: Option<FileIdentity>,
    /// Its state.
    pub state: ObjectState,
    /// How it was found, if it was.
    pub found_by: Option<FoundBy>,
    /// What its dynamic entries give.
    pub links: LinkInfo,
    /// The first of its needs, and the one after its last.
    pub needs: usize,
    pub needs_end: usize,
}

/// One more name of an object, under which its file was found again.
#[derive(Clone, Copy)]
pub(crate) struct ObjectAlias {
    /// The index of the name.
    pub name: u32,
    /// The index of the object.
    pub object: u16,
}

/// The objects that are known, with their texts, in memory that is allocated once.
#[derive(Drop)]
pub struct ObjectList {
    /// What their dynamic entries give.
    pub(crate) links: LinkInfoStore,
    pub(crate) paths: StringArena,
    known: Vec<KnownObject>,
    aliases: Vec<ObjectAlias>,
    /// The interpreter that the program names, if it names one.
    pub(crate) interpreter: Option<Interpreter>,
}

impl ObjectList {
    /// Creates an empty list of objects. Allocates its memory from `alloc`: for each of 512 objects
    /// 4,096 bytes of paths, 8,192 of texts, 2,056 for the locations of texts and needs and for more
    /// names, and its record.
    ///
    /// # Errors
    /// Out of memory.
    pub(crate) fn new(alloc: Global) -> Result<ObjectList, AllocError> {
        Ok(ObjectList {
            links: LinkInfoStore::new(alloc, TEXT_ROOM, MOST_TEXTS)?,
            paths: StringArena::new(alloc, PATH_ROOM, MOST_PATHS)?,
            known: Vec::with_capacity(alloc, MOST_OBJECTS)?,
            aliases: Vec::with_capacity(alloc, MOST_TEXTS as usize)?,
            interpreter: None,
        })
    }

    /// Removes all objects and their texts. Its memory is kept.
    pub(crate) fn clear(&mut self)
        ensures { HoldsNothing self.new }
    {
        self.links.clear();
        self.paths.clear();
        self.known.clear();
        self.aliases.clear();
        self.interpreter = None;
    }

    /// Returns the number of objects.
    pub(crate) fn len(&self) -> usize
        ensures { result ≡ length self.now.known.items }
    {
        self.known.len()
    }

    /// Returns the objects, in the order in which they were needed.
    pub(crate) fn known(&self) -> &[KnownObject]
        ensures { result.now ≡ self.now.known.items }
    {
        &self.known
    }

    /// Returns the object at an index, if there is one.
    pub(crate) fn get(&self, index: usize) -> Option<KnownObject>
        ensures { result ≡ slice_get self.now.known.items index }
    {
        match self.known.get(index) {
            Some(known) => Some(*known),
            None => None,
        }
    }

    /// Stores a path, and returns its index, or `None` if there is no room for it.
    pub(crate) fn keep_path(&mut self, path: &[u8]) -> Option<u32>
        ensures kept { IfSome result (λ index. self.new.paths ≡ with_text self.old.paths path.now) }
        ensures index { IfSome result (λ index. index ≡ length self.old.paths.texts) }
        ensures same { (self.new.known ≡ self.old.known) × (self.new.links ≡ self.old.links) }
    {
        self.paths.push(path)
    }

    /// Adds an object after the others. Returns its index, or `None` if there are 512.
    pub(crate) fn add(&mut self, known: KnownObject) -> Option<u16>
        ensures added { IfSome result (λ index.
            self.new.known.items ≡ self.old.known.items ++ known ∷ []) }
        ensures index { IfSome result (λ index. index ≡ length self.old.known.items) }
        ensures same { (self.new.paths ≡ self.old.paths) × (self.new.links ≡ self.old.links) }
    {
        if self.known.len() >= MOST_OBJECTS {
            return None;
        }
        let Ok(index) = u16::try_from(self.known.len()) else {
            return None;
        };
        if self.known.push(known).is_err() {
            return None;
        }
        Some(index)
    }

    /// Returns the need at an index, if there is one.
    pub(crate) fn need(&self, index: usize) -> Option<NeededLibrary>
        ensures { result ≡ slice_get self.now.links.needs index }
    {
        self.links.need(index)
    }

    /// Returns the text at an index, if one is given.
    pub(crate) fn text(&self, index: Option<u32>) -> Option<&[u8]>
        ensures { option_map (λ t. t.now) result
            ≡ text_told self.now.links.held.texts index }
    {
        match index {
            Some(index) => Some(self.links.text(index)),
            None => None,
        }
    }

    /// Returns the path at an index, if one is given.
    pub(crate) fn path_at(&self, index: Option<u32>) -> Option<&[u8]>
        ensures { option_map (λ t. t.now) result ≡ text_told self.now.paths.texts index }
    {
        match index {
            Some(index) => Some(self.paths.get(index)),
            None => None,
        }
    }

    /// Returns the directory of an object, which replaces `$ORIGIN`.
    pub(crate) fn directory(&self, known: &KnownObject) -> &[u8]
        ensures { IsDirOfObject self.now.paths.texts known.now.path result.now }
    {
        self.directory_of(known.path)
    }

    /// Returns the directory of the path at an index.
    pub(crate) fn directory_of(&self, path: Option<u32>) -> &[u8]
        ensures { IsDirOfObject self.now.paths.texts path result.now }
    {
        match path {
            Some(path) => dir_of_path(self.paths.get(path)),
            None => b".",
        }
    }

    /// Adds one more name of an object. Returns whether there is room for it.
    pub(crate) fn add_alias(&mut self, name: u32, object: u16) -> bool
        ensures added { result ≡ true → self.new.aliases.items
            ≡ self.old.aliases.items ++ record { name = name; object = object } ∷ [] }
        ensures objects { self.new.known ≡ self.old.known }
        ensures texts { (self.new.paths ≡ self.old.paths) × (self.new.links ≡ self.old.links) }
        ensures interpreter { self.new.interpreter ≡ self.old.interpreter }
    {
        if self.aliases.len() >= MOST_TEXTS as usize {
            return false;
        }
        self.aliases.push(ObjectAlias { name, object }).is_ok()
    }

    /// Returns the index of the first object that is a file, if one is.
    pub(crate) fn with_file(&self, file: Option<FileIdentity>) -> Option<u16>
        ensures { result ≡ object_by_file self.now file }
    {
        match file {
            Some(file) => index_by_short_name(self.position_by_file(file)),
            None => None,
        }
    }

    /// Returns the position of the first object that is a file.
    fn position_by_file(&self, file: FileIdentity) -> Option<usize>
        ensures { result ≡ position (is_object_file file) self.now.known.items }
    {
        self.known
            .iter()
            .position(|known| is_object_file(known, file))
    }

    /// Returns the directory of the program, which replaces `$ORIGIN` in a library path.
    pub(crate) fn program_directory(&self) -> &[u8] {
        match self.known.first() {
            Some(program) => self.directory(program),
            None => b".",
        }
    }

    /// Returns `true` if an object has a name: it was needed by it, or it is its DT_SONAME, or one
    /// of its other names.
    pub(crate) fn has_name(&self, name: &[u8]) -> bool
        ensures { result ≡ is_some (first_called self.now name.now) }
    {
        self.first_called(name).is_some()
    }

    /// Returns the index of the first object that has a name.
    pub(crate) fn called(&self, name: &[u8]) -> Option<u16>
        ensures { result ≡ called_by self.now name.now }
    {
        index_by_short_name(self.first_called(name))
    }

    /// Returns the position of the first object that has a name.
    fn first_called(&self, name: &[u8]) -> Option<usize>
        ensures { result ≡ first_called self.now name.now }
    {
        match self.alias_of(name) {
            Some(object) => Some(usize::from(object)),
            None => self.first_named(name),
        }
    }

    /// Returns the index of the object of which a name is one more.
    fn alias_of(&self, name: &[u8]) -> Option<u16>
        ensures { result ≡ alias_of self.now name.now }
    {
        match self.first_alias(name) {
            Some(place) => self.aliased(place),
            None => None,
        }
    }

    /// Returns the object of one more name, by its position.
    fn aliased(&self, place: usize) -> Option<u16>
        ensures { result ≡ aliased self.now.aliases.items place }
    {
        match self.aliases.get(place) {
            Some(alias) => Some(alias.object),
            None => None,
        }
    }

    /// Returns the position of the first of more names that is a name.
    fn first_alias(&self, name: &[u8]) -> Option<usize>
        ensures { result
            ≡ position (is_alias self.now.links.held.texts name.now) self.now.aliases.items }
    {
        self.aliases
            .iter()
            .position(|alias| self.is_alias(alias, name))
    }

    /// Returns `true` if one of more names is a name.
    fn is_alias(&self, alias: &ObjectAlias, name: &[u8]) -> bool
        ensures { result ≡ is_alias self.now.links.held.texts name.now alias.now }
    {
        is_text(self.text(Some(alias.name)), name)
    }

    /// Returns the position of the first object that was needed by a name or has it.
    fn first_named(&self, name: &[u8]) -> Option<usize>
        ensures { result
            ≡ position (is_called self.now.links.held.texts name.now) self.now.known.items }
    {
        self.known
            .iter()
            .position(|known| self.is_called(known, name))
    }

    /// Returns `true` if one object has a name.
    fn is_called(&self, known: &KnownObject, name: &[u8]) -> bool
        ensures { result ≡ is_called self.now.links.held.texts name.now known.now }
    {
        is_text(self.text(known.name), name) || is_text(self.text(known.links.soname), name)
    }
}

/// Returns `true` if an object is a file.
fn is_object_file(known: &KnownObject, file: FileIdentity) -> bool
    ensures { result ≡ is_object_file file known.now }
{
    is_file(known.file, file)
}

/// Returns an index of 16 bits, if it is one.
fn index_by_short_name(found: Option<usize>) -> Option<u16>
    ensures { result ≡ index_by_short_name found }
{
    match found {
        Some(index) if index < 1 << 16 => Some(index as u16),
        Some(_) | None => None,
    }
}

/// Returns `true` if a text is given, and equals a name.
pub(crate) fn is_text(text: Option<&[u8]>, name: &[u8]) -> bool
    ensures { result ≡ is_text (option_map (λ t. t.now) text.entry) name.now }
{
    match text {
        Some(text) => text.len() == name.len() && text == name,
        None => false,
    }
}
