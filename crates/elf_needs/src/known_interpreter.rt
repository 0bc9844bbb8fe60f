//! The program's interpreter among its objects.
ghost use Rattle.std.specs.Prelude.{◌≡◌, [], slice_index_or};
ghost use Rattle.elf_needs.specs.Called.{interpreter_object, is_interpreter_file, is_interpreter_name};

use crate::known_object::{ObjectList, is_text};
use crate::object_reports::{ObjectReport, report_alone};
use elf_format::ObjectState;
use elf_library::{FileIdentity, is_file};

/// The interpreter that the program names. It is an object only if it is needed by name.
#[derive(Clone, Copy)]
pub(crate) struct Interpreter {
    /// The index of its path, as the program has it.
    pub name: u32,
    /// The index of the path that is shown.
    pub path: u32,
    /// Whether it is found.
    pub is_found: bool,
    /// How it is linked, if it is an object.
    pub report: ObjectReport,
    /// Which file it is, if that is known.
    pub file: Option<FileIdentity>,
    /// The index of the object that it is, if it is one.
    pub object: Option<u16>,
}

impl ObjectList {
    /// Stores the path of the interpreter that the program names, which is not found yet. Returns
    /// whether there is room for it.
    pub(crate) fn name_interpreter(&mut self, path: &[u8]) -> bool {
        let Some(name) = self.keep_path(path) else {
            return false;
        };
        self.interpreter = Some(Interpreter {
            name,
            path: name,
            is_found: false,
            report: report_alone(ObjectState::Missing),
            file: None,
            object: None,
        });
        true
    }

    /// Returns the path at an index, or the empty text if there is none.
    pub(crate) fn path(&self, index: u32) -> &[u8]
        ensures { result.now ≡ slice_index_or self.now.paths.texts index [] }
    {
        self.paths.get(index)
    }

    /// Returns `true` if a name is that of the interpreter, if it is found: its path, as the program
    /// has it, or its DT_SONAME.
    pub(crate) fn is_interpreter_name(&self, name: &[u8]) -> bool
        ensures { result ≡ is_interpreter_name self.now name.now }
    {
        match &self.interpreter {
            Some(interpreter) => {
                interpreter.is_found
                    && (is_text(Some(self.paths.get(interpreter.name)), name)
                        || is_text(self.text(interpreter.report.links.soname), name))
            }
            None => false,
        }
    }

    /// Returns `true` if a file is that of the interpreter.
    pub(crate) fn is_interpreter_file(&self, file: Option<FileIdentity>) -> bool
        ensures { result ≡ is_interpreter_file self.now file }
    {
        match (&self.interpreter, file) {
            (Some(interpreter), Some(file)) => is_file(interpreter.file, file),
            _ => false,
        }
    }

    /// Returns the index of the object that the interpreter is, if it is one.
    pub(crate) fn interpreter_object(&self) -> Option<u16>
        ensures { result ≡ interpreter_object self.now }
    {
        let Some(interpreter) = &self.interpreter else {
            return None;
        };
        match interpreter.object {
            Some(object) => Some(object),
            None => self.with_file(interpreter.file),
        }
    }
}
