//! Which constants are shown by name.
use elf_record::numbers::EM_X86_64;

/// Which constants are shown by name in the lines of a file: those of the standards alone, or those
/// of GNU too; and on which machine, since some names are for x86-64 alone.
#[derive(Clone, Copy)]
pub struct ConstantNames {
    /// Whether GNU constants have names.
    pub gnu: bool,
    /// The machine of the file (gABI 4, ELF Header).
    pub machine: u16,
}

impl ConstantNames {
    ghost use Rattle.std.specs.Prelude.{◌≡◌, ◌==◌, ◌&&◌, false};
    ghost use Rattle.elf_model.specs.Numbers.{EM_X86_64};

    /// Returns the names of the standards alone.
    pub fn standard(machine: u16) -> ConstantNames
        ensures gnu { result.gnu ≡ false }
        ensures machine { result.machine ≡ machine }
    {
        ConstantNames {
            gnu: false,
            machine,
        }
    }

    /// Returns `true` if GNU constants that are for x86-64 alone have names.
    pub(crate) fn is_gnu_on_x86_64(self) -> bool
        ensures { result ≡ (self.gnu && (self.machine == EM_X86_64)) }
    {
        self.gnu && self.machine == EM_X86_64
    }
}
