//! Zeros in place of the fields of a file header that locate section headers.
ghost use Rattle.std.specs.Prelude.{◌≡◌, if◌then◌else◌};
ghost use Rattle.elf_model.specs.Style.{tells_of_sections, without_sections_from};

/// The size of a file header in bytes.
const HEADER_BYTES: u64 = 64;

/// Writes zeros over those of `bytes` that locate section headers. They are a file's bytes at
/// offset `at`.
pub(crate) fn hide(at: u64, bytes: &mut [u8])
    ensures { bytes.new ≡ without_sections_from at bytes.old }
{
    if at >= HEADER_BYTES {
        return;
    }
    for index in 0..bytes.len() {
        bytes[index] = hidden(at + index as u64, bytes[index]);
    }
}

/// Returns the byte at an offset of a file, or 0 where a file header locates section headers:
/// e_shoff, 40 to 47, and e_shnum and e_shstrndx, 60 to 63 (gABI 4, ELF Header).
#[tactic(auto, unfolding(elf_model::specs::Style::tells_of_sections))]
fn hidden(place: u64, byte: u8) -> u8
    ensures { result ≡ (if tells_of_sections place then 0 else byte) }
{
    if (place >= 40 && place < 48) || (place >= 60 && place < 64) {
        return 0;
    }
    byte
}
