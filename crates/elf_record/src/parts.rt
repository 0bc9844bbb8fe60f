//! The parts of a listing.
ghost use Rattle.std.specs.Int.RustNames.{bit_and};
ghost use Rattle.std.specs.Prelude.{◌≡◌, ⊤, [], ◌∷◌, codes};
ghost use Rattle.elf_model.specs.Listing.{all_parts};

use bitflags::{Flag, Flags};

/// A set of parts of a listing, as a number whose bits are the parts.
///
/// HEADER is 1, SECTIONS 2, SEGMENTS 4, SYMBOLS 8, RELOCS 16, NOTES 32, DYNAMIC 64, and in GNU
/// listings VERSIONS 128. Other bits have no meaning and are ignored.
#[derive(Clone, Copy)]
pub struct Parts(pub u16);

impl Parts {
    /// The file header.
    pub const HEADER: Parts = Parts(1);
    /// The section headers.
    pub const SECTIONS: Parts = Parts(2);
    /// The program headers.
    pub const SEGMENTS: Parts = Parts(4);
    /// The symbols.
    pub const SYMBOLS: Parts = Parts(8);
    /// The relocation entries.
    pub const RELOCS: Parts = Parts(16);
    /// The notes.
    pub const NOTES: Parts = Parts(32);
    /// The dynamic entries.
    pub const DYNAMIC: Parts = Parts(64);
    /// The symbol versions, of GNU listings only.
    pub const VERSIONS: Parts = Parts(128);

    /// All parts that have a name.
    pub const FLAGS: &'static [Flag<Parts>] = &[
        Flag {
            name: "HEADER",
            value: Parts::HEADER,
        },
        Flag {
            name: "SECTIONS",
            value: Parts::SECTIONS,
        },
        Flag {
            name: "SEGMENTS",
            value: Parts::SEGMENTS,
        },
        Flag {
            name: "SYMBOLS",
            value: Parts::SYMBOLS,
        },
        Flag {
            name: "RELOCS",
            value: Parts::RELOCS,
        },
        Flag {
            name: "NOTES",
            value: Parts::NOTES,
        },
        Flag {
            name: "DYNAMIC",
            value: Parts::DYNAMIC,
        },
        Flag {
            name: "VERSIONS",
            value: Parts::VERSIONS,
        },
    ];
}

impl Parts {
    /// Returns the parts of the set that listings know: all except the symbol versions, and in GNU
    /// listings (`gnu`) these too.
    pub fn known(self, gnu: bool) -> Parts
        ensures { result.0 ≡ bit_and self.0 (all_parts gnu) }
    {
        if gnu {
            Parts(self.0 & 255)
        } else {
            Parts(self.0 & 127)
        }
    }
}

impl Flags for Parts {
    type Bits = u16;

    ghost exact = { ⊤ };

    ghost table = { (codes "HEADER", 1) ∷ (codes "SECTIONS", 2) ∷ (codes "SEGMENTS", 4)
        ∷ (codes "SYMBOLS", 8) ∷ (codes "RELOCS", 16) ∷ (codes "NOTES", 32) ∷ (codes "DYNAMIC", 64)
        ∷ (codes "VERSIONS", 128) ∷ [] };

    ghost set_of = { λ parts. parts.0 };

    fn flags<'a>() -> &'a [Flag<Parts>] {
        Parts::FLAGS
    }

    fn bits(&self) -> u16 {
        self.0
    }

    fn from_bits_retain(bits: u16) -> Parts {
        Parts(bits)
    }
}
