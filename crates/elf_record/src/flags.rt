//! The flags of sections and of segments.
ghost use Rattle.std.specs.Prelude.{⊤, [], ◌∷◌, codes};

use bitflags::{Flag, Flags};

/// A section's flags, as the number `sh_flags` of a section header (gABI 4, Section Attribute
/// Flags).
///
/// Bits without a name are kept.
#[derive(Clone, Copy)]
pub struct SectionFlags(pub u64);

impl SectionFlags {
    /// The section is writable while the program runs.
    pub const WRITE: SectionFlags = SectionFlags(0x1);
    /// The section is in memory while the program runs.
    pub const ALLOC: SectionFlags = SectionFlags(0x2);
    /// The section has instructions.
    pub const EXECINSTR: SectionFlags = SectionFlags(0x4);
    /// Equal entries of the section may be merged.
    pub const MERGE: SectionFlags = SectionFlags(0x10);
    /// The section's entries are strings, each ended by a NUL.
    pub const STRINGS: SectionFlags = SectionFlags(0x20);
    /// `sh_info` is a section's index.
    pub const INFO_LINK: SectionFlags = SectionFlags(0x40);
    /// The section keeps its order relative to the one that `sh_link` names.
    pub const LINK_ORDER: SectionFlags = SectionFlags(0x80);
    /// The section needs treatment that the operating system defines.
    pub const OS_NONCONFORMING: SectionFlags = SectionFlags(0x100);
    /// The section belongs to a section group.
    pub const GROUP: SectionFlags = SectionFlags(0x200);
    /// The section has thread-local storage.
    pub const TLS: SectionFlags = SectionFlags(0x400);
    /// The section's bytes are compressed.
    pub const COMPRESSED: SectionFlags = SectionFlags(0x800);

    /// All flags that have a name.
    pub const FLAGS: &'static [Flag<SectionFlags>] = &[
        Flag {
            name: "WRITE",
            value: SectionFlags::WRITE,
        },
        Flag {
            name: "ALLOC",
            value: SectionFlags::ALLOC,
        },
        Flag {
            name: "EXECINSTR",
            value: SectionFlags::EXECINSTR,
        },
        Flag {
            name: "MERGE",
            value: SectionFlags::MERGE,
        },
        Flag {
            name: "STRINGS",
            value: SectionFlags::STRINGS,
        },
        Flag {
            name: "INFO_LINK",
            value: SectionFlags::INFO_LINK,
        },
        Flag {
            name: "LINK_ORDER",
            value: SectionFlags::LINK_ORDER,
        },
        Flag {
            name: "OS_NONCONFORMING",
            value: SectionFlags::OS_NONCONFORMING,
        },
        Flag {
            name: "GROUP",
            value: SectionFlags::GROUP,
        },
        Flag {
            name: "TLS",
            value: SectionFlags::TLS,
        },
        Flag {
            name: "COMPRESSED",
            value: SectionFlags::COMPRESSED,
        },
    ];
}

impl Flags for SectionFlags {
    type Bits = u64;

    ghost exact = { ⊤ };

    ghost table = { (codes "WRITE", 0x1) ∷ (codes "ALLOC", 0x2) ∷ (codes "EXECINSTR", 0x4)
        ∷ (codes "MERGE", 0x10) ∷ (codes "STRINGS", 0x20) ∷ (codes "INFO_LINK", 0x40)
        ∷ (codes "LINK_ORDER", 0x80) ∷ (codes "OS_NONCONFORMING", 0x100) ∷ (codes "GROUP", 0x200)
        ∷ (codes "TLS", 0x400) ∷ (codes "COMPRESSED", 0x800) ∷ [] };

    ghost set_of = { λ flags. flags.0 };

    fn flags<'a>() -> &'a [Flag<SectionFlags>] {
        SectionFlags::FLAGS
    }

    fn bits(&self) -> u64 {
        self.0
    }

    fn from_bits_retain(bits: u64) -> SectionFlags {
        SectionFlags(bits)
    }
}

/// A segment's flags, as the number `p_flags` of a program header (gABI 5, Segment Flag Bits).
///
/// Bits without a name are kept.
#[derive(Clone, Copy)]
pub struct SegmentFlags(pub u32);

impl SegmentFlags {
    /// The segment may be executed.
    pub const X: SegmentFlags = SegmentFlags(1);
    /// The segment may be written.
    pub const W: SegmentFlags = SegmentFlags(2);
    /// The segment may be read.
    pub const R: SegmentFlags = SegmentFlags(4);

    /// All flags that have a name.
    pub const FLAGS: &'static [Flag<SegmentFlags>] = &[
        Flag {
            name: "X",
            value: SegmentFlags::X,
        },
        Flag {
            name: "W",
            value: SegmentFlags::W,
        },
        Flag {
            name: "R",
            value: SegmentFlags::R,
        },
    ];
}

impl Flags for SegmentFlags {
    type Bits = u32;

    ghost exact = { ⊤ };

    ghost table = { (codes "X", 1) ∷ (codes "W", 2) ∷ (codes "R", 4) ∷ [] };

    ghost set_of = { λ flags. flags.0 };

    fn flags<'a>() -> &'a [Flag<SegmentFlags>] {
        SegmentFlags::FLAGS
    }

    fn bits(&self) -> u32 {
        self.0
    }

    fn from_bits_retain(bits: u32) -> SegmentFlags {
        SegmentFlags(bits)
    }
}
