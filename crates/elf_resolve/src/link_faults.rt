//! Why a link is refused, or its files cannot be read.
ghost use Rattle.std.specs.Prelude.{◌≡◌, ◌≤◌, length, Err, None, Option};
ghost use Rattle.elf_model.specs.LinkArchives.{link_cause_word, moved};
ghost use Rattle.elf_model.specs.declared.link_states.LinkRefusal.{LinkRefusal as LinkRefusal};
ghost use Rattle.elf_resolve.specs.LinkFaults.{MovesWithin, fault_of_key, fault_of_table};
ghost use Rattle.elf_resolve.specs.Taken.{IsLinkFault};

use crate::table::KeyFault;
use elf_format::cause_word;
use elf_model::{LinkCause, LinkRefusal};
use elf_record::Cause;
use elf_table::Fault;

/// Why a link stops before its end.
#[derive(Clone, Copy)]
pub enum LinkFault {
    /// A file is refused, or there is no room.
    Refused(LinkRefusal),
    /// A file cannot be read.
    Read,
    /// A file that was there cannot be opened.
    Open,
    /// Out of memory.
    Memory,
}

impl From<Fault> for LinkFault {
    ghost from_gives = { λ fault link_fault. link_fault ≡ fault_of_table fault };

    fn from(fault: Fault) -> LinkFault {
        match fault {
            Fault::Refused(refusal) => LinkFault::Refused(LinkRefusal {
                at: refusal.at,
                cause: LinkCause::Refused(refusal.cause),
            }),
            Fault::Source { .. } => LinkFault::Read,
        }
    }
}

/// Returns the refusal for a cause at a file offset as an error.
pub(crate) fn refused<T>(at: u64, cause: LinkCause) -> Result<T, LinkFault>
    ensures { result ≡ Err (LinkFault.Refused (record { at = at; cause = cause })) }
{
    Err(LinkFault::Refused(LinkRefusal { at, cause }))
}

/// Returns the refusal for a cause that a file has by itself.
pub(crate) fn file_refused<T>(at: u64, cause: Cause) -> Result<T, LinkFault>
    ensures { result
        ≡ Err (LinkFault.Refused (record { at = at; cause = LinkCause.Refused cause })) }
{
    refused(at, LinkCause::Refused(cause))
}

/// Returns the refusal for lack of room for a name, which is at a file offset.
pub(crate) fn full(at: u64, fault: KeyFault) -> LinkFault
    ensures is { result ≡ fault_of_key at fault }
    ensures limit { IsLinkFault None result }
{
    let cause = match fault {
        KeyFault::TooManyKeys | KeyFault::TooManyBytes => LinkCause::TooManyKeys,
        KeyFault::TooManyFurther => LinkCause::TooManyRows,
        KeyFault::OutOfMemory => return LinkFault::Memory,
    };
    LinkFault::Refused(LinkRefusal { at, cause })
}

/// Returns a fault of a member whose first byte is at an offset of its archive.
pub(crate) fn in_member(fault: LinkFault, start: u64) -> LinkFault
    ensures { (known : Option LinkRefusal) → MovesWithin start known → IsLinkFault known fault →
        IsLinkFault (moved start known) result }
{
    match fault {
        LinkFault::Refused(refusal) => LinkFault::Refused(LinkRefusal {
            at: refusal.at.saturating_add(start),
            cause: refusal.cause,
        }),
        LinkFault::Read | LinkFault::Open | LinkFault::Memory => fault,
    }
}

/// Returns the word for a cause in a line.
#[tactic(auto, unfolding(elf_model::specs::LinkArchives::link_cause_word))]
pub fn link_cause_word(cause: LinkCause) -> &'static str
    ensures word { result.now ≡ link_cause_word cause }
    ensures short { length result.now ≤ 18 }
{
    match cause {
        LinkCause::Refused(cause) => cause_word(cause),
        LinkCause::FileType => "type",
        LinkCause::Machine => "machine",
        LinkCause::Lto => "lto",
        LinkCause::ScriptFault => "script",
        LinkCause::IndexCut => "index-cut",
        LinkCause::IndexMember => "index-member",
        LinkCause::NoIndex => "no-index",
        LinkCause::TooManyKeys => "too-many-keys",
        LinkCause::TooManyRows => "too-many-rows",
    }
}
