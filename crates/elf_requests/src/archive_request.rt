//! The exit status of the listing of an archive.
ghost use Rattle.std.specs.Prelude.{◌≡◌, ◌≤◌, IfOk};
ghost use Rattle.elf_requests.specs.ArchiveAnswers.{refused_by};

use elf_table::RunFault;

/// Returns the result of listing an archive as that of a run: status 1 if the listing of a member
/// was refused, otherwise 0.
pub fn archive_status(listed: Result<bool, RunFault>) -> Result<u8, RunFault>
    ensures status { IfOk result (λ status. status ≤ 1) }
    ensures refused { refused_by result ≡ listed }
{
    if listed? {
        return Ok(1);
    }
    Ok(0)
}
