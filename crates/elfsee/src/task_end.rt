//! How the program ends that carries out a task.
ghost use Rattle.std.specs.Prelude.{◌≡◌};
ghost use Rattle.elf_cli.specs.Prelude.{ProgramEnds};
ghost use Rattle.elfsee.specs.Ends.{EndsTask, lacks_section};

use elf_cli::ExitLine;
use elf_requests::Task;
use elf_table::RunFault;

/// No section has the name whose bytes are requested.
const NO_SECTION: ExitLine = (1, "elfsee: no such section");

/// Returns how the program ends whose run of a task ended so: with a message if the bytes of a
/// section are requested and no section has its name, unless the output failed.
pub fn task_ending(
    task: &Task<'_>,
    answer: &Result<u8, RunFault>,
    failed: bool,
    ending: ExitLine,
) -> ExitLine
    requires { ProgramEnds answer.now failed ending.0 ending.1.now }
    ensures { EndsTask task.now answer.now failed result.0 result.1.now }
{
    if lacks_section(task, answer) && !failed {
        return NO_SECTION;
    }
    ending
}

/// Returns `true` if the bytes of a section are requested and no section has its name: their status
/// is 1 only then.
#[tactic(auto, unfolding(crate::specs::Ends::lacks_section))]
fn lacks_section(task: &Task<'_>, answer: &Result<u8, RunFault>) -> bool
    ensures { result ≡ lacks_section task.now answer.now }
{
    match (task, answer) {
        (Task::Bytes { .. }, Ok(status)) => *status == 1,
        _ => false,
    }
}
