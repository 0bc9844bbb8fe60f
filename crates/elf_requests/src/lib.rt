//! What can be requested on a command line: [`request`] parses arguments to a [`ParsedCommand`],
//! and [`run`] carries out the [`Request`] for one file: a listing, a lookup of a name, a lookup as
//! a loader does it, a section with its relocations applied, or the bytes of a section or of a
//! program header.
#![tactic(auto)]

mod apply_request;
mod archive_request;
mod bytes_request;
mod find_request;
mod items;
mod names;
mod parsed_command;
mod requests;
mod resolve_request;
mod run_request;
mod trait_words;
mod words;

pub use archive_request::archive_status;
pub use elf_cli::{RequestFault, outcome};
pub use elf_table::RunFault;
pub use names::{checked_name, checked_symbol};
pub use parsed_command::{ApplyWithLayout, CommandRequest, ParsedCommand};
pub use requests::{LookupName, LookupSymbol, Request, Task};
pub use run_request::run;
pub use words::request;
