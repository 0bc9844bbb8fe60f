//! What the programs share: the commands and their arguments, as tables from which the command line
//! is built, and [`parse_arguments`]; [`CommandArgs`], what the arguments request, and
//! [`usage_fault`], their first fault; the file that is opened, and the buffers for it; the output
//! that is written last; and [`outcome`] and [`exit`], the exit status and the line on standard
//! error.
#![tactic(auto)]

mod arg_specs;
mod arguments;
mod builder;
mod cause_texts;
mod command_args;
mod command_sets;
mod commands;
mod exit_lines;
mod explain;
mod faults;
mod files;
mod line_sink;
mod link_texts;
mod listings;
mod needs_arguments;
mod options;
mod other_tools;
mod outputs;
mod parser;
mod part_names;
mod place_numbers;
mod program_arguments;
mod resolve_arguments;
mod state_texts;
mod texts;
mod usage_errors;
mod usage_faults;
mod version;

pub use command_args::{CommandArgs, CommandName, read_args};
pub use exit_lines::{
    CANNOT_OPEN, ExitLine, OUT_OF_MEMORY, READ_FAULT, WRITE_FAULT, exit, outcome,
};
pub use explain::report_explanations;
pub use faults::RequestFault;
pub use files::{allocate, allocate_pages, open, open_by_pages};
pub use line_sink::LineSink;
pub use listings::parse_show;
pub use outputs::{
    ERROR_LINE_BYTES, OUTPUT_BYTES, PIPE_BYTES, RunEnd, end_answer, end_lines, end_run, write_rest,
};
pub use parser::parse_arguments;
pub use program_arguments::{read_words, report_refused};
pub use usage_errors::request_fault;
pub use usage_faults::{UsageFault, usage_fault};
pub use version::report_version;
