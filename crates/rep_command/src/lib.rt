//! The command line of the program: what its words ask for.
#![tactic(auto)]

mod command_line;
mod format_options;
mod help;
mod serve_options;

pub use command_line::{FileTask, Task, USAGE, task_of};
pub use serve_options::Workers;
