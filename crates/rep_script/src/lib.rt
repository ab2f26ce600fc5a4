//! What a node's program does, over any reader, writer and disk: it judges order texts, formats disks, runs scripts on
//! replicas, brings one node up to date by another, and reads and writes saved states. The program itself adds the command line, the files and the standard
//! streams. A program that drives replicas in its own way takes the lines of a script, and those of their answers, from
//! here one by one.
#![tactic(auto)]

mod answers;
mod catchup;
mod exchange;
mod format;
mod judge;
mod laws;
mod limits;
mod refused;
mod saved_file;
mod script;
mod script_line;
mod state;
mod sum;

pub use answers::{write_answer, write_line, write_open, write_state};
pub use catchup::{donated_text, join_text, write_have};
pub use exchange::{Waiting, send};
pub use format::format_text;
pub use judge::{judge_text, read_params};
pub use laws::reading_is_the_text_grammar;
pub use limits::write_limits;
pub use refused::write_refused;
pub use rep_catchup::{donate, donation_refusal};
pub use saved_file::read_saved;
pub use script::{on_new_disk, opened, run_on_disk, run_script};
pub use script_line::{Command, next_number, read_command, read_loss};
pub use state::state_text;
pub use sum::{answer_sum, sum_text, write_sum};
