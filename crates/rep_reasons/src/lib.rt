//! Why the program ended: what it says on standard error behind a fault line, for people. Nothing of it changes what comes on standard output.
#![tactic(auto)]

mod cause;
mod fault;
mod limits;
mod line;
mod noted;
mod noted_file;
mod patient;
mod system;
mod text;
mod words;

pub use cause::{Cause, Damage};
pub use fault::{Fault, INPUT, OUTPUT, Reason};
pub use limits::Outside;
pub use noted::Noted;
pub use noted_file::NotedFile;
pub use patient::Patient;
pub use text::{Form, Text, WrongLine};
