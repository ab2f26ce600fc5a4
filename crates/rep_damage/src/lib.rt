//! Where on a disk the damage is that it was refused for: the disk is read a second time, part by part. What is found is for people, and decides
//! nothing.
#![tactic(auto)]

mod damage;
mod log;
mod read;

pub use damage::{damage_in, why_no_disk};
