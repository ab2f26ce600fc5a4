//! A disk's file of which a sync failed is written anew before anything of it is trusted; and what that wants: names of files, and files that are made beside
//! a name and then take it.
#![tactic(auto)]

mod beside;
mod name;
mod renewal;

pub use beside::{Beside, NEW_RIGHTS, OWN_RIGHTS};
pub use name::{
    Identity, Unnamed, answered, found_at, found_itself, is_standard_output, is_stream, meant_by,
    named, refused, remove_file,
};
pub use renewal::{Trusted, trusted_file};
