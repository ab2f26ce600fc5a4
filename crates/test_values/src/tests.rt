//! A file for each library.

mod cert;
mod layout;
mod lines;
mod pages;
mod plain;
mod record;
mod requests;
mod rows;
mod saved;
mod types;
mod versions;
mod windows;
