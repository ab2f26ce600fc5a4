//! A batch is handed in by several workers, with a keeper beside; or items are handed in one by one by the one seat of a node, and rows
//! are read between them; or a replica alone is read and written by sessions.

mod batches;
mod beside;
mod devices;
mod limits;
mod paces;
mod reads;
mod replicas;
mod running;
mod sessions;
mod steps;
