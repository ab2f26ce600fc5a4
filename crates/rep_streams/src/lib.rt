//! Where bytes come from and go to: sources and sinks that note when they have failed, over any reader and writer, and in memory.
//!
//! Nothing is known of why a reader or a writer fails, so a call that answers a stream fault could claim one at any moment. Here a
//! failure is noted where it is met, and nowhere else: what stands above answers `StreamFault` only where a stream has noted one.
#![tactic(auto)]

mod memory;
mod sink;
mod source;

pub use memory::{MemorySink, MemorySource};
pub use sink::{Sink, WriterSink};
pub use source::{ReaderSource, Source};
