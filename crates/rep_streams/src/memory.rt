//! Sources and sinks in memory.

ghost use Rattle.std.specs.Prelude.{◌≡◌, [], true, false, Some};

use crate::sink::Sink;
use crate::source::Source;
use rep_types::Refusal;
use std::alloc::Global;
use std::io::Read;
use std::marker::Model;

/// Bytes in memory as a source, which never fails.
#[derive(Drop)]
pub struct MemorySource<'a> {
    bytes: &'a [u8],
}

impl<'a> MemorySource<'a> {
    ghost use Rattle.rep_streams.specs.Inside.{bytes_left};

    /// These bytes.
    pub fn new(bytes: &'a [u8]) -> MemorySource<'a>
        ensures { bytes_left result ≡ bytes.now }
    {
        MemorySource { bytes }
    }
}

impl Source for MemorySource<'_> {
    ghost remaining = { λ s. Some s.bytes.now };

    ghost failed = { λ _. false };

    fn read(&mut self, room: &mut [u8]) -> Result<usize, Refusal> {
        match self.bytes.read(room) {
            Ok(count) => Ok(count),
            Err(_) => unreachable!(),
        }
    }
}

/// A sink in memory, which fails only for want of room.
#[derive(Drop)]
pub struct MemorySink {
    bytes: Vec<u8>,
    failed: bool,
}

impl Model for MemorySink {
    ghost use Rattle.rep_streams.specs.Streams.{Held};

    ghost Value = { Held };

    ghost view = { λ s. record { bytes = s.bytes.items; failed = s.failed } };
}

impl MemorySink {
    /// A sink that holds nothing yet.
    pub fn new(alloc: Global) -> MemorySink
        ensures { result ≡ record { bytes = []; failed = false } }
    {
        MemorySink {
            bytes: Vec::new(alloc),
            failed: false,
        }
    }

    /// What it holds.
    pub fn bytes(&self) -> &[u8]
        ensures { result.now ≡ self.now.bytes }
    {
        self.bytes.as_slice()
    }
}

impl Sink for MemorySink {
    ghost contents = { λ s. Some s.bytes };

    ghost failed = { λ s. s.failed };

    /// What has no room is not taken in part.
    fn put(&mut self, bytes: &[u8]) -> Result<(), Refusal> {
        if self.bytes.extend_from_slice(bytes).is_err() {
            self.failed = true;
            return Err(Refusal::StreamFault);
        }
        Ok(())
    }

    fn give_up(&mut self) -> Refusal {
        self.failed = true;
        Refusal::StreamFault
    }
}
