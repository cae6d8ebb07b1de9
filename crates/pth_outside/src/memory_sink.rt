// A sink in memory, of which chosen writes fail.
ghost use Rattle.std.specs.Prelude.{◌≡◌, ◌≤◌, Some, []};
ghost use Rattle.pth_outside.specs.MemorySink.{WriteEnds};

use crate::{Sink, SinkErr};
use std::alloc::Global;
use std::marker::Model;

/// A sink in memory. Its writes are numbered from 0, and those whose number is listed fail.
#[derive(Drop)]
pub struct MemSink {
    bytes: Vec<u8>,
    fails: Vec<u64>,
    calls: u64,
    faults: u64,
}

impl Model for MemSink {
    ghost use Rattle.pth_outside.specs.MemorySink.{WrittenSink};

    ghost Value = { WrittenSink };

    ghost view = { λ s. record {
      bytes = s.bytes.items;
      fails = s.fails.items;
      calls = s.calls;
      faults = s.faults;
    } };
}

impl MemSink {
    /// Nothing is written. The writes whose numbers `fails` lists fail.
    pub fn new(alloc: Global, fails: Vec<u64>) -> Self
        ensures { result ≡ record { bytes = []; fails = fails.items; calls = 0; faults = 0 } }
    {
        MemSink {
            bytes: Vec::new(alloc),
            fails,
            calls: 0,
            faults: 0,
        }
    }

    /// All that is written.
    pub fn bytes(&self) -> &[u8]
        ensures { result.now ≡ self.now.bytes }
    {
        &self.bytes
    }
}

impl Sink for MemSink {
    ghost state = { λ s. record { told = Some s.bytes; faults = s.faults } };

    fn write(&mut self, piece: &[u8]) -> Result<(), SinkErr>
        ensures ends { WriteEnds piece.now self.old self.new result }
        ensures later { self.old.faults ≤ self.new.faults }
    {
        let fails = self.fails.contains(&self.calls);
        self.calls = self.calls.saturating_add(1);
        let kept = if fails { piece.len() / 2 } else { piece.len() };
        self.bytes.extend_from_slice(&piece[..kept])?;
        if fails {
            self.faults = self.faults.saturating_add(1);
            return Err(SinkErr::Failed);
        }
        Ok(())
    }
}
