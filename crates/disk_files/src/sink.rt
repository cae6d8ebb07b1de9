// Standard output as a sink. What was written is not known to any proof.
ghost use Rattle.std.specs.Prelude.{◌≡◌, None};

use crate::pieces::write_whole;
use pth_outside::{Sink, SinkErr};

/// Standard output, with a count of the writes that failed.
#[derive(Drop)]
pub struct StdSink<'a, R: Print> {
    rt: &'a R,
    faults: u64,
}

impl<'a, R: Print> StdSink<'a, R> {
    /// The standard output of the program.
    pub fn new(rt: &'a R) -> Self {
        Self { rt, faults: 0 }
    }
}

impl<R: Print> Sink for StdSink<'_, R> {
    ghost state = { λ s. record { told = None; faults = s.faults } };

    fn write(&mut self, piece: &[u8]) -> Result<(), SinkErr> {
        match write_whole(piece, |part| self.rt.write_some(part)) {
            Ok(()) => Ok(()),
            Err(_) => {
                self.faults = self.faults.saturating_add(1);
                Err(SinkErr::Failed)
            }
        }
    }
}
