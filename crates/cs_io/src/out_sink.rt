// Standard output, as a sink. It tells nothing of what was put.
ghost use Rattle.std.specs.Prelude.{◌≡◌, None, true};

use crate::sink::Sink;
use crate::store::Failed;
use std::io;
use std::io::Write;
use std::marker::Model;

/// The standard output of a runtime. Nothing is told of what it holds.
#[derive(Drop)]
pub struct OutSink<'a, R: Print> {
    rt: &'a R,
    faults: u64,
}

impl<'a, R: Print> Model for OutSink<'a, R> {
    ghost use Rattle.std.specs.Prelude.{None, true};
    ghost use Rattle.cs_io.specs.Sinks.{SinkState, sink_code};

    ghost Value = { SinkState };

    ghost coded = { sink_code };

    ghost view = { λ s. record { written = None; faults = s.faults; dry = 0; is_fallible = true } };
}

impl<'a, R: Print> OutSink<'a, R> {
    /// No call has failed yet.
    pub fn new(rt: &'a R) -> Self
        ensures { result ≡ record { written = None; faults = 0; dry = 0; is_fallible = true } }
    {
        OutSink { rt, faults: 0 }
    }
}

impl<'a, R: Print> Sink for OutSink<'a, R> {
    ghost state = { λ s. s };

    fn put(&mut self, bytes: &[u8]) -> Result<(), Failed> {
        let mut out = io::writer(self.rt);
        if out.write_all(bytes).is_ok() && out.flush().is_ok() {
            return Ok(());
        }
        self.faults = self.faults.saturating_add(1);
        Err(Failed)
    }
}
