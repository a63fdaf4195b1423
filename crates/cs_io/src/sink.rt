// A sink of bytes.
ghost use Rattle.std.specs.Prelude.{◌≡◌, OnOk, OnErr};
ghost use Rattle.cs_io.specs.Sinks.{SinkState, appended, FailsToPut};

use crate::store::Failed;

/// A place where bytes are put one behind the other.
pub trait Sink {
    /// The bytes that were put, how many puts failed and how many of them for want of memory, and whether a put may
    /// fail for another cause.
    ghost state: { Self → SinkState };

    /// Puts these bytes behind the others.
    fn put(&mut self, bytes: &[u8]) -> Result<(), Failed>
        ensures ok { OnOk result (state self.new ≡ record (state self.old) { written = appended (state self.old).written bytes.now }) }
        ensures err { OnErr result (FailsToPut (state self.old) (state self.new) bytes.now) };
}
