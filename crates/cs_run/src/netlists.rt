// Documents and netlists of bytes.
ghost use Rattle.std.specs.Prelude.{◌≡◌, IfErr, IfOk, None};
ghost use Rattle.cs_json.specs.Readable.{IsReadable};
ghost use Rattle.cs_json.specs.Shape.{Says, document};
ghost use Rattle.cs_net.specs.Accept.{IsAccepted};
ghost use Rattle.cs_run.specs.Bytes.{HasNoNetlist, IsNetlistOf, SaysNoDocument, SaysNoNetlist, doc_fault};
ghost use Rattle.cs_run.specs.Reasons.{StopsFor};

use crate::stop::{Stop, stop_at};
use cs_json::{DocError, Document, read_document};
use cs_net::{Netlist, accept};
use cs_report::Fault;
use std::alloc::Global;

/// The document that bytes say; bytes that say none end the command.
pub fn read_doc(alloc: Global, bytes: &[u8]) -> Result<Document, Stop>
    ensures says { IfOk result (λ doc. document bytes.now ≡ Says doc) }
    ensures readable { IfOk result IsReadable }
    ensures err { IfErr result (StopsFor (SaysNoDocument bytes.now)) }
{
    match read_document(alloc, bytes) {
        Ok(doc) => Ok(doc),
        Err(error) => Err(stop_at(alloc, doc_fault(error))),
    }
}

fn doc_fault(error: DocError) -> Fault
    ensures { result ≡ doc_fault error }
{
    match error {
        DocError::NotJson => Fault::DocumentNotJson,
        DocError::BadShape { at } => Fault::DocumentShape(at),
        DocError::NoMemory => Fault::NoMemory,
    }
}

/// The netlist of a document; a document that has none, or too large a one, ends the command.
pub fn read_net(alloc: Global, doc: &Document) -> Result<Netlist, Stop>
    requires { IsReadable doc.now }
    ensures ok { IfOk result (IsAccepted doc.now None) }
    ensures err { IfErr result (StopsFor (HasNoNetlist doc.now)) }
{
    match accept(alloc, doc, None) {
        Ok(net) => Ok(net),
        Err(error) => Err(stop_at(alloc, Fault::Refused(error))),
    }
}

/// The netlist that bytes say; bytes that say none end the command.
pub fn read_netlist(alloc: Global, bytes: &[u8]) -> Result<Netlist, Stop>
    ensures ok { IfOk result (IsNetlistOf bytes.now) }
    ensures err { IfErr result (StopsFor (SaysNoNetlist bytes.now)) }
{
    let doc = read_doc(alloc, bytes)?;
    read_net(alloc, &doc)
}
