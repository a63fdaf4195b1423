// The command `upgrade`.
ghost use Rattle.std.specs.Prelude.{◌≡◌, ◌⊎◌, IfErr, IfOk};
ghost use Rattle.cs_cert.specs.PaperShape.{paper_of};
ghost use Rattle.cs_cert.specs.declared.error.CertError.TheVariants.{NoMemory};
ghost use Rattle.cs_run.specs.Upgrade.{AnswersUpgrade, IsUpgraded, MakesUpgrade, SaysNoPaper, UpgradesAlike, cert_fault};

use crate::reply::{Reply, unwritten_line, writing};
use crate::stop::{Stop, stop_at};
use cs_cert::{CertError, print_certificate, read_certificate};
use cs_report::Fault;
use cs_words::UpgradeWords;
use std::alloc::{AllocError, Global};

/// The answer of `upgrade` to the bytes of OLD: their paper, printed as version 2. All memory for what is written and for
/// the line of a failed write is taken here.
pub fn answer_upgrade(alloc: Global, words: &UpgradeWords, bytes: &[u8]) -> Result<Reply, Stop>
    ensures { AnswersUpgrade words.now bytes.now result }
{
    match upgraded(alloc, bytes) {
        Ok(text) => Ok(write_upgraded(alloc, words, bytes, text)?),
        Err(error) => Err(stop_at(alloc, cert_fault(error))),
    }
}

// The text of the paper that the bytes say.
fn upgraded(alloc: Global, bytes: &[u8]) -> Result<Vec<u8>, CertError>
    ensures ok { IfOk result (λ text. IsUpgraded bytes.now text.items) }
    ensures alike { IfOk result (λ text. paper_of text.items ≡ paper_of bytes.now) }
    ensures err { IfErr result (λ error. (error ≡ NoMemory) ⊎ SaysNoPaper bytes.now (cert_fault error)) }
{
    let paper = read_certificate(alloc, bytes)?;
    Ok(print_certificate(alloc, &paper)?)
}

fn cert_fault(error: CertError) -> Fault
    ensures { result ≡ cert_fault error }
{
    match error {
        CertError::NotJson => Fault::CertificateNotJson,
        CertError::BadShape { at } => Fault::CertificateShape(at),
        CertError::NoMemory => Fault::NoMemory,
    }
}

fn write_upgraded(
    alloc: Global,
    words: &UpgradeWords,
    bytes: &[u8],
    text: Vec<u8>,
) -> Result<Reply, AllocError>
    requires is { IsUpgraded bytes.now text.items }
    requires alike { paper_of text.items ≡ paper_of bytes.now }
    ensures { IfOk result (λ reply. MakesUpgrade words.now bytes.now reply × UpgradesAlike bytes.now) }
{
    let _ = bytes;
    let line = unwritten_line(alloc, &words.new)?;
    writing(alloc, &words.new, text, line)
}
