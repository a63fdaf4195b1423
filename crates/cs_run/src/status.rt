// The exit statuses.
ghost use Rattle.std.specs.Prelude.{◌≡◌};
ghost use Rattle.cs_run.specs.Statuses.{net_status, status_of};

use cs_conditions::NetError;
use cs_report::Fault;

/// How a run ended.
#[derive(Clone, Copy, Debug, PartialEq, Eq)]
pub enum Status {
    Done = 0,
    NoMemory = 1,
    Usage = 2,
    ReadFault = 3,
    WriteFault = 4,
    DocumentFault = 5,
    NetlistFault = 6,
    Limit = 8,
    StimulusFault = 11,
    CertificateFault = 12,
    ImagesFault = 13,
}

impl Status {
    ghost use Rattle.cs_run.specs.Statuses.{code_of};

    /// The status as a number.
    pub fn code(self) -> u8
        ensures { result ≡ code_of self }
    {
        self as u8
    }
}

fn net_status(error: &NetError) -> Status
    ensures { result ≡ net_status error.now }
{
    match error {
        NetError::Limit(_) => Status::Limit,
        NetError::NoMemory => Status::NoMemory,
        _ => Status::NetlistFault,
    }
}

/// The status of a run that tells this fault.
pub fn status_of(fault: &Fault) -> Status
    ensures { result ≡ status_of fault.now }
{
    match fault {
        Fault::NoMemory => Status::NoMemory,
        Fault::NoCommand | Fault::WordsOf(_) | Fault::NumberOf(_) | Fault::SameName =>
            Status::Usage,
        Fault::CannotRead(_) => Status::ReadFault,
        Fault::CannotWrite(_) => Status::WriteFault,
        Fault::DocumentNotJson | Fault::DocumentShape(_) => Status::DocumentFault,
        Fault::Refused(error) => net_status(error),
        Fault::Limit(_) | Fault::FileTooLong(_) => Status::Limit,
        Fault::StimulusWidth { .. } | Fault::StimulusCharacter { .. } | Fault::StimulusUneven(_) =>
            Status::StimulusFault,
        Fault::CertificateNotJson | Fault::CertificateShape(_) => Status::CertificateFault,
        Fault::ImagesNotJson
        | Fault::ImagesShape(_)
        | Fault::ImagesName(_)
        | Fault::ImagesCount { .. } => Status::ImagesFault,
    }
}
