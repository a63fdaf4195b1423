// Images as a file gives them.
use cs_base::{Sequence, Text};
use cs_json::Datum;

// The texts under a name, one for each context where the file is right; the digits of each are its image.
#[derive(Drop)]
pub(crate) struct NamedImages {
    pub name: Text,
    pub texts: Sequence<Datum>,
}
