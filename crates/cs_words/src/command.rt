// The commands of the program.
use cs_base::{Contexts, Sequence, Text};

/// A command, with what its words name.
#[derive(Debug, Drop)]
pub enum Command {
    Slow(SlowWords),
    Sim(SimWords),
    SimContext(SimContextWords),
    Mix(MixWords),
    Part(PartWords),
    Upgrade(UpgradeWords),
    Help,
    Version,
}

/// `slow IN OUT CERT DELAYS -c C [--images IMAGES]`
#[derive(Debug, Drop)]
pub struct SlowWords {
    pub input: Text,
    pub output: Text,
    pub cert: Text,
    pub delays: Text,
    pub contexts: Contexts,
    pub images: Option<Text>,
}

/// `sim NET STIM`
#[derive(Debug, Drop)]
pub struct SimWords {
    pub net: Text,
    pub stim: Text,
}

/// `sim-context NET STIM IMAGES K C`, with K below C
#[derive(Debug, Drop)]
pub struct SimContextWords {
    pub net: Text,
    pub stim: Text,
    pub images: Text,
    pub k: u32,
    pub contexts: Contexts,
}

/// `mix OUT STREAMS`, with 1 to 16 streams
#[derive(Debug, Drop)]
pub struct MixWords {
    pub output: Text,
    pub streams: Sequence<Text>,
}

/// `part K C FILE`, with K below C
#[derive(Debug, Drop)]
pub struct PartWords {
    pub k: u32,
    pub contexts: Contexts,
    pub file: Text,
}

/// `upgrade OLD NEW`, which may be one name
#[derive(Debug, Drop)]
pub struct UpgradeWords {
    pub old: Text,
    pub new: Text,
}
