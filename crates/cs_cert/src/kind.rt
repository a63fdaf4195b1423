// The kinds of steps and of papers.

// What a step goes along.
#[derive(Clone, Copy)]
pub(crate) enum StepKind {
    AlongEdge,
    AlongPath,
    BetweenPins,
}

// What a paper shows.
#[derive(Clone, Copy)]
pub(crate) enum PaperKind {
    OfCertificate,
    OfRefusal,
    OfFallback,
}
