// What the first word may be.
ghost use Rattle.std.specs.Prelude.{◌≡◌, find, map, option_map, bytes_eq};
ghost use Rattle.cs_words.specs.Forms.{verb_among, verb_of};

/// The commands, without what their words name.
#[derive(Clone, Copy, Debug, PartialEq, Eq)]
pub enum Verb {
    Slow,
    Sim,
    SimContext,
    Mix,
    Part,
    Upgrade,
    Help,
    Version,
}

// A first word, and the command that it names.
#[derive(Clone, Copy)]
struct Row(&'static str, Verb);

const VERBS: [Row; 12] = [
    Row("slow", Verb::Slow),
    Row("sim", Verb::Sim),
    Row("sim-context", Verb::SimContext),
    Row("mix", Verb::Mix),
    Row("part", Verb::Part),
    Row("upgrade", Verb::Upgrade),
    Row("help", Verb::Help),
    Row("--help", Verb::Help),
    Row("-h", Verb::Help),
    Row("version", Verb::Version),
    Row("--version", Verb::Version),
    Row("-V", Verb::Version),
];

fn row_verb(rows: &[Row], word: &str) -> Option<Verb>
    ensures { result ≡ option_map (λ row. row.1) (find (λ row. bytes_eq row.0.now word.now) rows.now) }
{
    rows.iter().find(|row| row.0 == word).map(|row| row.1)
}

fn verb_among(rows: &[Row], word: &str) -> Option<Verb>
    ensures { result ≡ verb_among (map (λ row. (row.0.now, row.1)) rows.now) word.now }
{
    row_verb(rows, word)
}

impl Verb {
    /// The command that a first word names.
    pub(crate) fn of(word: &str) -> Option<Verb>
        ensures { result ≡ verb_of word.now }
    {
        verb_among(&VERBS, word)
    }
}
