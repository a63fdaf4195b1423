// When the search is begun anew: after as many conflicts as the sequence of Luby, Sinclair and Zuckerman (1993) says.
// Nothing that is promised rests on it.

/// The sequence 1, 1, 2, 1, 1, 2, 4, 1, .. by reluctant doubling: a term is doubled until it is the lowest bit of the
/// turn, and then the next turn begins with 1.
#[derive(Clone, Copy)]
pub struct Luby {
    turn: usize,
    term: usize,
}

// The lowest bit that is set.
fn lowest_bit(number: usize) -> usize {
    number ^ (number & number.saturating_sub(1))
}

impl Luby {
    /// The sequence from its start.
    pub fn new() -> Luby {
        Luby { turn: 1, term: 1 }
    }

    /// The next term.
    pub fn next(&mut self) -> usize {
        let term = self.term;
        if lowest_bit(self.turn) == term {
            self.turn = self.turn.saturating_add(1);
            self.term = 1;
        } else {
            self.term = term.saturating_mul(2);
        }
        term
    }
}
