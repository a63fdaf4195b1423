// Which lines are looked at last. A solver lets lines go where they are many, and learns the next ones without
// them: so a conflict is mostly found without them too. Nothing that is promised rests on the choice.
use std::alloc::{AllocError, Global};

/// Stands in the place of the length of a line that is looked at last.
const LAST: u16 = u16::MAX;

/// How many lines may be looked at first in the beginning, and how many more each time that some were set aside.
const FIRST_MOST: usize = 2000;

const MORE: usize = 500;

/// The lines that are looked at last: where too many are looked at first, the longer half of these is set aside.
#[derive(Drop)]
pub struct Aside {
    /// by clause, its length where it is a line that is looked at first, `LAST` where it is one that is looked at
    /// last, and 0 where it is a clause of the formula
    lengths: Vec<u16>,
    /// how many lines are looked at first
    count: usize,
    /// how many may be
    most: usize,
}

// The lengths of the lines that are looked at first.
fn lengths_of(alloc: Global, lengths: &[u16]) -> Result<Vec<u16>, AllocError> {
    let mut kept = Vec::new(alloc);
    for length in lengths {
        if *length != 0 && *length != LAST {
            kept.push(*length)?;
        }
    }
    Ok(kept)
}

// Sets those aside that are longer than this; tells how many are left.
fn set_longer_aside(lengths: &mut Vec<u16>, most: u16) -> usize {
    let mut count = 0usize;
    for length in lengths.iter_mut() {
        if *length > most {
            *length = LAST;
        } else if *length != 0 {
            count = count.saturating_add(1);
        }
    }
    count
}

impl Aside {
    /// No clause.
    pub fn new(alloc: Global) -> Aside {
        Aside {
            lengths: Vec::new(alloc),
            count: 0,
            most: FIRST_MOST,
        }
    }

    /// Whether the clause at this place is one to look at last.
    pub fn has(&self, place: usize) -> bool {
        self.lengths.as_slice().get(place) == Some(&LAST)
    }

    /// The next clause has this length, and is a line or one of the formula.
    pub fn add(&mut self, alloc: Global, length: usize, is_line: bool) -> Result<(), AllocError> {
        if !is_line {
            self.lengths.push(0)?;
            return Ok(());
        }
        let length = u16::try_from(length).unwrap_or(LAST);
        self.lengths.push(length.clamp(1, LAST - 1))?;
        self.count = self.count.saturating_add(1);
        if self.count > self.most {
            self.set_aside(alloc)?;
        }
        Ok(())
    }

    // Sets the longer half of the lines aside that are looked at first.
    fn set_aside(&mut self, alloc: Global) -> Result<(), AllocError> {
        let mut kept = lengths_of(alloc, self.lengths.as_slice())?;
        kept.sort_unstable();
        let middle = kept.as_slice().get(kept.len() / 2).copied();
        self.count = set_longer_aside(&mut self.lengths, middle.unwrap_or(LAST));
        self.most = self.most.max(self.count).saturating_add(MORE);
        Ok(())
    }
}
