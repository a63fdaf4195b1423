// The two readings of a constraint: as an upper bound of `from`, or as a lower bound of `to`.
ghost use Rattle.std.specs.Prelude.{◌≡◌};
ghost use Rattle.cs_diff.specs.Labels.{head, tail};

use crate::system::Constraint;

/// How a constraint `r(from) - r(to) <= most` is read: `Upper` as `r(from) <= r(to) + most`,
/// `Lower` as `-r(to) <= -r(from) + most`. Under both the label of the tail bounds the label of the
/// head.
#[derive(Clone, Copy, Debug, PartialEq, Eq)]
pub enum Reading {
    Upper,
    Lower,
}

impl Constraint {
    /// The vertex that the constraint bounds.
    pub(crate) fn head(self, reading: Reading) -> u32
        ensures { result ≡ head reading self }
    {
        match reading {
            Reading::Upper => self.from,
            Reading::Lower => self.to,
        }
    }

    /// The vertex by whose value it is bounded.
    pub(crate) fn tail(self, reading: Reading) -> u32
        ensures { result ≡ tail reading self }
    {
        match reading {
            Reading::Upper => self.to,
            Reading::Lower => self.from,
        }
    }
}
