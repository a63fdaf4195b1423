// The registers and the delay of a path, in eight bytes.
ghost use Rattle.std.specs.Prelude.{◌≡◌, ◌+◌, ◌<◌, ◌^◌, None, Some};
ghost use Rattle.cs_paths.specs.Reaches.{reach_of};

/// The count of registers that stands for no path; no path that is kept has as many.
const NO_PATH: u32 = u32::MAX;

/// The registers and the delay of a path, if there is one, in eight bytes; an `Option` would take twelve.
#[derive(Clone, Copy, Debug)]
pub struct Reach {
    weight: u32,
    delay: u32,
}

impl Reach {
    /// No path.
    pub(crate) fn none() -> Reach
        ensures { reach_of result ≡ None }
    {
        Reach {
            weight: NO_PATH,
            delay: 0,
        }
    }

    /// A path with so many registers and this delay.
    pub(crate) fn some(weight: u32, delay: u32) -> Reach
        requires { weight + 1 < 2 ^ 32 }
        ensures { reach_of result ≡ Some (weight, delay) }
    {
        Reach { weight, delay }
    }

    /// The registers and the delay, if there is a path.
    pub(crate) fn get(self) -> Option<(u32, u32)>
        ensures { result ≡ reach_of self }
    {
        if self.weight == NO_PATH {
            None
        } else {
            Some((self.weight, self.delay))
        }
    }
}
