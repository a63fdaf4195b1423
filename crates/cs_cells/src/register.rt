// Registers: flip-flops with an optional synchronous reset and an optional enable.
ghost use Rattle.std.specs.Prelude.{◌≡◌};
ghost use Rattle.cs_cells.specs.Registers.{next_value, value_with_reset, value_with_enable};

/// A register: its clock edge, and what it does beside taking D (Yosys `$_DFF_` to `$_SDFFCE_`).
#[derive(Clone, Copy, Debug, PartialEq, Eq)]
pub struct FfKind {
    /// Whether it takes its next value at the rising edge.
    pub rising: bool,
    pub reset: Option<ResetKind>,
    /// Whether the enable is active high, where there is one.
    pub enable: Option<bool>,
    /// Whether the reset acts only while the register is enabled.
    pub enable_over_reset: bool,
}

/// A synchronous reset: whether it is active high, and the value that it gives.
#[derive(Clone, Copy, Debug, PartialEq, Eq)]
pub struct ResetKind {
    pub high: bool,
    pub value: bool,
}

impl FfKind {
    /// The value after the clock's edge, from pins D, E and R and the old value Q.
    #[tactic(auto, unfolding(crate::specs::Registers::next_value))]
    pub fn next(self, d: bool, q: bool, e: bool, r: bool) -> bool
        ensures { result ≡ next_value self d q e r }
    {
        if self.enable_over_reset {
            self.with_enable(e, q, self.with_reset(r, d))
        } else {
            self.with_reset(r, self.with_enable(e, q, d))
        }
    }

    fn with_reset(self, r: bool, value: bool) -> bool
        ensures { result ≡ value_with_reset self.reset r value }
    {
        match self.reset {
            Some(reset) => if reset.high == r { reset.value } else { value },
            None => value,
        }
    }

    fn with_enable(self, e: bool, q: bool, value: bool) -> bool
        ensures { result ≡ value_with_enable self.enable e q value }
    {
        match self.enable {
            Some(high) => if high == e { value } else { q },
            None => value,
        }
    }
}
