// The gates' equations.
ghost use Rattle.std.specs.Prelude.{◌≡◌, ◌+◌, ◌<◌, if◌then◌else◌, length, get_or, false};
ghost use Rattle.cs_cells.specs.Gates.{gate_value, pin_count, mux2 as mux_of_2, mux4 as mux_of_4, mux8 as mux_of_8};

use crate::gate::Kind;

fn mux(select: bool, a: bool, b: bool) -> bool
    ensures { result ≡ (if select then b else a) }
{
    if select { b } else { a }
}

fn mux2(pins: &[bool], first: usize, select: usize) -> bool
    requires data_pins { first + 1 < length pins.now }
    requires selects { select < length pins.now }
    ensures { result ≡ mux_of_2 (λ i. get_or pins.now i false) first select }
{
    mux(pins[select], pins[first], pins[first + 1])
}

fn mux4(pins: &[bool], first: usize, select: usize) -> bool
    requires data_pins { first + 3 < length pins.now }
    requires selects { select + 1 < length pins.now }
    ensures { result ≡ mux_of_4 (λ i. get_or pins.now i false) first select }
{
    mux(
        pins[select + 1],
        mux2(pins, first, select),
        mux2(pins, first + 2, select),
    )
}

fn mux8(pins: &[bool], first: usize, select: usize) -> bool
    requires data_pins { first + 7 < length pins.now }
    requires selects { select + 2 < length pins.now }
    ensures { result ≡ mux_of_8 (λ i. get_or pins.now i false) first select }
{
    mux(
        pins[select + 2],
        mux4(pins, first, select),
        mux4(pins, first + 4, select),
    )
}

impl Kind {
    /// The gate's value at its pins, which come in the order of `pin_name`.
    #[tactic(auto, unfolding(crate::specs::Gates::equation))]
    pub fn eval(self, pins: &[bool]) -> bool
        requires { length pins.now ≡ pin_count self }
        ensures { result ≡ gate_value self pins.now }
    {
        let p = pins;
        match self {
            Kind::Buf => p[0],
            Kind::Not => !p[0],
            Kind::And => p[0] && p[1],
            Kind::Nand => !(p[0] && p[1]),
            Kind::Or => p[0] || p[1],
            Kind::Nor => !(p[0] || p[1]),
            Kind::Xor => p[0] != p[1],
            Kind::Xnor => p[0] == p[1],
            Kind::AndNot => p[0] && !p[1],
            Kind::OrNot => p[0] || !p[1],
            Kind::Mux => mux(p[2], p[0], p[1]),
            Kind::Nmux => !mux(p[2], p[0], p[1]),
            Kind::Aoi3 => !(p[0] && p[1] || p[2]),
            Kind::Oai3 => !((p[0] || p[1]) && p[2]),
            Kind::Aoi4 => !(p[0] && p[1] || p[2] && p[3]),
            Kind::Oai4 => !((p[0] || p[1]) && (p[2] || p[3])),
            Kind::Mux4 => mux4(p, 0, 4),
            Kind::Mux8 => mux8(p, 0, 8),
            Kind::Mux16 => mux(p[19], mux8(p, 0, 16), mux8(p, 8, 16)),
        }
    }
}
