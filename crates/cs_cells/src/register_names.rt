// The names of the registers' types.
ghost use Rattle.std.specs.Prelude.{◌≡◌, find, map, option_map, bytes_eq};
ghost use Rattle.cs_cells.specs.Classes.{register_of};
ghost use Rattle.cs_cells.specs.Registers.{register_name};

use crate::register::{FfKind, ResetKind};

// A type name; whether the edge rises; the reset; the enable; whether the enable is over the reset.
#[derive(Clone, Copy)]
struct Row(&'static str, bool, Option<ResetKind>, Option<bool>, bool);

const RISING: bool = true;

const FALLING: bool = false;

const NO_RESET: Option<ResetKind> = None;

const HIGH_1: Option<ResetKind> = Some(ResetKind {
    high: true,
    value: true,
});

const HIGH_0: Option<ResetKind> = Some(ResetKind {
    high: true,
    value: false,
});

const LOW_1: Option<ResetKind> = Some(ResetKind {
    high: false,
    value: true,
});

const LOW_0: Option<ResetKind> = Some(ResetKind {
    high: false,
    value: false,
});

const NO_ENABLE: Option<bool> = None;

const HIGH: Option<bool> = Some(true);

const LOW: Option<bool> = Some(false);

const RESET_FIRST: bool = false;

const ENABLE_FIRST: bool = true;

const REGISTERS: [Row; 46] = [
    Row("$_DFF_P_", RISING, NO_RESET, NO_ENABLE, RESET_FIRST),
    Row("$_DFFE_PP_", RISING, NO_RESET, HIGH, RESET_FIRST),
    Row("$_DFFE_PN_", RISING, NO_RESET, LOW, RESET_FIRST),
    Row("$_SDFF_PP1_", RISING, HIGH_1, NO_ENABLE, RESET_FIRST),
    Row("$_SDFFCE_PP1P_", RISING, HIGH_1, HIGH, ENABLE_FIRST),
    Row("$_SDFFE_PP1P_", RISING, HIGH_1, HIGH, RESET_FIRST),
    Row("$_SDFFCE_PP1N_", RISING, HIGH_1, LOW, ENABLE_FIRST),
    Row("$_SDFFE_PP1N_", RISING, HIGH_1, LOW, RESET_FIRST),
    Row("$_SDFF_PP0_", RISING, HIGH_0, NO_ENABLE, RESET_FIRST),
    Row("$_SDFFCE_PP0P_", RISING, HIGH_0, HIGH, ENABLE_FIRST),
    Row("$_SDFFE_PP0P_", RISING, HIGH_0, HIGH, RESET_FIRST),
    Row("$_SDFFCE_PP0N_", RISING, HIGH_0, LOW, ENABLE_FIRST),
    Row("$_SDFFE_PP0N_", RISING, HIGH_0, LOW, RESET_FIRST),
    Row("$_SDFF_PN1_", RISING, LOW_1, NO_ENABLE, RESET_FIRST),
    Row("$_SDFFCE_PN1P_", RISING, LOW_1, HIGH, ENABLE_FIRST),
    Row("$_SDFFE_PN1P_", RISING, LOW_1, HIGH, RESET_FIRST),
    Row("$_SDFFCE_PN1N_", RISING, LOW_1, LOW, ENABLE_FIRST),
    Row("$_SDFFE_PN1N_", RISING, LOW_1, LOW, RESET_FIRST),
    Row("$_SDFF_PN0_", RISING, LOW_0, NO_ENABLE, RESET_FIRST),
    Row("$_SDFFCE_PN0P_", RISING, LOW_0, HIGH, ENABLE_FIRST),
    Row("$_SDFFE_PN0P_", RISING, LOW_0, HIGH, RESET_FIRST),
    Row("$_SDFFCE_PN0N_", RISING, LOW_0, LOW, ENABLE_FIRST),
    Row("$_SDFFE_PN0N_", RISING, LOW_0, LOW, RESET_FIRST),
    Row("$_DFF_N_", FALLING, NO_RESET, NO_ENABLE, RESET_FIRST),
    Row("$_DFFE_NP_", FALLING, NO_RESET, HIGH, RESET_FIRST),
    Row("$_DFFE_NN_", FALLING, NO_RESET, LOW, RESET_FIRST),
    Row("$_SDFF_NP1_", FALLING, HIGH_1, NO_ENABLE, RESET_FIRST),
    Row("$_SDFFCE_NP1P_", FALLING, HIGH_1, HIGH, ENABLE_FIRST),
    Row("$_SDFFE_NP1P_", FALLING, HIGH_1, HIGH, RESET_FIRST),
    Row("$_SDFFCE_NP1N_", FALLING, HIGH_1, LOW, ENABLE_FIRST),
    Row("$_SDFFE_NP1N_", FALLING, HIGH_1, LOW, RESET_FIRST),
    Row("$_SDFF_NP0_", FALLING, HIGH_0, NO_ENABLE, RESET_FIRST),
    Row("$_SDFFCE_NP0P_", FALLING, HIGH_0, HIGH, ENABLE_FIRST),
    Row("$_SDFFE_NP0P_", FALLING, HIGH_0, HIGH, RESET_FIRST),
    Row("$_SDFFCE_NP0N_", FALLING, HIGH_0, LOW, ENABLE_FIRST),
    Row("$_SDFFE_NP0N_", FALLING, HIGH_0, LOW, RESET_FIRST),
    Row("$_SDFF_NN1_", FALLING, LOW_1, NO_ENABLE, RESET_FIRST),
    Row("$_SDFFCE_NN1P_", FALLING, LOW_1, HIGH, ENABLE_FIRST),
    Row("$_SDFFE_NN1P_", FALLING, LOW_1, HIGH, RESET_FIRST),
    Row("$_SDFFCE_NN1N_", FALLING, LOW_1, LOW, ENABLE_FIRST),
    Row("$_SDFFE_NN1N_", FALLING, LOW_1, LOW, RESET_FIRST),
    Row("$_SDFF_NN0_", FALLING, LOW_0, NO_ENABLE, RESET_FIRST),
    Row("$_SDFFCE_NN0P_", FALLING, LOW_0, HIGH, ENABLE_FIRST),
    Row("$_SDFFE_NN0P_", FALLING, LOW_0, HIGH, RESET_FIRST),
    Row("$_SDFFCE_NN0N_", FALLING, LOW_0, LOW, ENABLE_FIRST),
    Row("$_SDFFE_NN0N_", FALLING, LOW_0, LOW, RESET_FIRST),
];

impl Row {
    fn kind(self) -> FfKind
        ensures { result ≡ record { rising = self.1; reset = self.2; enable = self.3; enable_over_reset = self.4 } }
    {
        FfKind {
            rising: self.1,
            reset: self.2,
            enable: self.3,
            enable_over_reset: self.4,
        }
    }
}

fn row_named(rows: &[Row], name: &str) -> Option<FfKind>
    ensures { result ≡ option_map (λ row. record { rising = row.1; reset = row.2; enable = row.3; enable_over_reset = row.4 }) (find (λ row. bytes_eq row.0.now name.now) rows.now) }
{
    rows.iter().find(|row| row.0 == name).map(|row| row.kind())
}

// The register of a name, among rows that have their registers' names.
fn register_named(rows: &[Row], name: &str) -> Option<FfKind>
    requires { map (λ row. row.0.now) rows.now ≡ map (λ row. register_name (record { rising = row.1; reset = row.2; enable = row.3; enable_over_reset = row.4 })) rows.now }
    ensures { result ≡ find (λ kind. bytes_eq (register_name kind) name.now) (map (λ row. record { rising = row.1; reset = row.2; enable = row.3; enable_over_reset = row.4 }) rows.now) }
{
    row_named(rows, name)
}

impl FfKind {
    /// The register of a type name.
    pub fn of(name: &str) -> Option<FfKind>
        ensures { result ≡ register_of name.now }
    {
        register_named(&REGISTERS, name)
    }
}
