// The gates: their type names and their pins.
ghost use Rattle.std.specs.Prelude.{◌≡◌, ◌<◌, find, map, option_map, bytes_eq};
ghost use Rattle.cs_cells.specs.Classes.{gate_of};
ghost use Rattle.cs_cells.specs.Gates.{row_of, pin_count, pin_name};

/// A gate (Yosys cell library, `simcells.v`), in the order of the table below.
#[derive(Clone, Copy, Debug, PartialEq, Eq)]
pub enum Kind {
    Buf,
    Not,
    And,
    Nand,
    Or,
    Nor,
    Xor,
    Xnor,
    AndNot,
    OrNot,
    Mux,
    Nmux,
    Aoi3,
    Oai3,
    Aoi4,
    Oai4,
    Mux4,
    Mux8,
    Mux16,
}

// A gate, its type name, how many data pins it has, and how many select pins.
#[derive(Clone, Copy)]
struct Row(Kind, &'static str, usize, usize);

const GATES: [Row; 19] = [
    Row(Kind::Buf, "$_BUF_", 1, 0),
    Row(Kind::Not, "$_NOT_", 1, 0),
    Row(Kind::And, "$_AND_", 2, 0),
    Row(Kind::Nand, "$_NAND_", 2, 0),
    Row(Kind::Or, "$_OR_", 2, 0),
    Row(Kind::Nor, "$_NOR_", 2, 0),
    Row(Kind::Xor, "$_XOR_", 2, 0),
    Row(Kind::Xnor, "$_XNOR_", 2, 0),
    Row(Kind::AndNot, "$_ANDNOT_", 2, 0),
    Row(Kind::OrNot, "$_ORNOT_", 2, 0),
    Row(Kind::Mux, "$_MUX_", 2, 1),
    Row(Kind::Nmux, "$_NMUX_", 2, 1),
    Row(Kind::Aoi3, "$_AOI3_", 3, 0),
    Row(Kind::Oai3, "$_OAI3_", 3, 0),
    Row(Kind::Aoi4, "$_AOI4_", 4, 0),
    Row(Kind::Oai4, "$_OAI4_", 4, 0),
    Row(Kind::Mux4, "$_MUX4_", 4, 2),
    Row(Kind::Mux8, "$_MUX8_", 8, 3),
    Row(Kind::Mux16, "$_MUX16_", 16, 4),
];

const DATA_PINS: [&str; 16] = [
    "A", "B", "C", "D", "E", "F", "G", "H", "I", "J", "K", "L", "M", "N", "O", "P",
];

const SELECT_PINS: [&str; 4] = ["S", "T", "U", "V"];

fn row_named(rows: &[Row], name: &str) -> Option<Kind>
    ensures { result ≡ option_map (λ row. row.0) (find (λ row. bytes_eq row.1.now name.now) rows.now) }
{
    rows.iter().find(|row| row.1 == name).map(|row| row.0)
}

// The gate of a name, among rows that have their gates' names.
fn gate_named(rows: &[Row], name: &str) -> Option<Kind>
    requires { map (λ row. row.1.now) rows.now ≡ map (λ row. (row_of row.0).name) rows.now }
    ensures { result ≡ find (λ kind. bytes_eq (row_of kind).name name.now) (map (λ row. row.0) rows.now) }
{
    row_named(rows, name)
}

impl Kind {
    /// The gate of a type name.
    pub fn of(name: &str) -> Option<Kind>
        ensures { result ≡ gate_of name.now }
    {
        gate_named(&GATES, name)
    }

    /// The name of the gate's type.
    pub fn name(self) -> &'static str
        ensures { result.now ≡ (row_of self).name }
    {
        GATES[self as usize].1
    }

    /// How many input pins the gate has.
    pub fn pin_count(self) -> usize
        ensures { result ≡ pin_count self }
    {
        let Row(_, _, data_pins, selects) = GATES[self as usize];
        data_pins + selects
    }

    /// How many of the input pins are selects, which come last: none but for the multiplexers.
    pub(crate) fn select_count(self) -> usize
        ensures { result ≡ (row_of self).selects }
    {
        GATES[self as usize].3
    }

    /// The name of input pin i: the data pins from `A` on, then the selects from `S` on.
    pub fn pin_name(self, i: usize) -> &'static str
        requires { i < pin_count self }
        ensures { result.now ≡ pin_name self i }
    {
        let data_pins = GATES[self as usize].2;
        if i < data_pins {
            DATA_PINS[i]
        } else {
            SELECT_PINS[i - data_pins]
        }
    }
}
