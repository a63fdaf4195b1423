// What a document holds (Yosys JSON: modules with ports, cells and netnames).
use cs_base::{Sequence, Signal, Text};

/// A document: its modules, in byte order of their names.
#[derive(Drop)]
pub struct Document {
    pub modules: Sequence<Module>,
}

/// A module; each of its lists is in byte order of names, without repeats.
#[derive(Drop)]
pub struct Module {
    pub name: Text,
    pub attributes: Sequence<Entry>,
    pub ports: Sequence<PortDecl>,
    pub cells: Sequence<CellDecl>,
    pub nets: Sequence<NetDecl>,
}

/// A port, least significant bit first.
#[derive(Drop)]
pub struct PortDecl {
    pub name: Text,
    pub direction: Direction,
    pub bits: Sequence<Signal>,
}

/// A cell, whose `kind` is the name of its type.
#[derive(Drop)]
pub struct CellDecl {
    pub name: Text,
    pub kind: Text,
    pub parameters: Sequence<Entry>,
    pub attributes: Sequence<Entry>,
    pub pins: Sequence<PinDecl>,
}

/// A pin of a cell, least significant bit first; `output` is false where no direction is told.
#[derive(Drop)]
pub struct PinDecl {
    pub name: Text,
    pub bits: Sequence<Signal>,
    pub output: bool,
}

/// The name of some bits (Yosys: a netname), least significant bit first.
#[derive(Drop)]
pub struct NetDecl {
    pub name: Text,
    pub bits: Sequence<Signal>,
    pub attributes: Sequence<Entry>,
}

/// An attribute or a parameter.
#[derive(Drop)]
pub struct Entry {
    pub name: Text,
    pub datum: Datum,
}

/// What an attribute or a parameter holds: digits as a text, or a whole number.
#[derive(Drop)]
pub enum Datum {
    Digits(Text),
    Number(i128),
}

/// The direction of a port.
#[derive(Clone, Copy, Debug, PartialEq, Eq)]
pub enum Direction {
    Input,
    Output,
    Inout,
}

/// Where a document is refused: the keys and list places that lead there, each behind a `/`.
///
/// In a key `~` is written `~0`, and `/` is written `~1` (RFC 6901). The root is the empty path.
#[derive(Debug, Drop)]
pub struct Place {
    pub path: Text,
}
