// Ids: one number each, so that one kind is never taken for another.
ghost use Rattle.std.specs.Prelude.{◌≡◌, ◌<◌, ◌↔◌, IsTrue};

use std::marker::Model;

/// The number of a bit of a netlist (Yosys JSON: one wire of a module).
#[derive(Clone, Copy, Debug, PartialEq, Eq, PartialOrd, Ord, Hash)]
pub struct BitId {
    index: u32,
}

impl Model for BitId {
    ghost use Rattle.std.specs.Prelude.{ℕ};

    ghost Value = { ℕ };

    ghost view = { λ id. id.index };

    ghost inverse = { λ n. record { index = n } };
}

impl BitId {
    /// The id of this number.
    pub fn new(index: u32) -> Self
        ensures { result ≡ index }
    {
        BitId { index }
    }

    /// The id's number.
    pub fn get(self) -> u32
        ensures { result ≡ self }
    {
        self.index
    }

    /// Whether it is one of the first `count` ids.
    pub fn is_below(self, count: u32) -> bool
        ensures { IsTrue result ↔ (self < count) }
    {
        self.index < count
    }
}

/// The number of a vertex of the machine graph.
#[derive(Clone, Copy, Debug, PartialEq, Eq, PartialOrd, Ord, Hash)]
pub struct VertexId {
    index: u32,
}

impl Model for VertexId {
    ghost use Rattle.std.specs.Prelude.{ℕ};

    ghost Value = { ℕ };

    ghost view = { λ id. id.index };

    ghost inverse = { λ n. record { index = n } };
}

impl VertexId {
    /// The id of this number.
    pub fn new(index: u32) -> Self
        ensures { result ≡ index }
    {
        VertexId { index }
    }

    /// The id's number.
    pub fn get(self) -> u32
        ensures { result ≡ self }
    {
        self.index
    }

    /// Whether it is one of the first `count` ids.
    pub fn is_below(self, count: u32) -> bool
        ensures { IsTrue result ↔ (self < count) }
    {
        self.index < count
    }
}

/// The number of an edge of the machine graph.
#[derive(Clone, Copy, Debug, PartialEq, Eq, PartialOrd, Ord, Hash)]
pub struct EdgeId {
    index: u32,
}

impl Model for EdgeId {
    ghost use Rattle.std.specs.Prelude.{ℕ};

    ghost Value = { ℕ };

    ghost view = { λ id. id.index };

    ghost inverse = { λ n. record { index = n } };
}

impl EdgeId {
    /// The id of this number.
    pub fn new(index: u32) -> Self
        ensures { result ≡ index }
    {
        EdgeId { index }
    }

    /// The id's number.
    pub fn get(self) -> u32
        ensures { result ≡ self }
    {
        self.index
    }

    /// Whether it is one of the first `count` ids.
    pub fn is_below(self, count: u32) -> bool
        ensures { IsTrue result ↔ (self < count) }
    {
        self.index < count
    }
}

/// The number of a memory of the machine graph.
#[derive(Clone, Copy, Debug, PartialEq, Eq, PartialOrd, Ord, Hash)]
pub struct MemId {
    index: u32,
}

impl Model for MemId {
    ghost use Rattle.std.specs.Prelude.{ℕ};

    ghost Value = { ℕ };

    ghost view = { λ id. id.index };

    ghost inverse = { λ n. record { index = n } };
}

impl MemId {
    /// The id of this number.
    pub fn new(index: u32) -> Self
        ensures { result ≡ index }
    {
        MemId { index }
    }

    /// The id's number.
    pub fn get(self) -> u32
        ensures { result ≡ self }
    {
        self.index
    }

    /// Whether it is one of the first `count` ids.
    pub fn is_below(self, count: u32) -> bool
        ensures { IsTrue result ↔ (self < count) }
    {
        self.index < count
    }
}
