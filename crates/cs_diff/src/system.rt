// Systems of difference constraints over numbered vertices (Leiserson and Saxe; Cormen et al.).
ghost use Rattle.std.specs.Prelude.{◌≡◌, ◌+◌, ◌^◌, ◌<◌, ◌++◌, [], ◌∷◌, Some, IfSome, IsTrue, ◌↔◌, length, slice_get, OnErr, OnOk};
ghost use Rattle.cs_diff.specs.Ranges.{IsAmong, AreAmong, place_at};

use cs_base::Sequence;
use std::alloc::{AllocError, Global};

/// The value of `from` less the value of `to` is at most `most`.
#[derive(Clone, Copy, Debug, PartialEq, Eq)]
pub struct Constraint {
    pub from: u32,
    pub to: u32,
    pub most: i64,
}

/// Constraints between `vertices` many vertices. Each `most` is between -2^31 and 2^31, and there
/// are fewer than 2^32 constraints. A constraint is named by its place in the list.
#[derive(Debug, Drop)]
pub struct System {
    pub vertices: u32,
    pub constraints: Sequence<Constraint>,
    pub ghost in_range: { AreAmong vertices constraints },
    pub ghost few: { length constraints < 2 ^ 32 },
}

impl System {
    /// A system without constraints; it takes no memory.
    pub fn new(alloc: Global, vertices: u32) -> Self
        ensures vertices { result.vertices ≡ vertices }
        ensures constraints { result.constraints ≡ [] }
    {
        System {
            vertices,
            constraints: Sequence::new(alloc),
        }
    }

    /// Puts a constraint behind the others; a refusal leaves the system unchanged.
    pub fn add(&mut self, constraint: Constraint) -> Result<(), AllocError>
        requires among { IsAmong self.old.vertices constraint }
        requires room { length self.old.constraints + 1 < 2 ^ 32 }
        ensures vertices { self.new.vertices ≡ self.old.vertices }
        ensures ok { OnOk result (self.new.constraints ≡ self.old.constraints ++ constraint ∷ []) }
        ensures err { OnErr result (self.new.constraints ≡ self.old.constraints) }
    {
        self.constraints.push(constraint)?;
        Ok(())
    }

    /// How many constraints there are.
    pub fn len(&self) -> u32
        ensures { result ≡ length self.now.constraints }
    {
        self.constraints.len() as u32
    }

    /// Whether there are no constraints.
    pub fn is_empty(&self) -> bool
        ensures { IsTrue result ↔ (self.now.constraints ≡ []) }
    {
        self.constraints.is_empty()
    }

    /// The constraint of this place.
    pub(crate) fn at(&self, place: u32) -> Constraint
        requires { place < length self.now.constraints }
        ensures found { slice_get self.now.constraints place ≡ Some result }
        ensures among { IsAmong self.now.vertices result }
    {
        self.constraints.as_slice()[place as usize]
    }

    /// The place that comes at this turn, from the front or from the back.
    pub(crate) fn turn(&self, back: bool, turn: u32) -> u32
        requires { turn < length self.now.constraints }
        ensures { result ≡ place_at back (length self.now.constraints) turn }
    {
        if back { self.len() - 1 - turn } else { turn }
    }

    /// The constraint of this place, if there is one.
    pub(crate) fn find(&self, place: u32) -> Option<Constraint>
        ensures found { result ≡ slice_get self.now.constraints place }
        ensures among { IfSome result (λ c. IsAmong self.now.vertices c) }
    {
        self.constraints.as_slice().get(place as usize).copied()
    }
}
