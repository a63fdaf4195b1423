// Delay tables.
ghost use Rattle.std.specs.Prelude.{◌≡◌, None};
ghost use Rattle.std.proofs.Props.{props};
ghost use Rattle.cs_delay.specs.Tables.{HasPinsInOrder, HasTypesInOrder, too_large};

use crate::entry::DelayEntry;
use cs_base::Sequence;

/// How long each type of cell takes, its types and their pins in byte order, none twice. No delay is above
/// 1,000,000. What the table doesn't name takes the fallback.
#[derive(Debug, Drop)]
pub struct DelayTable {
    pub version: u32,
    pub entries: Sequence<DelayEntry>,
    pub fallback: Option<u32>,
    pub ghost types_in_order: { ∥ HasTypesInOrder entries ∥₁ },
    pub ghost pins_in_order: { ∥ HasPinsInOrder entries ∥₁ },
    pub ghost within: { too_large fallback entries ≡ None } by { Prim.hlevel props },
}
