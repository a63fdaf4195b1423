// What drives each bit: at most one input port or output pin.
ghost use Rattle.std.specs.Prelude.{◌≡◌, filter_map, IfOk};
ghost use Rattle.cs_conditions.specs.Conditions.{two_drivers};
ghost use Rattle.cs_modules.specs.Modules.{driven_signals};
ghost use Rattle.cs_modules.specs.Signals.{number_in};

use crate::error::NetError;
use crate::numbers::least_duplicate;
use cs_base::BitId;
use cs_json::Module;
use std::alloc::{AllocError, Global};

/// Refuses a bit that is driven twice, the least of them.
pub(crate) fn two_drivers(
    alloc: Global,
    top: &Module,
    driven: &[u32],
) -> Result<Option<NetError>, AllocError>
    requires { driven.now ≡ filter_map number_in (driven_signals top.now) }
    ensures { IfOk result (λ found. found ≡ two_drivers top.now) }
{
    let _ = top;
    match least_duplicate(alloc, driven)? {
        None => Ok(None),
        Some(bit) => Ok(Some(NetError::TwoDrivers {
            bit: BitId::new(bit),
        })),
    }
}
