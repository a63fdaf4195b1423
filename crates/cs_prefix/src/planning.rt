// The registers of the edges of all drivers, one driver after the other.
ghost use Rattle.std.specs.Prelude.{◌≡◌, ◌<◌, ◌≤◌, ◌^◌, All, IfOk, None, OnOk, length, replicate};
ghost use Rattle.cs_prefix.specs.Layers.{progress};
ghost use Rattle.cs_prefix.specs.Prefixes.{IsPlan, IsSmallDriver};
ghost use Rattle.cs_prefix.specs.Runs.{add_runs, edge_of};

use crate::layers::Layer;
use crate::plan::{DriverId, Plan};
use crate::runs::{driver_code_of, driver_of, edges_of, leading, sorted_codes};
use cs_base::Sequence;
use std::alloc::{AllocError, Global};

// Each turn plans the registers of one driver: its codes stand together.
fn add_runs(
    alloc: Global,
    layer: &mut Layer,
    ends: &mut [Option<usize>],
    contents: &[Sequence<bool>],
    codes: &[u64],
) -> Result<(), AllocError>
    requires count { length ends.now ≡ length contents.now }
    requires small { All (λ code. code < 2 ^ 56) codes.now }
    requires edges { All (λ code. edge_of code < length contents.now) codes.now }
    ensures made { OnOk result (progress layer.new ends.new
        ≡ add_runs contents.now (length codes.now) codes.now (progress layer.old ends.old)) }
    ensures ends { length ends.new ≡ length ends.old }
{
    let mut done = 0;
    while done < codes.len() {
        let rest = &codes[done..];
        let first = rest[0];
        let count = leading(rest, driver_code_of(first));
        let edges = edges_of(alloc, &rest[..count])?;
        layer.add_driver(alloc, ends, contents, &driver_of(first), edges)?;
        done += count;
    }
    Ok(())
}

// Edges that have passed no registers yet.
fn no_ends(alloc: Global, count: usize) -> Result<Vec<Option<usize>>, AllocError>
    ensures { IfOk result (λ ends. ends.items ≡ replicate count None) }
{
    vec![in alloc; None; count]
}

/// Plans the registers of edges, given for each its driver and its contents: the starts of its registers, nearest
/// the driver first. The time is linear in the number of edges and of their registers, but for a sort of the edges.
/// Want of memory is the only error.
pub fn plan_registers(
    alloc: Global,
    drivers: &[DriverId],
    contents: &[Sequence<bool>],
) -> Result<Plan, AllocError>
    requires count { length drivers.now ≡ length contents.now }
    requires few { length drivers.now ≤ 65536 }
    requires small { All IsSmallDriver drivers.now }
    ensures { IfOk result (λ plan. IsPlan drivers.now contents.now plan) }
{
    let codes = sorted_codes(alloc, drivers)?;
    let mut ends = no_ends(alloc, contents.len())?;
    let mut layer = Layer {
        registers: Sequence::new(alloc),
        groups: Sequence::new(alloc),
    };
    add_runs(
        alloc,
        &mut layer,
        ends.as_mut_slice(),
        contents,
        codes.as_slice(),
    )?;
    Ok(Plan {
        registers: layer.registers,
        ends: Sequence::from_vec(ends),
    })
}
