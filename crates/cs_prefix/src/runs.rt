// Edges in order of their drivers.
ghost use Rattle.std.specs.Prelude.{◌≡◌, ◌<◌, ◌≤◌, ◌^◌, ◌/◌, ◌%◌, All, IfOk, length, map};
ghost use Rattle.std.specs.List.{enumerate_from};
ghost use Rattle.std.specs.List.Sorted.{IsNonDecreasing, IsPermutation};
ghost use Rattle.cs_prefix.specs.Prefixes.{IsSmallDriver};
ghost use Rattle.cs_prefix.specs.Runs.{all_codes, driver_of, edge_code, edge_of, leading};

use crate::plan::DriverId;
use cs_base::{Sequence, VertexId};
use std::alloc::{AllocError, Global};

const OUTPUTS: u64 = 16777216;

const EDGES: u64 = 65536;

// A driver and the place of an edge as one number, by which edges of one driver stand together.
fn edge_code(driver: &DriverId, edge: usize) -> u64
    requires driver { IsSmallDriver driver.now }
    requires edge { edge < 65536 }
    ensures { result ≡ edge_code driver.now edge }
{
    let vertex = driver.vertex.get() as u64;
    (vertex * OUTPUTS + driver.output as u64) * EDGES + edge as u64
}

// The driver of a code as one number.
pub(crate) fn driver_code_of(code: u64) -> u64
    ensures { result ≡ code / 65536 }
{
    code / EDGES
}

// The driver of a code.
pub(crate) fn driver_of(code: u64) -> DriverId
    requires { code < 2 ^ 56 }
    ensures { result ≡ driver_of code }
{
    let driver = driver_code_of(code);
    DriverId {
        vertex: VertexId::new((driver / OUTPUTS) as u32),
        output: (driver % OUTPUTS) as u32,
    }
}

// The places of the edges of some codes.
pub(crate) fn edges_of(alloc: Global, codes: &[u64]) -> Result<Sequence<usize>, AllocError>
    ensures { IfOk result (λ edges. edges ≡ map edge_of codes.now) }
{
    let mut edges = Sequence::new(alloc);
    for code in codes {
        edges.push((*code % EDGES) as usize)?;
    }
    Ok(edges)
}

// How many of the first codes have this driver.
pub(crate) fn leading(codes: &[u64], driver: u64) -> usize
    ensures count { result ≡ leading driver codes.now }
    ensures within { result ≤ length codes.now }
{
    let mut count = 0;
    for code in codes {
        if driver_code_of(*code) != driver {
            return count;
        }
        count += 1;
    }
    count
}

// The codes of all edges.
fn all_codes(alloc: Global, drivers: &[DriverId]) -> Result<Vec<u64>, AllocError>
    requires few { length drivers.now ≤ 65536 }
    requires small { All IsSmallDriver drivers.now }
    ensures { IfOk result (λ codes. codes.items ≡ all_codes drivers.now) }
{
    let mut codes = Vec::new(alloc);
    for edge in 0..drivers.len() {
        codes.push(edge_code(&drivers[edge], edge))?;
    }
    Ok(codes)
}

/// The codes of all edges, sorted.
pub(crate) fn sorted_codes(alloc: Global, drivers: &[DriverId]) -> Result<Vec<u64>, AllocError>
    requires few { length drivers.now ≤ 65536 }
    requires small { All IsSmallDriver drivers.now }
    ensures sorted { IfOk result (λ codes. IsNonDecreasing codes.items) }
    ensures same { IfOk result (λ codes. IsPermutation (all_codes drivers.now) codes.items) }
{
    let mut codes = all_codes(alloc, drivers)?;
    codes.sort()?;
    Ok(codes)
}
