// The period under lags: the greatest delay of a path without a register (Leiserson and Saxe, algorithm CP, with
// a delay for each pin). A path counts the delay of its first vertex, and then those of the pins it comes in by.
ghost use Rattle.std.specs.Prelude.{◌≡◌, ℕ, ◌+◌, ◌<◌, ◌≤◌, ◌^◌, IfOk, length, max};
ghost use Rattle.cs_graph.specs.Arrivals.{AreAtMost, IsLatest};
ghost use Rattle.cs_graph.specs.Lags.{AreWithin};
ghost use Rattle.cs_graph.specs.Period.{AreDelaysOf, IsPeriod};
ghost use Rattle.cs_graph.specs.Order.{IsOrder, IsWired};

use crate::delays::Delays;
use crate::graph::Graph;
use crate::order::driver;
use cs_base::VertexId;
use std::alloc::{AllocError, Global};

/// The later of the arrival so far and the arrival by a pin.
fn later(latest: u64, arrival: u64, delay: u32) -> u64
    requires { arrival + delay < 2 ^ 64 }
    ensures { result ≡ max latest (arrival + delay) }
{
    latest.max(arrival + u64::from(delay))
}

/// The arrival at a vertex: the greatest delay of a path without a register that ends there, from the arrivals
/// at the vertices that it reads.
fn arrival_at(graph: &Graph, lags: &[i64], delays: &Delays, arrivals: &[u64], v: VertexId) -> u64
    requires wired { IsWired graph.now }
    requires reach { AreWithin (2 ^ 31) lags.now }
    requires delays { AreDelaysOf graph.now delays.now }
    requires count { length arrivals.now ≡ length graph.now.vertices }
    requires vertex { v < length graph.now.vertices }
    requires few { AreAtMost arrivals.now (2 ^ 63) }
    ensures latest { IsLatest graph.now lags.now delays.now arrivals.now v result }
    ensures few { (most : ℕ) → AreAtMost arrivals.now most → result ≤ most + 1000000 }
{
    let pin_delays = delays.of_pins(v);
    let mut latest = u64::from(delays.of_vertex(v));
    for pin in 0..pin_delays.len() {
        if let Some(u) = driver(graph, lags, v, pin) {
            latest = later(latest, arrivals[u.get() as usize], pin_delays[pin]);
        }
    }
    latest
}

/// The period, by a sweep along the order.
pub(crate) fn period_along(
    alloc: Global,
    graph: &Graph,
    lags: &[i64],
    delays: &Delays,
    order: &[VertexId],
) -> Result<u64, AllocError>
    requires wired { IsWired graph.now }
    requires reach { AreWithin (2 ^ 31) lags.now }
    requires delays { AreDelaysOf graph.now delays.now }
    requires order { IsOrder graph.now lags.now order.now }
    requires few { length graph.now.vertices ≤ 4096 }
    ensures { IfOk result (λ period. IsPeriod graph.now delays.now lags.now period) }
{
    let mut arrivals = vec![in alloc; 0; graph.vertices.len()]?;
    let mut period = 0;
    for turn in 0..order.len() {
        let v = order[turn];
        let arrival = arrival_at(graph, lags, delays, arrivals.as_slice(), v);
        arrivals[v.get() as usize] = arrival;
        period = period.max(arrival);
    }
    Ok(period)
}
