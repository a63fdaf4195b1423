// Systems of difference constraints, and what they are found to have.
use crate::fixtures::{assert_at, keep};
use cs_diff::{Constraint, DiffError, System, floors, solve};
use std::alloc::Global;
use std::process::Abort;

const FAR: i64 = 2_147_483_648;

type Rows = &'static [(u32, u32, i64)];

// The value of the first vertex less that of the second is at most the number.
fn system(rt: &impl Abort, alloc: Global, vertices: u32, rows: Rows) -> &'static System {
    let mut system = System::new(alloc, vertices);
    for (from, to, most) in rows {
        let constraint = Constraint {
            from: *from,
            to: *to,
            most: *most,
        };
        assert!(rt; *from < system.vertices && *to < system.vertices && system.len() < 9);
        assert!(rt; -FAR <= *most && *most <= FAR);
        system.add(constraint).expect(rt, "a constraint");
    }
    keep(rt, alloc, system)
}

fn solved(
    rt: &impl Abort,
    alloc: Global,
    system: &System,
    caps: (i64, i64),
) -> Result<Vec<i64>, DiffError> {
    let (first, second) = caps;
    assert!(rt; system.vertices == 2 && -FAR <= first && first <= FAR);
    assert!(rt; -FAR <= second && second <= FAR);
    solve(alloc, system, &[first, second])
}

fn has_values(
    rt: &impl Abort,
    alloc: Global,
    system: &System,
    caps: (i64, i64),
    values: &[i64],
) -> bool {
    let found = solved(rt, alloc, system, caps).expect(rt, "a solution");
    found.as_slice() == values
}

// Constraints of two vertices, their caps, and the greatest values.
const SOLVED: &[(Rows, (i64, i64), &[i64])] = &[
    (&[(0, 1, -1), (1, 0, 1)], (0, 0), &[-1, 0]),
    (&[], (-FAR, FAR), &[-FAR, FAR]),
    (&[(0, 0, 0)], (7, 8), &[7, 8]),
];

#[test]
fn difference_constraints(rt: HostRuntime) {
    let alloc = rt.alloc();
    for (row, (rows, caps, values)) in SOLVED.iter().enumerate() {
        let system = system(&rt, alloc, 2, rows);
        let are_values = has_values(&rt, alloc, system, *caps, values);
        assert_at(&rt, are_values && system.len() as usize == rows.len(), row);
    }
}

fn has_floors(
    rt: &impl Abort,
    alloc: Global,
    system: &System,
    root: u32,
    least: &[Option<i64>],
    steps: &[u32],
) -> bool {
    assert!(rt; root < system.vertices);
    let found = floors(alloc, system, root).expect(rt, "floors");
    found.least.as_slice() == least && found.steps.as_slice() == steps
}

// Constraints of two vertices, a root, the least values and the steps to them.
const FLOORS: &[(Rows, u32, &[Option<i64>], &[u32])] = &[
    (&[(0, 1, -1), (1, 0, 1)], 1, &[Some(-1), Some(0)], &[1]),
    (&[], 0, &[Some(0), None], &[]),
];

#[test]
fn least_values(rt: HostRuntime) {
    let alloc = rt.alloc();
    for (row, (rows, root, least, steps)) in FLOORS.iter().enumerate() {
        let system = system(&rt, alloc, 2, rows);
        let are_floors = has_floors(&rt, alloc, system, *root, least, steps);
        assert_at(
            &rt,
            are_floors && system.is_empty() == steps.is_empty(),
            row,
        );
    }
}

// Whether the error names the constraints of these places, in some order.
fn is_loop_of(error: &Option<DiffError>, wanted: &[u32]) -> bool {
    match error {
        Some(DiffError::Negative(places)) => {
            places.len() == wanted.len()
                && wanted.iter().all(|place| places.as_slice().contains(place))
        }
        _ => false,
    }
}

// Constraints of two vertices, and those on a negative loop.
const LOOPS: &[(Rows, &[u32])] = &[
    (&[(0, 1, -1), (1, 0, 0)], &[0, 1]),
    (&[(0, 0, 0), (0, 0, -1)], &[1]),
];

#[test]
fn negative_loops(rt: HostRuntime) {
    let alloc = rt.alloc();
    for (row, (rows, wanted)) in LOOPS.iter().enumerate() {
        let system = system(&rt, alloc, 2, rows);
        assert!(rt; 1 < system.vertices);
        let unsolved = keep(&rt, alloc, solved(&rt, alloc, system, (0, 0)).err());
        let unbounded = keep(&rt, alloc, floors(alloc, system, 1).err());
        let are_loops = is_loop_of(unsolved, wanted) && is_loop_of(unbounded, wanted);
        assert_at(&rt, are_loops, row);
    }
}
