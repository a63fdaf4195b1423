// Formulas and lines, by their numbers: a negative one is a negated variable.
use crate::fixtures::{assert_at, keep};
use cs_base::{Clause, Derivation, Formula, Lit, Sequence};
use cs_rup::{Checker, check};
use std::alloc::Global;
use std::process::Abort;

const HIGH: i32 = 2_147_483_647;

fn clause(rt: &impl Abort, alloc: Global, numbers: &[i32]) -> Clause {
    let mut lits = Sequence::new(alloc);
    for number in numbers {
        let lit = Lit {
            var: number.unsigned_abs(),
            positive: *number > 0,
        };
        lits.push(lit).expect(rt, "a literal");
    }
    Clause { lits }
}

fn clauses(rt: &impl Abort, alloc: Global, rows: &[&[i32]]) -> Sequence<Clause> {
    let mut all = Sequence::new(alloc);
    for numbers in rows {
        all.push(clause(rt, alloc, numbers)).expect(rt, "a clause");
    }
    all
}

type Rows = &'static [&'static [i32]];

// Formulas with the number of their variables, lines, and whether these are a derivation.
const DERIVATIONS: &[(u32, Rows, Rows, bool)] = &[
    (2, &[&[1, 2], &[-1], &[-2]], &[&[]], true),
    (2, &[&[1, 2], &[-1], &[-2]], &[&[2], &[]], true),
    (2, &[&[1, 2], &[-1], &[-2]], &[&[2]], false),
    (2, &[&[1, 2], &[-1], &[-2]], &[], false),
    (2, &[&[1, 2], &[-1]], &[&[]], false),
    (2, &[&[1, 2], &[1, -2], &[-1, 2], &[-1, -2]], &[&[]], false),
    (
        2,
        &[&[1, 2], &[1, -2], &[-1, 2], &[-1, -2]],
        &[&[1], &[]],
        true,
    ),
    (
        2,
        &[&[1, 2], &[1, -2], &[-1, 2], &[-1, -2]],
        &[&[], &[1], &[]],
        false,
    ),
    // a line may name variables above the formula's, which may have more than its clauses name
    (
        2,
        &[&[1, 2], &[1, -2], &[-1, 2], &[-1, -2]],
        &[&[HIGH, 1], &[-HIGH, 1], &[1], &[]],
        true,
    ),
    (
        4_294_967_295,
        &[&[1, 2], &[1, -2], &[-1, 2], &[-1, -2]],
        &[&[HIGH, 1], &[-HIGH, 1], &[1], &[]],
        true,
    ),
    // no clause, and the empty one
    (0, &[], &[], false),
    (0, &[], &[&[]], false),
    (0, &[&[]], &[&[]], true),
    (0, &[&[]], &[&[7], &[]], true),
    // a literal twice
    (2, &[&[1, 1], &[-1, 2, 2], &[-2, -2]], &[&[]], true),
    (2, &[&[1, 1], &[2, -2]], &[&[2], &[]], false),
];

fn formula(rt: &impl Abort, alloc: Global, vars: u32, rows: Rows) -> &'static Formula {
    let clauses = clauses(rt, alloc, rows);
    keep(rt, alloc, Formula { vars, clauses })
}

fn is_derivation(rt: &impl Abort, alloc: Global, f: &Formula, rows: Rows) -> bool {
    let lines = clauses(rt, alloc, rows);
    let lines = keep(rt, alloc, Derivation { lines });
    check(alloc, f, lines).expect(rt, "an answer")
}

#[test]
fn derivations_are_told_from_others(rt: HostRuntime) {
    let alloc = rt.alloc();
    for (row, (vars, rows, lines, wanted)) in DERIVATIONS.iter().enumerate() {
        let f = formula(&rt, alloc, *vars, rows);
        let found = is_derivation(&rt, alloc, f, lines);
        assert_at(&rt, found == *wanted, row);
    }
}

// Formulas of two variables, and lines with whether they are accepted one behind the other.
const LINES: &[(Rows, &[(&[i32], bool)])] = &[
    (&[&[1, 2], &[-1], &[-2]], &[(&[2], true)]),
    (
        &[&[1, 2], &[-1]],
        &[(&[2], true), (&[-2], false), (&[], false)],
    ),
    (&[&[1, 2]], &[(&[3, -3], true), (&[3, 3], false)]),
    (
        &[&[1], &[-1, 2]],
        &[
            (&[HIGH], false),
            (&[HIGH, -HIGH], true),
            (&[HIGH, 2], true),
            (&[-HIGH, 2], true),
        ],
    ),
];

fn assert_lines(rt: &impl Abort, alloc: Global, f: &Formula, lines: &[(&[i32], bool)]) {
    let mut checker = Checker::new(alloc, f).expect(rt, "a checker");
    for (place, (numbers, wanted)) in lines.iter().enumerate() {
        let line = keep(rt, alloc, clause(rt, alloc, numbers));
        let found = checker.add(alloc, line).expect(rt, "an answer");
        assert_at(rt, found == *wanted, place);
    }
}

#[test]
fn lines_are_accepted_one_by_one(rt: HostRuntime) {
    let alloc = rt.alloc();
    for (rows, lines) in LINES {
        assert_lines(&rt, alloc, formula(&rt, alloc, 2, rows), lines);
    }
}
