// What is decided of small formulas, of pigeons and holes, of chains, and of a formula that wants learning.
use crate::formulas::{add, add_lits, formula, holds, is_in_range, no, yes};
use cs_base::{Formula, Lit};
use cs_cells::Kind;
use cs_rup::check;
use cs_sat::{Verdict, decide};
use std::alloc::{AllocError, Global};
use std::process::Abort;
use std::test::Fail;

// Whether the formula has a model; the answer is checked.
fn has_model(rt: &impl Abort, alloc: Global, f: &Formula) -> Result<bool, AllocError> {
    assert!(rt; is_in_range(f));
    match decide(alloc, f)? {
        Verdict::Model(bits) => {
            assert_eq!(rt; bits.len(), f.vars as usize);
            assert!(rt; holds(f, bits.as_slice()));
            Ok(true)
        }
        Verdict::Refuted(derivation) => {
            assert!(rt; check(alloc, f, &derivation)?);
            Ok(false)
        }
    }
}

type Rows = &'static [&'static [i32]];

// Formulas with the number of their variables, and whether they have a model.
const FORMULAS: [(u32, Rows, bool); 15] = [
    (0, &[], true),
    (0, &[&[]], false),
    (3, &[], true),
    (2, &[&[1, 2], &[-1]], true),
    (2, &[&[1, 2], &[-1], &[-2]], false),
    (2, &[&[1, -1], &[-2, 2, -2]], true),
    (1, &[&[1, 1], &[-1, -1]], false),
    (1, &[&[1, 1], &[1, 1]], true),
    (3, &[&[1, 2], &[]], false),
    (4, &[&[1, 1, 2], &[1, 1, 2], &[-1, 3], &[-3, -1]], true),
    (2, &[&[1, 2], &[1, -2], &[-1, 2], &[-1, -2]], false),
    (2, &[&[1, 2], &[1, -2], &[-1, 2]], true),
    (3, &[&[1], &[-1, 2], &[-2, 3], &[-3]], false),
    // A gate that has to be both 0 and 1 a clock before the first.
    (3, &[&[1], &[3, 2], &[-3, -2], &[-2], &[2]], false),
    (
        3,
        &[
            &[1, 2, 3],
            &[1, 2, -3],
            &[1, -2, 3],
            &[1, -2, -3],
            &[-1, 2, 3],
            &[-1, 2, -3],
            &[-1, -2, 3],
            &[-1, -2, -3],
        ],
        false,
    ),
];

#[test]
fn small_formulas(rt: HostRuntime) -> Result<(), Fail> {
    for (vars, rows, answer) in &FORMULAS {
        let mut f = formula(rt.alloc(), *vars);
        for numbers in *rows {
            add(rt.alloc(), &mut f, numbers)?;
        }
        assert_eq!(rt; has_model(&rt, rt.alloc(), &f)?, *answer);
    }
    Ok(())
}

// Each pigeon sits in a hole, and no two in one.
fn pigeons(alloc: Global, count: u8, holes: u8) -> Result<Formula, AllocError> {
    let count = u32::from(count);
    let holes = u32::from(holes);
    let mut f = formula(alloc, 256 * count);
    for pigeon in 0..count {
        let mut sits = Vec::new(alloc);
        for hole in 0..holes {
            sits.push(yes(256 * pigeon + hole + 1))?;
        }
        add_lits(alloc, &mut f, sits.as_slice())?;
    }
    for hole in 0..holes {
        for pigeon in 0..count {
            for other in 0..pigeon {
                let both = [no(256 * pigeon + hole + 1), no(256 * other + hole + 1)];
                add_lits(alloc, &mut f, &both)?;
            }
        }
    }
    Ok(f)
}

#[test]
fn five_pigeons_in_four_holes(rt: HostRuntime) -> Result<(), Fail> {
    let f = pigeons(rt.alloc(), 5, 4)?;
    assert!(rt; !has_model(&rt, rt.alloc(), &f)?);
    Ok(())
}

#[test]
fn seven_pigeons_in_six_holes(rt: HostRuntime) -> Result<(), Fail> {
    let f = pigeons(rt.alloc(), 7, 6)?;
    assert!(rt; !has_model(&rt, rt.alloc(), &f)?);
    Ok(())
}

#[test]
fn seven_pigeons_in_seven_holes(rt: HostRuntime) -> Result<(), Fail> {
    let f = pigeons(rt.alloc(), 7, 7)?;
    assert!(rt; has_model(&rt, rt.alloc(), &f)?);
    Ok(())
}

// Each two neighbours of 32 differ, and so do the last one and the first, or else they are equal.
fn ring(alloc: Global, closed_by_difference: bool) -> Result<Formula, AllocError> {
    let mut f = formula(alloc, 32);
    for var in 1..32 {
        add_lits(alloc, &mut f, &[yes(var), yes(var + 1)])?;
        add_lits(alloc, &mut f, &[no(var), no(var + 1)])?;
    }
    let last = Lit {
        var: 32,
        positive: closed_by_difference,
    };
    add_lits(alloc, &mut f, &[yes(1), last])?;
    add_lits(alloc, &mut f, &[no(1), last.negated()])?;
    Ok(f)
}

#[test]
fn rings_of_differences(rt: HostRuntime) -> Result<(), Fail> {
    let even = ring(rt.alloc(), true)?;
    assert!(rt; has_model(&rt, rt.alloc(), &even)?);
    let odd = ring(rt.alloc(), false)?;
    assert!(rt; !has_model(&rt, rt.alloc(), &odd)?);
    Ok(())
}

// Each three variables in a row have an odd sum, and three of them an even one too where it has no model.
fn chain(alloc: Global, contradicted: bool) -> Result<Formula, AllocError> {
    let mut f = formula(alloc, 32);
    for var in 1..31 {
        sum(alloc, &mut f, [yes(var), yes(var + 1), yes(var + 2)])?;
    }
    if contradicted {
        sum(alloc, &mut f, [yes(15), yes(16), no(17)])?;
    }
    Ok(f)
}

// Three literals of which one or three are true.
fn sum(alloc: Global, f: &mut Formula, lits: [Lit; 3]) -> Result<(), AllocError> {
    let [a, b, c] = lits;
    add_lits(alloc, f, &[a, b, c])?;
    add_lits(alloc, f, &[a, b.negated(), c.negated()])?;
    add_lits(alloc, f, &[a.negated(), b, c.negated()])?;
    add_lits(alloc, f, &[a.negated(), b.negated(), c])
}

#[test]
fn chains_of_sums(rt: HostRuntime) -> Result<(), Fail> {
    let free = chain(rt.alloc(), false)?;
    assert!(rt; has_model(&rt, rt.alloc(), &free)?);
    let contradicted = chain(rt.alloc(), true)?;
    assert!(rt; !has_model(&rt, rt.alloc(), &contradicted)?);
    Ok(())
}

// Each variable from the third on is the exclusive or of the two before it, so each is that of three places before; or
// else the first and the fourth differ.
fn exclusive_ors(alloc: Global, contradicted: bool) -> Result<Formula, AllocError> {
    let mut f = formula(alloc, 32);
    for var in 1..31 {
        Kind::Xor.clauses(alloc, yes(var + 2), &[yes(var), yes(var + 1)], &mut f)?;
    }
    if contradicted {
        add_lits(alloc, &mut f, &[yes(1), yes(4)])?;
        add_lits(alloc, &mut f, &[no(1), no(4)])?;
    }
    Ok(f)
}

#[test]
fn chains_of_exclusive_ors(rt: HostRuntime) -> Result<(), Fail> {
    let free = exclusive_ors(rt.alloc(), false)?;
    assert!(rt; has_model(&rt, rt.alloc(), &free)?);
    let contradicted = exclusive_ors(rt.alloc(), true)?;
    assert!(rt; !has_model(&rt, rt.alloc(), &contradicted)?);
    Ok(())
}

// All clauses over three variables.
const EIGHT: [&[i32]; 8] = [
    &[61, 62, 63],
    &[61, 62, -63],
    &[61, -62, 63],
    &[61, -62, -63],
    &[-61, 62, 63],
    &[-61, 62, -63],
    &[-61, -62, 63],
    &[-61, -62, -63],
];

// A contradiction over three variables among pairs that a search without learning goes through.
fn contradiction_among_pairs(alloc: Global) -> Result<Formula, AllocError> {
    let mut f = formula(alloc, 123);
    for pair in 1..31 {
        add_lits(alloc, &mut f, &[yes(2 * pair - 1), yes(2 * pair)])?;
    }
    for numbers in &EIGHT {
        add(alloc, &mut f, numbers)?;
    }
    for pair in 32..62 {
        add_lits(alloc, &mut f, &[yes(2 * pair), yes(2 * pair + 1)])?;
    }
    Ok(f)
}

#[test]
fn learning_ends_in_time(rt: HostRuntime) -> Result<(), Fail> {
    let f = contradiction_among_pairs(rt.alloc())?;
    assert!(rt; !has_model(&rt, rt.alloc(), &f)?);
    Ok(())
}
