// Rows of the Yosys cell library.
use crate::fixtures::assert_row;
use cs_base::{Formula, Lit, Sequence};
use cs_cells::{Class, FfKind, Kind, ResetKind, class_of};

const CLASSES: &[(&str, Class)] = &[
    ("$_MUX4_", Class::Gate(Kind::Mux4)),
    ("$_AOI3_", Class::Gate(Kind::Aoi3)),
    ("$mem_v2", Class::Memory),
    ("$scopeinfo", Class::Scope),
    ("$_DFF_PN0_", Class::Asynchronous),
    ("$and", Class::NotFine),
    ("$paramod\\m", Class::Unknown),
];

#[test]
fn type_names_have_classes(rt: HostRuntime) {
    for (name, class) in CLASSES {
        assert_row(&rt, class_of(name) == *class, name);
    }
}

#[test]
fn gates_have_names_and_pins(rt: HostRuntime) {
    assert!(rt; Kind::of("$_MUX4_") == Some(Kind::Mux4) && Kind::of("$_DFF_P_").is_none());
    let gate = Kind::Mux4;
    assert!(rt; gate.pin_count() == 6);
    assert!(rt; gate.name() == "$_MUX4_" && gate.pin_name(3) == "D" && gate.pin_name(4) == "S");
}

// Whether there are as many pins as the gate has, and they give this value.
fn has_value(gate: Kind, pins: &[bool], value: bool) -> bool {
    pins.len() == gate.pin_count() && gate.eval(pins) == value
}

#[test]
fn gates_have_equations(rt: HostRuntime) {
    assert!(rt; has_value(Kind::OrNot, &[false, false], true));
    assert!(rt; has_value(Kind::Mux, &[false, true, true], true));
    assert!(rt; has_value(Kind::Aoi3, &[true, true, false], false));
}

#[test]
fn registers_have_names_and_next_values(rt: HostRuntime) {
    let high = ResetKind {
        high: true,
        value: true,
    };
    let register = FfKind {
        rising: false,
        reset: Some(high),
        enable: Some(false),
        enable_over_reset: true,
    };
    assert!(rt; FfKind::of("$_SDFFCE_NP1N_") == Some(register));
    assert!(rt; register.next(false, false, false, true));
    assert!(rt; !register.next(true, false, true, true));
}

// The literal of this number: a negative one is a negated variable.
fn lit(number: i32) -> Lit {
    Lit {
        var: number.unsigned_abs(),
        positive: number > 0,
    }
}

// Whether the clauses from this place on are those of these numbers, three in each.
fn are_clauses(f: &Formula, from: usize, numbers: &[[i32; 3]]) -> bool {
    let clauses = f.clauses.as_slice().iter().skip(from);
    for (clause, [first, second, third]) in clauses.zip(numbers) {
        if clause.lits.as_slice() != [lit(*first), lit(*second), lit(*third)].as_slice() {
            return false;
        }
    }
    f.clauses.len() == from.saturating_add(numbers.len())
}

#[test]
fn gates_have_clauses(rt: HostRuntime) {
    let alloc = rt.alloc();
    let mut f = Formula {
        vars: 4,
        clauses: Sequence::new(alloc),
    };
    let and_not = Kind::AndNot.clauses(alloc, lit(3), &[lit(1), lit(2)], &mut f);
    and_not.expect(&rt, "clauses");
    let rows = [[1, 2, -3], [-1, 2, 3], [1, -2, -3], [-1, -2, -3]];
    assert!(rt; are_clauses(&f, 0, &rows));
    let nmux = Kind::Nmux.clauses(alloc, lit(4), &[lit(1), lit(2), lit(3)], &mut f);
    nmux.expect(&rt, "clauses");
    let rows = [[3, -1, -4], [3, 1, 4], [-3, -2, -4], [-3, 2, 4]];
    assert!(rt; are_clauses(&f, 4, &rows));
}

#[test]
fn selects_come_lowest_first(rt: HostRuntime) {
    let alloc = rt.alloc();
    let mut f = Formula {
        vars: 7,
        clauses: Sequence::new(alloc),
    };
    let pins = [lit(1), lit(2), lit(-3), lit(4), lit(5), lit(6)];
    let mux4 = Kind::Mux4.clauses(alloc, lit(7), &pins, &mut f);
    mux4.expect(&rt, "clauses");
    assert!(rt; f.clauses.len() == 8);
    let clause = f.clauses.as_slice()[4].lits.as_slice();
    assert!(rt; clause == [lit(5), lit(-6), lit(3), lit(7)].as_slice());
}
