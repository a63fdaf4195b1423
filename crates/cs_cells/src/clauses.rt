// The gates' clauses (Tseitin 1968).
ghost use Rattle.std.specs.Prelude.{◌≡◌, ◌<◌, ◌≤◌, ◌^◌, ◌++◌, ◌∷◌, [], ◌↔◌, All, map, take, length, OnOk, OnErr, IfOk, IsTrue};
ghost use Rattle.cs_base.specs.declared.formula.Lit.{Lit as Literal};
ghost use Rattle.cs_base.specs.Formulas.{Assignment, lit_value, MakesTrue, IsInRange};
ghost use Rattle.cs_base.specs.Derivations.{negated as negated_lit};
ghost use Rattle.cs_cells.specs.Clauses.{bits_of as bits_of_number, has as has_value, has_not as has_not_value, have_not as have_not_values, row_clause as row_clause_of, table_clauses, datum_clauses, select_clauses, selected_out as selected_out_of, gate_clauses, IsWithin};
ghost use Rattle.cs_cells.specs.Gates.{row_of, pin_count, gate_value};

use crate::gate::Kind;
use cs_base::{Clause, Formula, Lit, Sequence};
use std::alloc::{AllocError, Global};
use std::mem;

// The literal that says that a literal has this value.
fn has(lit: Lit, value: bool) -> Lit
    ensures { result ≡ has_value lit value }
{
    if value { lit } else { lit.negated() }
}

// The literal that says that a literal hasn't this value.
fn has_not(lit: Lit, value: bool) -> Lit
    ensures { result ≡ has_not_value lit value }
{
    if value { lit.negated() } else { lit }
}

// The lowest digits of a number in base 2, the lowest first.
fn bits_of(alloc: Global, count: usize, number: usize) -> Result<Vec<bool>, AllocError>
    ensures { IfOk result (λ bits. bits.items ≡ bits_of_number count number) }
{
    let mut bits = Vec::new(alloc);
    let mut rest = number;
    for _ in 0..count {
        bits.push(rest % 2 == 1)?;
        rest /= 2;
    }
    Ok(bits)
}

// The literals that say that pins haven't all these values.
fn have_not(alloc: Global, pins: &[Lit], values: &[bool]) -> Result<Vec<Lit>, AllocError>
    ensures { IfOk result (λ lits. lits.items ≡ have_not_values pins.now values.now) }
{
    pins.iter()
        .zip(values.iter())
        .map(|(pin, value)| has_not(*pin, *value))
        .collect(alloc)
}

fn row_clause(
    alloc: Global,
    kind: Kind,
    out: Lit,
    pins: &[Lit],
    number: usize,
) -> Result<Clause, AllocError>
    requires { length pins.now ≡ pin_count kind }
    ensures { IfOk result (λ clause. clause ≡ row_clause_of kind out pins.now number) }
{
    let bits = bits_of(alloc, pins.len(), number)?;
    let mut lits = have_not(alloc, pins, bits.as_slice())?;
    lits.push(has(out, kind.eval(bits.as_slice())))?;
    Ok(Clause {
        lits: Sequence::from_vec(lits),
    })
}

fn table(alloc: Global, kind: Kind, out: Lit, pins: &[Lit]) -> Result<Vec<Clause>, AllocError>
    requires pins { length pins.now ≡ pin_count kind }
    requires few { length pins.now ≤ 32 }
    ensures { IfOk result (λ clauses. clauses.items ≡ table_clauses kind out pins.now) }
{
    let mut clauses = Vec::new(alloc);
    for number in 0..2usize.pow(pins.len() as u32) {
        clauses.push(row_clause(alloc, kind, out, pins, number)?)?;
    }
    Ok(clauses)
}

// The selects aren't this number, or one of two literals is true.
fn select_clause(
    alloc: Global,
    selects: &[Lit],
    number: usize,
    one: Lit,
    other: Lit,
) -> Result<Clause, AllocError>
    ensures { IfOk result (λ clause. clause.lits
        ≡ have_not_values selects.now (bits_of_number (length selects.now) number) ++ one ∷ other ∷ []) }
{
    let bits = bits_of(alloc, selects.len(), number)?;
    let mut lits = have_not(alloc, selects, bits.as_slice())?;
    lits.push(one)?;
    lits.push(other)?;
    Ok(Clause {
        lits: Sequence::from_vec(lits),
    })
}

fn select_table(
    alloc: Global,
    out: Lit,
    selects: &[Lit],
    data_pins: &[Lit],
) -> Result<Vec<Clause>, AllocError>
    ensures { IfOk result (λ clauses. clauses.items ≡ select_clauses out selects.now data_pins.now) }
{
    let mut clauses = Vec::new(alloc);
    for (number, datum) in data_pins.iter().enumerate() {
        clauses.push(select_clause(alloc, selects, number, datum.negated(), out)?)?;
        clauses.push(select_clause(alloc, selects, number, *datum, out.negated())?)?;
    }
    Ok(clauses)
}

// The literal that has the selected datum's value.
fn selected_out(kind: Kind, out: Lit) -> Lit
    ensures { result ≡ selected_out_of kind out }
{
    match kind {
        Kind::Nmux => out.negated(),
        _ => out,
    }
}

fn clauses_of(alloc: Global, kind: Kind, out: Lit, pins: &[Lit]) -> Result<Vec<Clause>, AllocError>
    requires { length pins.now ≡ pin_count kind }
    ensures { IfOk result (λ clauses. clauses.items ≡ gate_clauses kind out pins.now) }
{
    if kind.select_count() == 0 {
        return table(alloc, kind, out, pins);
    }
    let (data_pins, selects) = pins.split_at(pins.len() - kind.select_count());
    select_table(alloc, selected_out(kind, out), selects, data_pins)
}

// Puts clauses behind those of a formula; a refusal leaves it unchanged.
fn append(alloc: Global, to: &mut Formula, mut more: Vec<Clause>) -> Result<(), AllocError>
    ensures vars { to.new.vars ≡ to.old.vars }
    ensures ok { OnOk result (to.new.clauses ≡ to.old.clauses ++ more.items) }
    ensures err { OnErr result (to.new.clauses ≡ to.old.clauses) }
{
    let mut clauses = mem::replace(&mut to.clauses, Sequence::new(alloc)).into_vec();
    let appended = clauses.append(&mut more);
    to.clauses = Sequence::from_vec(clauses);
    appended
}

impl Kind {
    /// Appends the clauses of a gate with these pins and this output. They come in the order of the number of
    /// the pins, the first the lowest digit; of a multiplexer, of the selects. An assignment makes them true
    /// exactly where the output has the gate's value (Tseitin 1968). Where the pins and the output are among the
    /// formula's variables, the formula stays within them. It errs only for want of memory, and leaves the
    /// formula unchanged then.
    pub fn clauses(
        self,
        alloc: Global,
        out: Lit,
        pins: &[Lit],
        to: &mut Formula,
    ) -> Result<(), AllocError>
        requires { length pins.now ≡ pin_count self }
        ensures vars { to.new.vars ≡ to.old.vars }
        ensures ok { OnOk result (to.new.clauses ≡ to.old.clauses ++ gate_clauses self out pins.now) }
        ensures err { OnErr result (to.new.clauses ≡ to.old.clauses) }
        ensures in_range { All (IsWithin to.old.vars) pins.now → IsWithin to.old.vars out
            → IsInRange to.old → IsInRange to.new }
        ensures meaning { (a : Assignment) → MakesTrue a (gate_clauses self out pins.now)
            ↔ (lit_value a out ≡ gate_value self (map (lit_value a) pins.now)) }
    {
        let more = clauses_of(alloc, self, out, pins)?;
        append(alloc, to, more)?;
        Ok(())
    }
}
