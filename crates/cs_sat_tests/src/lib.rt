//! Tests of the solver, over its public call alone: each model is tried on the clauses, each derivation is checked.
#![tactic(auto)]

#[cfg(test)]
mod deciding;
mod formulas;
