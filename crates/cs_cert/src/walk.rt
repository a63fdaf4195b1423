// The walk over a JSON value: the paper that it is, or the first refused place.
ghost use Rattle.serde_json.specs.View.{view, members_view};
ghost use Rattle.cs_json.specs.Gives.{Gives};
ghost use Rattle.cs_cert.specs.PaperShape.{certificate, edge_step, fallback, paper, path_step, pin_step, refusal, retiming};

use crate::kind::{PaperKind, StepKind};
use crate::lists::{Readable, listed, listed_at, read_at};
use crate::numbers::table;
use crate::paper::{Below, Certificate, FallbackPaper, Paper, Refusal};
use crate::retiming::Retiming;
use crate::step::Step;
use cs_base::{Clause, Derivation};
use cs_json::ReadError;
use cs_json::members::{Members, object};
use serde_json::Value;
use std::alloc::Global;

impl Readable for Clause {
    ghost use Rattle.cs_cert.specs.PaperShape.{line};

    ghost read_from = { line };

    fn read(alloc: Global, value: &Value) -> Result<Self, ReadError> {
        let lits = listed(alloc, value)?;
        Ok(Clause { lits })
    }
}

impl Readable for Derivation {
    ghost use Rattle.cs_cert.specs.PaperShape.{derivation};

    ghost read_from = { derivation };

    fn read(alloc: Global, value: &Value) -> Result<Self, ReadError> {
        let lines = listed(alloc, value)?;
        Ok(Derivation { lines })
    }
}

fn edge_step(alloc: Global, members: &Members) -> Result<Step, ReadError>
    ensures { Gives result (edge_step (members_view members.now.entries)) }
{
    let edge = read_at(alloc, members, "edge")?;
    Ok(Step::EdgeStep { edge })
}

fn path_step(alloc: Global, members: &Members) -> Result<Step, ReadError>
    ensures { Gives result (path_step (members_view members.now.entries)) }
{
    let edges = listed_at(alloc, members, "edges")?;
    let from = read_at(alloc, members, "from")?;
    Ok(Step::PathStep { from, edges })
}

fn pin_step(alloc: Global, members: &Members) -> Result<Step, ReadError>
    ensures { Gives result (pin_step (members_view members.now.entries)) }
{
    let from = read_at(alloc, members, "from")?;
    let to = read_at(alloc, members, "to")?;
    Ok(Step::PinStep { from, to })
}

impl Readable for Step {
    ghost use Rattle.cs_cert.specs.PaperShape.{step};

    ghost read_from = { step };

    fn read(alloc: Global, value: &Value) -> Result<Self, ReadError> {
        let members = object(alloc, value)?;
        match read_at(alloc, members, "kind")? {
            StepKind::AlongEdge => edge_step(alloc, members),
            StepKind::AlongPath => path_step(alloc, members),
            StepKind::BetweenPins => pin_step(alloc, members),
        }
    }
}

fn retiming(alloc: Global, members: &Members) -> Result<Retiming, ReadError>
    ensures { Gives result (retiming (members_view members.now.entries)) }
{
    let lags = listed_at(alloc, members, "lags")?;
    let mode = read_at(alloc, members, "mode")?;
    let period = read_at(alloc, members, "period")?;
    let table = table(alloc, members)?;
    Ok(Retiming {
        lags,
        mode,
        period,
        table,
    })
}

#[tactic(auto, unfolding(crate::specs::PaperShape::certificate))]
fn certificate(alloc: Global, members: &Members) -> Result<Certificate, ReadError>
    ensures { Gives result (certificate (members_view members.now.entries)) }
{
    let contents = listed_at(alloc, members, "contents")?;
    let contexts = read_at(alloc, members, "contexts")?;
    let cycle = listed_at(alloc, members, "cycle")?;
    let Retiming {
        lags,
        mode,
        period,
        table,
    } = retiming(alloc, members)?;
    Ok(Certificate {
        contexts,
        mode,
        table,
        period,
        lags,
        contents,
        cycle,
    })
}

#[tactic(auto, unfolding(crate::specs::PaperShape::refusal))]
fn refusal(alloc: Global, members: &Members) -> Result<Refusal, ReadError>
    ensures { Gives result (refusal (members_view members.now.entries)) }
{
    let chains = listed_at(alloc, members, "chains")?;
    let context = read_at(alloc, members, "context")?;
    let contexts = read_at(alloc, members, "contexts")?;
    let cycle = listed_at(alloc, members, "cycle")?;
    let derivation = read_at(alloc, members, "derivation")?;
    let Retiming {
        lags,
        mode,
        period,
        table,
    } = retiming(alloc, members)?;
    Ok(Refusal {
        contexts,
        mode,
        table,
        period,
        lags,
        cycle,
        chains,
        context,
        derivation,
    })
}

#[tactic(auto, unfolding(crate::specs::PaperShape::fallback))]
fn fallback(alloc: Global, members: &Members) -> Result<FallbackPaper, ReadError>
    ensures { Gives result (fallback (members_view members.now.entries)) }
{
    let below = listed_at(alloc, members, "below")?;
    let chains = listed_at(alloc, members, "chains")?;
    let contents = listed_at(alloc, members, "contents")?;
    let context = read_at(alloc, members, "context")?;
    let contexts = read_at(alloc, members, "contexts")?;
    let derivation = read_at(alloc, members, "derivation")?;
    let Retiming {
        lags,
        mode,
        period,
        table,
    } = retiming(alloc, members)?;
    Ok(FallbackPaper {
        contexts,
        mode,
        table,
        period,
        lags,
        contents,
        below: Below {
            lags: below,
            chains,
            context,
            derivation,
        },
    })
}

/// The paper that a JSON value is.
pub(crate) fn paper(alloc: Global, value: &Value) -> Result<Paper, ReadError>
    ensures { Gives result (paper (view value.now)) }
{
    let members = object(alloc, value)?;
    let kind = read_at(alloc, members, "kind")?;
    match kind {
        PaperKind::OfCertificate => Ok(Paper::Certificate(certificate(alloc, members)?)),
        PaperKind::OfRefusal => Ok(Paper::Refusal(refusal(alloc, members)?)),
        PaperKind::OfFallback => Ok(Paper::Fallback(fallback(alloc, members)?)),
    }
}
