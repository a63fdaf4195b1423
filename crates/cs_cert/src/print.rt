// A paper to bytes.
ghost use Rattle.std.specs.Prelude.{◌≡◌, IfOk, OnOk, codes};
ghost use Rattle.std.specs.List.{AllByRecursion};
ghost use Rattle.serde_json.specs.Data.{put, string as string_data};
ghost use Rattle.serde_json.specs.View.{members_view, view};
ghost use Rattle.cs_cert.specs.declared.step.Step.TheVariants.{EdgeStep, PathStep, PinStep};
ghost use Rattle.cs_cert.specs.Papers.{certificate_data, data_of, fallback_data, items_data, lag_data, mode_text, printed, refusal_data, step_data, whole_data, IsInRange};
ghost use Rattle.cs_cert.specs.PaperShape.{paper_of, Says};
ghost use Rattle.cs_cert.specs.Fits.{FitsCertificate, FitsFallback, FitsPaper, FitsRefusal, IsId, IsSigned, IsWord};

use crate::paper::{Certificate, FallbackPaper, Paper, Refusal};
use crate::printing::{Printing, put_list, put_text, put_whole};
use crate::step::Step;
use cs_base::{EdgeId, Mode, VertexId};
use cs_json::members::Members;
use serde_json::{Map, Value};
use std::alloc::{AllocError, Global};

fn edge_step(alloc: Global, edge: EdgeId) -> Result<Value, AllocError>
    ensures value { IfOk result (λ v. view v ≡ step_data (EdgeStep edge)) }
    ensures fits { IsId edge }
{
    let mut members = Map::new(alloc);
    put_whole(alloc, &mut members, "edge", u64::from(edge.get()))?;
    put_text(alloc, &mut members, "kind", "edge")?;
    Ok(Value::Object(members))
}

fn path_step(alloc: Global, from: VertexId, edges: &[EdgeId]) -> Result<Value, AllocError>
    ensures value { IfOk result (λ v. view v ≡ step_data (PathStep from edges.now)) }
    ensures from { IsId from }
    ensures edges { OnOk result (AllByRecursion IsId edges.now) }
{
    let number = u64::from(from.get());
    let mut members = Map::new(alloc);
    put_list(alloc, &mut members, "edges", edges)?;
    put_whole(alloc, &mut members, "from", number)?;
    put_text(alloc, &mut members, "kind", "path")?;
    Ok(Value::Object(members))
}

fn pin_step(alloc: Global, from: VertexId, to: VertexId) -> Result<Value, AllocError>
    ensures value { IfOk result (λ v. view v ≡ step_data (PinStep from to)) }
    ensures from { IsId from }
    ensures to { IsId to }
{
    let first = u64::from(from.get());
    let last = u64::from(to.get());
    let mut members = Map::new(alloc);
    put_whole(alloc, &mut members, "from", first)?;
    put_text(alloc, &mut members, "kind", "pin")?;
    put_whole(alloc, &mut members, "to", last)?;
    Ok(Value::Object(members))
}

impl Printing for Step {
    ghost use Rattle.cs_cert.specs.Papers.{step_data};
    ghost use Rattle.cs_cert.specs.Fits.{IsStep};

    ghost shown = { step_data };

    ghost fits = { IsStep };

    fn value(&self, alloc: Global) -> Result<Value, AllocError> {
        match self {
            Step::EdgeStep { edge } => edge_step(alloc, *edge),
            Step::PathStep { from, edges } => path_step(alloc, *from, edges.as_slice()),
            Step::PinStep { from, to } => pin_step(alloc, *from, *to),
        }
    }
}

fn mode_text(mode: Mode) -> &'static str
    ensures { result.now ≡ mode_text mode }
{
    match mode {
        Mode::Any => "any",
        Mode::Forward => "forward",
    }
}

// Puts the members that come last in each paper, its kind first.
fn put_last(
    alloc: Global,
    members: &mut Members,
    kind: &str,
    lags: &[i64],
    mode: Mode,
    period: u64,
    table: u64,
) -> Result<(), AllocError>
    ensures put { OnOk result (members_view members.new.entries
        ≡ put (codes "version") (whole_data 2)
        (put (codes "table") (whole_data table)
        (put (codes "period") (whole_data period)
        (put (codes "mode") (string_data (mode_text mode))
        (put (codes "lags") (items_data lag_data lags.now)
        (put (codes "kind") (string_data kind.now) (members_view members.old.entries))))))) }
    ensures lags { OnOk result (AllByRecursion IsSigned lags.now) }
    ensures period { IsWord period }
    ensures table { IsWord table }
{
    put_text(alloc, members, "kind", kind)?;
    put_list(alloc, members, "lags", lags)?;
    put_text(alloc, members, "mode", mode_text(mode))?;
    put_whole(alloc, members, "period", period)?;
    put_whole(alloc, members, "table", table)?;
    put_whole(alloc, members, "version", 2)
}

fn certificate(alloc: Global, paper: &Certificate) -> Result<Value, AllocError>
    ensures value { IfOk result (λ v. view v ≡ certificate_data paper.now) }
    ensures fits { OnOk result (FitsCertificate paper.now) }
{
    let mut members = Map::new(alloc);
    put_list(alloc, &mut members, "contents", paper.contents.as_slice())?;
    put_whole(alloc, &mut members, "contexts", paper.contexts)?;
    put_list(alloc, &mut members, "cycle", paper.cycle.as_slice())?;
    put_last(
        alloc,
        &mut members,
        "certificate",
        paper.lags.as_slice(),
        paper.mode,
        paper.period,
        paper.table,
    )?;
    Ok(Value::Object(members))
}

fn refusal(alloc: Global, paper: &Refusal) -> Result<Value, AllocError>
    ensures value { IfOk result (λ v. view v ≡ refusal_data paper.now) }
    ensures fits { OnOk result (FitsRefusal paper.now) }
{
    let mut members = Map::new(alloc);
    put_list(alloc, &mut members, "chains", paper.chains.as_slice())?;
    put_whole(alloc, &mut members, "context", paper.context)?;
    put_whole(alloc, &mut members, "contexts", paper.contexts)?;
    put_list(alloc, &mut members, "cycle", paper.cycle.as_slice())?;
    put_list(
        alloc,
        &mut members,
        "derivation",
        paper.derivation.lines.as_slice(),
    )?;
    put_last(
        alloc,
        &mut members,
        "refusal",
        paper.lags.as_slice(),
        paper.mode,
        paper.period,
        paper.table,
    )?;
    Ok(Value::Object(members))
}

fn fallback(alloc: Global, paper: &FallbackPaper) -> Result<Value, AllocError>
    ensures value { IfOk result (λ v. view v ≡ fallback_data paper.now) }
    ensures fits { OnOk result (FitsFallback paper.now) }
{
    let below = &paper.below;
    let mut members = Map::new(alloc);
    put_list(alloc, &mut members, "below", below.lags.as_slice())?;
    put_list(alloc, &mut members, "chains", below.chains.as_slice())?;
    put_list(alloc, &mut members, "contents", paper.contents.as_slice())?;
    put_whole(alloc, &mut members, "context", below.context)?;
    put_whole(alloc, &mut members, "contexts", paper.contexts)?;
    put_list(
        alloc,
        &mut members,
        "derivation",
        below.derivation.lines.as_slice(),
    )?;
    put_last(
        alloc,
        &mut members,
        "fallback",
        paper.lags.as_slice(),
        paper.mode,
        paper.period,
        paper.table,
    )?;
    Ok(Value::Object(members))
}

#[tactic(auto, unfolding(crate::specs::Papers::data_of))]
fn value_of(alloc: Global, paper: &Paper) -> Result<Value, AllocError>
    ensures value { IfOk result (λ v. view v ≡ data_of paper.now) }
    ensures fits { OnOk result (FitsPaper paper.now) }
{
    match paper {
        Paper::Certificate(paper) => certificate(alloc, paper),
        Paper::Refusal(paper) => refusal(alloc, paper),
        Paper::Fallback(paper) => fallback(alloc, paper),
    }
}

/// Prints a paper as compact JSON of version 2, with keys in byte order and one newline.
///
/// It builds one tree of values for the whole paper. A paper in the ranges of what is read is read again from its
/// text. It errs only where memory runs out.
pub fn print_certificate(alloc: Global, paper: &Paper) -> Result<Vec<u8>, AllocError>
    ensures text { IfOk result (λ bytes. bytes.items ≡ printed paper.now) }
    ensures reads_back { IsInRange paper.now
        → IfOk result (λ bytes. paper_of bytes.items ≡ Says paper.now) }
{
    let value = value_of(alloc, paper)?;
    let mut text = value.to_vec(alloc)?;
    text.push(b'\n')?;
    Ok(text)
}
