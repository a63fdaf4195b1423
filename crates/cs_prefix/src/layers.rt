// The registers that edges of one driver share, level by level: at each level the edges that go on are split by the
// start of their next register.
ghost use Rattle.std.specs.Prelude.{◌≡◌, ◌<◌, ◌≤◌, ◌^◌, ℕ, [], ◌∷◌, ◌++◌, All, IfOk, OnOk, None, Some, filter, get_or, length, slice_get, replicate};
ghost use Rattle.cs_prefix.specs.Layers.{AreGroupsBelow, add_child, add_driver, goes_on, longest, next_layer, progress, set_all, split};

use crate::plan::{DriverId, Planned};
use cs_base::Sequence;
use std::alloc::{AllocError, Global};
use std::mem::replace;

/// Edges of one driver whose contents begin alike, and the register behind what is alike, which is none for nothing.
#[derive(Drop)]
pub(crate) struct Group {
    pub behind: Option<usize>,
    pub edges: Sequence<usize>,
}

/// The registers so far, and the groups of the level that was reached. Beside it stands, for each edge, the last of
/// the registers that it passes.
#[derive(Drop)]
pub(crate) struct Layer {
    pub registers: Sequence<Planned>,
    pub groups: Sequence<Group>,
}

// The start of the register of an edge at a level, where it has one there.
fn start_at(contents: &[Sequence<bool>], edge: usize, level: usize) -> Option<bool>
    requires { edge < length contents.now }
    ensures { result ≡ slice_get (get_or contents.now edge []) level }
{
    contents[edge].as_slice().get(level).copied()
}

fn goes_on(contents: &[Sequence<bool>], level: usize, start: bool, edge: usize) -> bool
    requires { edge < length contents.now }
    ensures { result ≡ goes_on contents.now level start edge }
{
    match start_at(contents, edge, level) {
        Some(digit) => if start { digit } else { !digit },
        None => false,
    }
}

// The edges whose register at this level has this start.
fn going_on(
    alloc: Global,
    contents: &[Sequence<bool>],
    level: usize,
    start: bool,
    edges: &[usize],
) -> Result<Sequence<usize>, AllocError>
    requires { All (λ e. e < length contents.now) edges.now }
    ensures { IfOk result (λ found. found ≡ filter (goes_on contents.now level start) edges.now) }
{
    let mut found = Sequence::new(alloc);
    for edge in edges {
        if goes_on(contents, level, start, *edge) {
            found.push(*edge)?;
        }
    }
    Ok(found)
}

// These edges pass this register last.
fn end_at(ends: &mut [Option<usize>], edges: &[usize], place: usize)
    requires { All (λ e. e < length ends.now) edges.now }
    ensures made { ends.new ≡ set_all ends.old edges.now place }
    ensures count { length ends.new ≡ length ends.old }
{
    for edge in edges {
        ends[*edge] = Some(place);
    }
}

// The most registers of one of these edges.
fn longest(contents: &[Sequence<bool>], edges: &[usize]) -> usize
    requires { All (λ e. e < length contents.now) edges.now }
    ensures { result ≡ longest contents.now edges.now }
{
    let mut most = 0;
    for edge in edges {
        most = most.max(contents[*edge].len());
    }
    most
}

impl Layer {
    // A register for edges that go on alike, where there are any.
    #[tactic(auto, using(crate::proofs::LayerLemmas::child_made))]
    fn add_child(
        &mut self,
        ends: &mut [Option<usize>],
        driver: &DriverId,
        behind: Option<usize>,
        start: bool,
        edges: Sequence<usize>,
    ) -> Result<(), AllocError>
        requires { All (λ e. e < length ends.now) edges }
        ensures made { OnOk result (progress self.new ends.new
            ≡ add_child driver.now behind start edges (progress self.old ends.old)) }
        ensures ends { length ends.new ≡ length ends.old }
    {
        if edges.is_empty() {
            return Ok(());
        }
        let place = self.registers.len();
        self.registers.push(Planned {
            driver: *driver,
            behind,
            start,
        })?;
        end_at(ends, edges.as_slice(), place);
        self.groups.push(Group {
            behind: Some(place),
            edges,
        })
    }

    // A group is split by the start of the next register.
    fn split(
        &mut self,
        alloc: Global,
        ends: &mut [Option<usize>],
        contents: &[Sequence<bool>],
        driver: &DriverId,
        level: usize,
        group: &Group,
    ) -> Result<(), AllocError>
        requires count { length ends.now ≡ length contents.now }
        requires edges { All (λ e. e < length contents.now) group.now.edges }
        ensures made { OnOk result (progress self.new ends.new
            ≡ split contents.now driver.now level group.now (progress self.old ends.old)) }
        ensures ends { length ends.new ≡ length ends.old }
    {
        let edges = group.edges.as_slice();
        let zeros = going_on(alloc, contents, level, false, edges)?;
        let ones = going_on(alloc, contents, level, true, edges)?;
        self.add_child(ends, driver, group.behind, false, zeros)?;
        self.add_child(ends, driver, group.behind, true, ones)
    }

    // The next level: each group is split.
    fn go_on(
        &mut self,
        alloc: Global,
        ends: &mut [Option<usize>],
        contents: &[Sequence<bool>],
        driver: &DriverId,
        level: usize,
    ) -> Result<(), AllocError>
        requires count { length ends.now ≡ length contents.now }
        requires groups { AreGroupsBelow (length contents.now) self.now.groups }
        ensures made { OnOk result (progress self.new ends.new
            ≡ next_layer contents.now driver.now level (progress self.old ends.old)) }
        ensures ends { length ends.new ≡ length ends.old }
        ensures groups { OnOk result (AreGroupsBelow (length contents.now) self.new.groups) }
    {
        let groups = replace(&mut self.groups, Sequence::new(alloc));
        for group in groups.as_slice() {
            self.split(alloc, ends, contents, driver, level, group)?;
        }
        Ok(())
    }

    /// Plans the registers of the edges of one driver, behind those of others.
    pub(crate) fn add_driver(
        &mut self,
        alloc: Global,
        ends: &mut [Option<usize>],
        contents: &[Sequence<bool>],
        driver: &DriverId,
        edges: Sequence<usize>,
    ) -> Result<(), AllocError>
        requires count { length ends.now ≡ length contents.now }
        requires edges { All (λ e. e < length contents.now) edges }
        ensures made { OnOk result (progress self.new ends.new
            ≡ add_driver contents.now driver.now edges (progress self.old ends.old)) }
        ensures ends { length ends.new ≡ length ends.old }
    {
        let levels = longest(contents, edges.as_slice());
        self.groups = Sequence::new(alloc);
        self.groups.push(Group {
            behind: None,
            edges,
        })?;
        for level in 0..levels {
            self.go_on(alloc, ends, contents, driver, level)?;
        }
        Ok(())
    }
}
