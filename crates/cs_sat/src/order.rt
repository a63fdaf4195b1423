// The order in which variables are decided: by activity, which is bumped at conflicts and fades (Eén and Sörensson 2003).
// Nothing that is promised rests on it.
ghost use Rattle.std.specs.Prelude.{◌≡◌, ◌<◌, None, true, IfSome, length};
ghost use Rattle.cs_sat.specs.Trails.{setting_of};

use crate::trail::Trail;
use std::alloc::{AllocError, Global};
use std::collections::BinaryHeap;

/// From this activity on all activities are divided.
const MOST_ACTIVITY: u64 = 1 << 60;

/// A variable with the activity that it had when it lost its value.
#[derive(Clone, Copy, PartialEq, Eq, PartialOrd, Ord)]
struct Rank {
    activity: u64,
    var: u32,
}

/// The activities of variables, the last sign of each, and the ranks of those that may have no value. A variable without
/// a value has a rank; it may have older ones too, and so may others.
#[derive(Drop)]
pub struct Order {
    ranks: BinaryHeap<Rank>,
    activities: Vec<u64>,
    signs: Vec<bool>,
    bump: u64,
    vars: u32,
    alloc: Global,
}

// Whether a variable of the table has no value.
fn is_open(trail: &Trail, var: u32) -> bool
    ensures open { result ≡ true → setting_of trail.now var ≡ None }
    ensures within { result ≡ true → var < length trail.now.table.items }
{
    let in_table = (var as usize) < trail.table.len();
    match trail.setting(var) {
        Some(_) => false,
        None => in_table,
    }
}

impl Order {
    /// All variables from 1 to `vars` have no activity, and would be decided false.
    pub fn new(alloc: Global, vars: u32) -> Result<Order, AllocError> {
        let activities = vec![in alloc; 0; vars as usize + 1]?;
        let signs = vec![in alloc; false; vars as usize + 1]?;
        let mut order = Order {
            ranks: BinaryHeap::new(alloc),
            activities,
            signs,
            bump: 1,
            vars,
            alloc,
        };
        order.rank_all()?;
        Ok(order)
    }

    // Ranks each variable once. This is rare.
    fn rank_all(&mut self) -> Result<(), AllocError> {
        self.ranks = BinaryHeap::new(self.alloc);
        for before in 0..self.vars {
            let var = before + 1;
            let activity = self.activity(var);
            self.ranks.push(Rank { activity, var })?;
        }
        Ok(())
    }

    /// The sign that a variable had last.
    pub fn sign(&self, var: u32) -> bool {
        self.signs
            .as_slice()
            .get(var as usize)
            .copied()
            .unwrap_or(false)
    }

    // The activity of a variable.
    fn activity(&self, var: u32) -> u64 {
        self.activities
            .as_slice()
            .get(var as usize)
            .copied()
            .unwrap_or(0)
    }

    /// Bumps the variables at these places of the trail; what was bumped before counts for less.
    pub fn bump(&mut self, trail: &Trail, places: &[usize]) -> Result<(), AllocError> {
        for place in places {
            self.bump_at(trail, *place);
        }
        self.bump = self.bump.saturating_add(self.bump / 16 + 1);
        if self.bump >= MOST_ACTIVITY {
            self.divide();
            return self.rank_all();
        }
        Ok(())
    }

    // Bumps the variable at a place of the trail.
    fn bump_at(&mut self, trail: &Trail, place: usize) {
        if place < trail.steps.len() {
            let var = trail.steps[place].lit.var as usize;
            if var < self.activities.len() {
                self.activities[var] = self.activities[var].saturating_add(self.bump);
            }
        }
    }

    // Divides all activities. This is rare.
    fn divide(&mut self) {
        for activity in self.activities.iter_mut() {
            *activity >>= 40;
        }
        self.bump >>= 40;
    }

    /// Ranks the variables again that lose their values by a return to this level, and keeps their signs.
    pub fn release(&mut self, trail: &Trail, level: usize) -> Result<(), AllocError> {
        if self.ranks.len() / 4 > self.activities.len() {
            self.rank_all()?;
        }
        for step in trail.steps.as_slice().iter().rev() {
            if step.level <= level {
                return Ok(());
            }
            self.rank(step.lit.var, step.lit.positive)?;
        }
        Ok(())
    }

    // Ranks a variable by its activity, and keeps its sign.
    fn rank(&mut self, var: u32, positive: bool) -> Result<(), AllocError> {
        if (var as usize) < self.signs.len() {
            self.signs[var as usize] = positive;
        }
        let activity = self.activity(var);
        self.ranks.push(Rank { activity, var })?;
        Ok(())
    }

    /// The most active variable of the ranks that has no value.
    pub fn next(&mut self, trail: &Trail) -> Option<u32>
        ensures within { IfSome result (λ var. var < length trail.now.table.items) }
        ensures open { IfSome result (λ var. setting_of trail.now var ≡ None) }
    {
        while let Some(rank) = self.ranks.pop() {
            if is_open(trail, rank.var) {
                return Some(rank.var);
            }
        }
        None
    }
}
