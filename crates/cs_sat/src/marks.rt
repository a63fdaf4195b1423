// Which places of the trail are marked while a conflict is analysed.
ghost use Rattle.std.specs.Prelude.{◌≡◌, ℕ, ◌<◌, true, false, OnOk, IfOk, length, slice_index_or, slice_set, Contains};
ghost use Rattle.cs_sat.specs.Analyses.{IsMarkedMore};

use std::alloc::{AllocError, Global};

/// Marks by place of the trail, and the places that were marked.
#[derive(Drop)]
pub struct Marks {
    pub marked: Vec<bool>,
    pub touched: Vec<usize>,
}

impl Marks {
    /// No place is marked of so many.
    pub fn new(alloc: Global, size: usize) -> Result<Marks, AllocError>
        ensures size { IfOk result (λ marks. length marks.marked.items ≡ size) }
        ensures none { IfOk result (λ marks. (place : ℕ) → slice_index_or marks.marked.items place false ≡ false) }
    {
        Ok(Marks {
            marked: vec![in alloc; false; size]?,
            touched: Vec::new(alloc),
        })
    }

    /// Marks a place.
    pub fn mark(&mut self, place: usize) -> Result<(), AllocError>
        requires { place < length self.old.marked.items }
        ensures { OnOk result (IsMarkedMore self.old self.new place) }
    {
        if !self.marked[place] {
            self.touched.push(place)?;
        }
        self.marked[place] = true;
        Ok(())
    }

    /// Takes a mark back.
    pub fn unmark(&mut self, place: usize)
        requires { place < length self.old.marked.items }
        ensures marked { self.new.marked.items ≡ slice_set self.old.marked.items place false }
        ensures touched { self.new.touched.items ≡ self.old.touched.items }
    {
        self.marked[place] = false;
    }

    /// Takes all marks back, where each marked place is listed.
    pub fn clear(&mut self)
        requires { (place : ℕ) → slice_index_or self.old.marked.items place false ≡ true → Contains self.old.touched.items place }
        ensures size { length self.new.marked.items ≡ length self.old.marked.items }
        ensures none { (place : ℕ) → slice_index_or self.new.marked.items place false ≡ false }
    {
        while let Some(place) = self.touched.pop() {
            if place < self.marked.len() {
                self.marked[place] = false;
            }
        }
    }
}
