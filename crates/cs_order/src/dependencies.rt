// A directed graph in compressed rows: the sources of all vertices in one list, vertex by vertex.
ghost use Rattle.std.specs.Prelude.{◌≡◌, ◌+◌, ◌<◌, ◌^◌, ◌++◌, [], ◌∷◌, ◌↔◌, IsTrue, length, get_or, OnErr, OnOk};
ghost use Rattle.cs_order.specs.Graphs.{sources_of, push_source, IsPartlyAdded};
ghost use Rattle.cs_order.specs.Rows.{rows_of, AreRows};

use std::alloc::{AllocError, Global};
use std::marker::Model;

/// A directed graph, which contracts see as a list that has for each vertex, by its number, the list
/// of those that it depends on, its sources. Vertices are added one after the other, each with its
/// sources. A source may be a vertex that is yet to come; one that never comes doesn't count.
#[derive(Debug, Drop)]
pub struct Dependencies {
    starts: Vec<usize>,
    sources: Vec<usize>,
}

impl Model for Dependencies {
    ghost use Rattle.std.specs.Prelude.{ℕ, List};

    ghost Value = { List (List ℕ) };

    ghost use Rattle.std.specs.Prelude.{length, ◌≤◌, ◌^◌};
    ghost use Rattle.cs_order.specs.Rows.{rows_of, AreRows};

    ghost view = { λ d. rows_of d.starts.items d.sources.items };

    ghost invariant = { λ d. AreRows d.starts.items (length d.sources.items) };
}

/// The place after the last of a row, which is where the next one begins.
fn end_of(starts: &[usize], total: usize, index: usize) -> usize
    requires { index < length starts.now }
    ensures { result ≡ get_or starts.now (index + 1) total }
{
    starts.get(index + 1).copied().unwrap_or(total)
}

/// A row.
fn row<'a>(starts: &[usize], items: &'a [usize], index: usize) -> &'a [usize]
    requires rows { AreRows starts.now (length items.now) }
    requires within { index < length starts.now }
    ensures { result.now ≡ get_or (rows_of starts.now items.now) index [] }
{
    let start = starts[index];
    let end = end_of(starts, items.len(), index);
    &items[start..end]
}

impl Dependencies {
    /// A graph without vertices; it takes no memory.
    pub fn new(alloc: Global) -> Self
        ensures { result ≡ [] }
    {
        Dependencies {
            starts: Vec::new(alloc),
            sources: Vec::new(alloc),
        }
    }

    /// How many vertices there are.
    pub fn len(&self) -> usize
        ensures { result ≡ length self.now }
    {
        self.starts.len()
    }

    /// Whether there are no vertices.
    pub fn is_empty(&self) -> bool
        ensures { IsTrue result ↔ (self.now ≡ []) }
    {
        self.starts.is_empty()
    }

    /// Adds a vertex, as yet without sources; its number is how many there were. A refusal leaves the
    /// graph unchanged.
    pub fn push_vertex(&mut self) -> Result<(), AllocError>
        ensures ok { OnOk result (self.new ≡ self.old ++ [] ∷ []) }
        ensures err { OnErr result (self.new ≡ self.old) }
    {
        self.starts.push(self.sources.len())?;
        Ok(())
    }

    /// Puts a source behind the others of the last vertex. A refusal leaves the graph unchanged.
    pub fn push_source(&mut self, source: usize) -> Result<(), AllocError>
        requires some { 0 < length self.old }
        ensures ok { OnOk result (self.new ≡ push_source source self.old) }
        ensures err { OnErr result (self.new ≡ self.old) }
    {
        self.sources.push(source)?;
        Ok(())
    }

    /// Adds a vertex with its sources. After a refusal the graph may have the vertex already, with the
    /// first of its sources.
    pub fn add_vertex(&mut self, sources: &[usize]) -> Result<(), AllocError>
        ensures ok { OnOk result (self.new ≡ self.old ++ sources.now ∷ []) }
        ensures err { OnErr result (IsPartlyAdded self.old sources.now self.new) }
    {
        self.push_vertex()?;
        for source in sources {
            self.push_source(*source)?;
        }
        Ok(())
    }

    /// The sources of a vertex, in the order in which they were pushed.
    pub fn sources(&self, vertex: usize) -> &[usize]
        requires { vertex < length self.now }
        ensures { result.now ≡ sources_of self.now vertex }
    {
        row(self.starts.as_slice(), self.sources.as_slice(), vertex)
    }
}
