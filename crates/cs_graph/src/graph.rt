// The parts of a machine.
ghost use Rattle.std.specs.Prelude.{◌≡◌, ◌<◌, ◌^◌, IfOk, length};
ghost use Rattle.cs_graph.specs.OtherContents.{register_count, with_contents};

use crate::contents::{Contents, edges_with};
use crate::edge::Edge;
use crate::memory::Memory;
use crate::vertex::Vertex;
use cs_base::Sequence;
use std::alloc::{AllocError, Global};

/// Vertices, edges and memories: what contracts see of a machine.
#[derive(Drop)]
pub struct Graph {
    pub vertices: Sequence<Vertex>,
    pub edges: Sequence<Edge>,
    pub memories: Sequence<Memory>,
}

/// Copies of these vertices.
fn copy_vertices(alloc: Global, vertices: &[Vertex]) -> Result<Sequence<Vertex>, AllocError>
    ensures { IfOk result (λ copies. copies ≡ vertices.now) }
{
    let mut copies = Sequence::new(alloc);
    for vertex in vertices {
        copies.push(vertex.copy(alloc)?)?;
    }
    Ok(copies)
}

/// Copies of these memories.
fn copy_memories(alloc: Global, memories: &[Memory]) -> Result<Sequence<Memory>, AllocError>
    ensures { IfOk result (λ copies. copies ≡ memories.now) }
{
    let mut copies = Sequence::new(alloc);
    for memory in memories {
        copies.push(memory.copy(alloc)?)?;
    }
    Ok(copies)
}

impl Graph {
    /// Copies of the vertices and memories, with these contents on the edges.
    pub(crate) fn with_contents(
        &self,
        alloc: Global,
        contents: Contents,
    ) -> Result<Graph, AllocError>
        requires count { length contents.of ≡ length self.now.edges }
        requires few { register_count contents < 2 ^ 32 }
        ensures { IfOk result (λ graph. graph ≡ with_contents contents self.now) }
    {
        Ok(Graph {
            vertices: copy_vertices(alloc, self.vertices.as_slice())?,
            edges: edges_with(alloc, self.edges.as_slice(), contents)?,
            memories: copy_memories(alloc, self.memories.as_slice())?,
        })
    }
}
