// The graph: the nodes' threads, the edges that were added, and the clocks.
ghost use Rattle.std.specs.Prelude.{◌≡◌, ℕ, ◌+◌, ◌-◌, ◌^◌, ◌<◌, ◌≤◌, ◌↔◌, IsTrue, IfOk, OnOk, OnErr, true, List, [], length, sum, All, vec_capacity};
ghost use Rattle.plain_search.specs.Edges.{LeadsTo, IsOrLeadsTo, is_acyclic};
ghost use Rattle.order_graph.specs.Shapes.{shape, lanes_of};
ghost use Rattle.order_graph.specs.Orders.{IsOrder};
ghost use Rattle.order_graph.specs.Graphs.{edges_of, nodes_of, Adds, with_added, undone};

use crate::carry::insert;
use crate::clocks::{NONE, compute};
use crate::fronts::place_all;
use crate::links::{link, unlink};
use light_base::Memory;
use plain_search::Edge;
use std::alloc::Global;
use std::marker::Model;

/// What became of an edge.
#[derive(Clone, Copy, Debug, PartialEq, Eq)]
pub enum Added {
    /// It holds now.
    In,
    /// It would close a cycle.
    Cycle,
}

/// The edges that stood at some moment, for `Graph::undo`. It is seen as their number.
#[derive(Clone, Copy)]
pub struct Mark {
    edges: usize,
}

impl Model for Mark {
    ghost Value = { ℕ };

    ghost view = { λ m. m.edges };

    ghost inverse = { λ n. record { edges = n } };
}

/// A graph over the nodes of threads: those of one thread form a chain, and edges are added between nodes. No walk leads
/// back to its start.
///
/// It is seen as the numbers of nodes of the threads, the edges that were added, the newest last, and the number of further
/// edges for which there is memory.
#[derive(Drop)]
pub struct Graph {
    alloc: Global,
    counts: Vec<u32>,
    lanes: Vec<u32>,
    edges: Vec<Edge>,
    spare: usize,
    heads: Vec<usize>,
    older: Vec<usize>,
    clocks: Vec<u32>,
    work: Vec<u32>,
    fronts: Vec<u32>,
}

impl Model for Graph {
    ghost use Rattle.std.specs.Prelude.{◌≡◌, length, vec_len, vec_capacity};
    ghost use Rattle.order_graph.specs.Graphs.{GraphState, graph_state, IsKept, HasSpare};

    ghost Value = { GraphState };

    ghost view = { λ g. graph_state g.counts.items g.edges.items g.spare };

    ghost invariant = { λ g. IsKept g.counts.items g.lanes.items g.edges.items g.clocks.items g.heads.items g.older.items
        × (length g.fronts.items ≡ length g.counts.items) × HasSpare g.spare (vec_len g.edges) (vec_capacity g.edges)
        × HasSpare g.spare (vec_len g.older) (vec_capacity g.older) };
}

// The thread of each node.
fn lay(alloc: Global, counts: &[u32]) -> Result<Vec<u32>, Memory>
    requires nodes { sum counts.now < 2 ^ 32 }
    requires threads { length counts.now < 2 ^ 32 }
    ensures { IfOk result (λ lanes. lanes.items ≡ lanes_of counts.now) }
{
    let mut lanes: Vec<u32> = Vec::new(alloc);
    for (thread, count) in counts.iter().enumerate() {
        let end = lanes.len() + *count as usize;
        lanes.resize(end, thread as u32)?;
    }
    Ok(lanes)
}

impl Graph {
    /// The nodes of threads with so many nodes each, numbered thread after thread, and no edge but the chains.
    pub fn new(alloc: Global, counts: &[u32]) -> Result<Graph, Memory>
        requires { sum counts.now < 2 ^ 32 }
        ensures counts { IfOk result (λ graph. graph.counts ≡ counts.now) }
        ensures added { IfOk result (λ graph. graph.added ≡ []) }
    {
        let threads = counts.len();
        if threads > u32::MAX as usize {
            return Err(Memory);
        }
        let lanes = lay(alloc, counts)?;
        let size = lanes.len().checked_mul(threads).ok_or(Memory)?;
        let mut own_counts: Vec<u32> = Vec::with_capacity(alloc, threads)?;
        own_counts.extend_from_slice(counts)?;
        let edges: Vec<Edge> = Vec::new(alloc);
        let heads: Vec<usize> = vec![in alloc; 0; lanes.len()]?;
        let mut clocks = vec![in alloc; NONE; size]?;
        compute(threads, &lanes, &edges, &mut clocks);
        let fronts: Vec<u32> = vec![in alloc; 0; threads]?;
        Ok(Graph {
            alloc,
            counts: own_counts,
            lanes,
            edges,
            spare: 0,
            heads,
            older: Vec::new(alloc),
            clocks,
            work: Vec::new(alloc),
            fronts,
        })
    }

    /// Does nothing: a law about every graph, that its edges close no cycle.
    pub fn acyclic_law(&self)
        ensures { is_acyclic (edges_of self.now) ≡ true }
    {
        let _threads = self.counts.len();
    }

    /// Does nothing: a law about every graph, that its edges are between its nodes.
    pub fn ends_law(&self)
        ensures { All (λ e. (e.from < nodes_of self.now) × (e.to < nodes_of self.now)) (edges_of self.now) }
    {
        let _threads = self.counts.len();
    }

    /// Whether a walk of at least one edge leads from u to v.
    pub fn before(&self, u: u32, v: u32) -> bool
        requires u { u < nodes_of self.now }
        requires v { v < nodes_of self.now }
        ensures { IsTrue result ↔ LeadsTo (edges_of self.now) u v }
    {
        self.acyclic_law();
        u != v && self.leads(u, v)
    }

    // Whether v is u, or a walk leads there from u: the least node of v's thread to which u leads is no later than v.
    fn leads(&self, u: u32, v: u32) -> bool
        requires u { u < nodes_of self.now }
        requires v { v < nodes_of self.now }
        ensures { IsTrue result ↔ IsOrLeadsTo (edges_of self.now) u v }
    {
        let thread = self.lanes[v as usize] as usize;
        self.clocks[u as usize * self.counts.len() + thread] <= v
    }

    /// Adds an edge, or answers `Cycle` exactly where u is v or v comes before u. It answers `Memory` only where `spare` is 0.
    /// `In` lowers `spare` by at most 1; after any other answer all is as before.
    pub fn add(&mut self, u: u32, v: u32) -> Result<Added, Memory>
        requires u { u < nodes_of self.old }
        requires v { v < nodes_of self.old }
        ensures { Adds self.old u v result self.new }
    {
        if self.leads(v, u) {
            return Ok(Added::Cycle);
        }
        if self.spare == 0 {
            self.reserve(1)?;
        }
        self.put(Edge { from: u, to: v });
        Ok(Added::In)
    }

    // Adds an edge that closes no cycle, for which there is memory.
    fn put(&mut self, edge: Edge)
        requires from { edge.from < nodes_of self.old }
        requires to { edge.to < nodes_of self.old }
        requires shut { IsOrLeadsTo (edges_of self.old) edge.to edge.from → ⊥ }
        requires spare { 1 ≤ self.old.spare }
        ensures { self.new ≡ with_added self.old edge }
    {
        self.spare -= 1;
        link(&mut self.edges, &mut self.heads, &mut self.older, edge);
        insert(
            self.counts.len(),
            &self.lanes,
            &self.edges,
            &self.heads,
            &self.older,
            &mut self.clocks,
            &mut self.work,
            edge,
        );
    }

    /// Takes the memory for so many further edges: after `Ok` `spare` is at least this number. After `Memory` all is as before.
    pub fn reserve(&mut self, adds: u32) -> Result<(), Memory>
        ensures counts { self.new.counts ≡ self.old.counts }
        ensures added { self.new.added ≡ self.old.added }
        ensures spare { OnOk result (adds ≤ self.new.spare) }
        ensures kept { self.old.spare ≤ self.new.spare }
        ensures err { OnErr result (self.new ≡ self.old) }
    {
        let adds = adds as usize;
        if self.spare < adds {
            self.edges.reserve(adds)?;
            self.older.reserve(adds)?;
            self.spare = adds;
        }
        Ok(())
    }

    /// Names the edges that stand now, for `undo`.
    pub fn mark(&self) -> Mark
        ensures { result ≡ length self.now.added }
    {
        Mark {
            edges: self.edges.len(),
        }
    }

    /// Brings back the edges that stood at the mark: each that was added since is taken back, and its memory is spare again.
    pub fn undo(&mut self, mark: Mark)
        requires { mark ≤ length self.old.added }
        ensures { self.new ≡ undone self.old mark }
    {
        self.spare += self.edges.len() - mark.edges;
        unlink(
            &mut self.edges,
            &mut self.heads,
            &mut self.older,
            mark.edges,
        );
        compute(
            self.counts.len(),
            &self.lanes,
            &self.edges,
            &mut self.clocks,
        );
    }

    /// All nodes, each before those that it leads to; at each place stands the least node that may come next.
    pub fn order(&self) -> Result<Vec<u32>, Memory>
        ensures { IfOk result (λ order. IsOrder (edges_of self.now) (nodes_of self.now) order.items) }
    {
        let mut fronts: Vec<u32> = vec![in self.alloc; 0; self.counts.len()]?;
        let mut out: Vec<u32> = Vec::with_capacity(self.alloc, self.lanes.len())?;
        place_all(
            self.counts.len(),
            &self.lanes,
            &self.clocks,
            &mut fronts,
            &mut out,
        );
        Ok(out)
    }

    /// Appends the list of `order`, and takes no memory.
    pub fn fill_order(&mut self, out: &mut Vec<u32>)
        requires empty { out.old.items ≡ [] }
        requires room { nodes_of self.old ≤ vec_capacity out.old }
        ensures order { IsOrder (edges_of self.old) (nodes_of self.old) out.new.items }
        ensures graph { self.new ≡ self.old }
    {
        place_all(
            self.counts.len(),
            &self.lanes,
            &self.clocks,
            &mut self.fronts,
            out,
        );
    }
}
