// The base edges of a log.
ghost use Rattle.std.specs.Prelude.{◌≡◌, ◌+◌, ◌<◌, ◌≤◌, ◌++◌, All, length, IfOk, OnOk};
ghost use Rattle.std.specs.List.{flat_map, list_any, sum_by};
ghost use Rattle.constraints.specs.Constraints.{edges_from};
ghost use Rattle.constraints.specs.Building.{placed_source_edges, placed_last_tag_edges, placed_edges, source_room, is_shut};

use crate::placed::Placed;
use crate::rows::Rows;
use light_base::Memory;
use plain_search::Edge;
use std::alloc::Global;

// Room for the edges of all entries, and for no more than they may ask for.
fn edge_room(placed: &[Placed], sources: &Rows) -> usize
    requires { All (λ entry. entry.word < length sources.now) placed.now }
    ensures { result ≤ sum_by (λ entry. source_room sources.now entry entry.source + 1) placed.now }
{
    let mut room: usize = 0;
    for entry in placed {
        let source_edges = match entry.source {
            Some(_) => 1,
            None => sources.row(usize::from(entry.word)).len(),
        };
        room = room.saturating_add(source_edges).saturating_add(1);
    }
    room
}

// Adds an edge from one position to each of these, but none to itself.
fn push_edges_from(from: u32, tos: &[u32], edges: &mut Vec<Edge>) -> Result<(), Memory>
    ensures { OnOk result (edges.new.items ≡ edges.old.items ++ edges_from from tos.now) }
{
    for to in tos {
        if *to != from {
            edges.push(Edge { from, to: *to })?;
        }
    }
    Ok(())
}

// Adds the edges that an entry's source asks for.
fn push_source_edges(entry: &Placed, sources: &Rows, edges: &mut Vec<Edge>) -> Result<(), Memory>
    requires { entry.now.word < length sources.now }
    ensures { OnOk result (edges.new.items ≡ edges.old.items ++ placed_source_edges sources.now entry.now entry.now.source) }
{
    match entry.source {
        Some(source) => {
            edges.push(Edge {
                from: source,
                to: entry.first,
            })?;
            Ok(())
        }
        None => push_edges_from(entry.last, sources.row(usize::from(entry.word)), edges),
    }
}

// Adds the edge to the word's last tag, where the entry has another source and its last is another event.
fn push_last_tag_edge(
    entry: &Placed,
    last_tag: Option<u32>,
    edges: &mut Vec<Edge>,
) -> Result<(), Memory>
    ensures { OnOk result (edges.new.items ≡ edges.old.items ++ placed_last_tag_edges entry.now last_tag) }
{
    if let Some(to) = last_tag {
        if entry.source != last_tag && entry.last != to {
            edges.push(Edge {
                from: entry.last,
                to,
            })?;
        }
    }
    Ok(())
}

/// The base edges: those that each entry asks for, in the order of the entries.
pub fn base_edges(
    alloc: Global,
    placed: &[Placed],
    sources: &Rows,
    last_tags: &[Option<u32>],
) -> Result<Vec<Edge>, Memory>
    requires sources { All (λ entry. entry.word < length sources.now) placed.now }
    requires last_tags { All (λ entry. entry.word < length last_tags.now) placed.now }
    ensures { IfOk result (λ edges. edges.items ≡ flat_map (placed_edges sources.now last_tags.now) placed.now) }
{
    let mut edges = Vec::with_capacity(alloc, edge_room(placed, sources))?;
    for entry in placed {
        push_source_edges(entry, sources, &mut edges)?;
        push_last_tag_edge(entry, last_tags[usize::from(entry.word)], &mut edges)?;
    }
    Ok(edges)
}

/// Whether some entry is of a word whose last tag is initial, and has another source.
pub fn is_impossible(placed: &[Placed], last_tags: &[Option<u32>]) -> bool
    requires { All (λ entry. entry.word < length last_tags.now) placed.now }
    ensures { result ≡ list_any (is_shut last_tags.now) placed.now }
{
    for entry in placed {
        if entry.source.is_some() && last_tags[usize::from(entry.word)].is_none() {
            return true;
        }
    }
    false
}
