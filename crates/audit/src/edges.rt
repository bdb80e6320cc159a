// The base edges of placings, by positions.
ghost use Rattle.std.specs.Prelude.{◌≡◌, ◌<◌, ◌++◌, All, length, IfOk, OnOk};
ghost use Rattle.std.specs.List.{flat_map, range_with_len};
ghost use Rattle.constraints.specs.Constraints.{edges_from, edges_to};
ghost use Rattle.constraints.specs.Building.{placed_source_edges, placed_last_tag_edges, placed_edges};
ghost use Rattle.audit.specs.Tables.{word_edges_in, base_in};

use crate::rows::Row;
use constraints::Placed;
use light_base::Memory;
use plain_search::Edge;
use std::alloc::Global;

// Adds an edge from one position to each of these, but none to itself.
fn push_edges_from(from: u32, tos: &[u32], edges: &mut Vec<Edge>) -> Result<(), Memory>
    ensures { OnOk result (edges.new.items ≡ edges.old.items ++ edges_from from tos.now) }
{
    for to in tos {
        if *to != from {
            edges.push(Edge { from, to: *to })?;
        }
    }
    Ok(())
}

// Adds an edge from each of these to one position, but none from that to itself.
fn push_edges_to(froms: &[u32], to: u32, edges: &mut Vec<Edge>) -> Result<(), Memory>
    ensures { OnOk result (edges.new.items ≡ edges.old.items ++ edges_to froms.now to) }
{
    for from in froms {
        if *from != to {
            edges.push(Edge { from: *from, to })?;
        }
    }
    Ok(())
}

// Adds the edges that an entry's source asks for.
fn push_source_edges(entry: &Placed, sources: &[Row], edges: &mut Vec<Edge>) -> Result<(), Memory>
    requires { entry.now.word < length sources.now }
    ensures { OnOk result (edges.new.items ≡ edges.old.items ++ placed_source_edges sources.now entry.now entry.now.source) }
{
    match entry.source {
        Some(source) => {
            edges.push(Edge {
                from: source,
                to: entry.first,
            })?;
            Ok(())
        }
        None => push_edges_from(
            entry.last,
            sources[usize::from(entry.word)].numbers(),
            edges,
        ),
    }
}

// Adds the edge to the word's last tag, where the entry has another source and its last is another step.
fn push_last_tag_edge(
    entry: &Placed,
    last_tag: Option<u32>,
    edges: &mut Vec<Edge>,
) -> Result<(), Memory>
    ensures { OnOk result (edges.new.items ≡ edges.old.items ++ placed_last_tag_edges entry.now last_tag) }
{
    if let Some(to) = last_tag {
        if entry.source != last_tag && entry.last != to {
            edges.push(Edge {
                from: entry.last,
                to,
            })?;
        }
    }
    Ok(())
}

// Adds the edges that each entry asks for.
fn push_entries(
    placed: &[Placed],
    sources: &[Row],
    last_tags: &[Option<u32>],
    edges: &mut Vec<Edge>,
) -> Result<(), Memory>
    requires sources { All (λ entry. entry.word < length sources.now) placed.now }
    requires last_tags { All (λ entry. entry.word < length last_tags.now) placed.now }
    ensures { OnOk result (edges.new.items ≡ edges.old.items ++ flat_map (placed_edges sources.now last_tags.now) placed.now) }
{
    for entry in placed {
        push_source_edges(entry, sources, edges)?;
        push_last_tag_edge(entry, last_tags[usize::from(entry.word)], edges)?;
    }
    Ok(())
}

// Adds those of one word: each other write comes before the last tag.
fn push_word(sources: &[u32], last_tag: Option<u32>, edges: &mut Vec<Edge>) -> Result<(), Memory>
    ensures { OnOk result (edges.new.items ≡ edges.old.items ++ word_edges_in sources.now last_tag) }
{
    match last_tag {
        Some(last) => push_edges_to(sources, last, edges),
        None => Ok(()),
    }
}

/// The base edges: those that each entry asks for, in the order of the entries, and then those that each last tag does.
pub(crate) fn base_edges(
    alloc: Global,
    placed: &[Placed],
    sources: &[Row],
    last_tags: &[Option<u32>],
) -> Result<Vec<Edge>, Memory>
    requires sources { All (λ entry. entry.word < length sources.now) placed.now }
    requires last_tags { length last_tags.now ≡ length sources.now }
    ensures { IfOk result (λ edges. edges.items ≡ base_in sources.now last_tags.now placed.now) }
{
    let mut edges = Vec::new(alloc);
    push_entries(placed, sources, last_tags, &mut edges)?;
    for word in 0..sources.len() {
        push_word(sources[word].numbers(), last_tags[word], &mut edges)?;
    }
    Ok(edges)
}
