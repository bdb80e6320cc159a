// Which sources of a word may not come before which others.
ghost use Rattle.std.specs.Prelude.{◌≡◌, ◌+◌, ◌<◌, ◌≤◌, ◌++◌, All, length};
ghost use Rattle.plain_search.specs.Openness.{is_shut};
ghost use Rattle.order_graph.specs.Graphs.{edges_of, nodes_of};
ghost use Rattle.constraints.specs.Constraints.{sources_of, edges_to, group_of};
ghost use Rattle.races.specs.Shut.{IsBase, shuts, IsFront};

use constraints::Problem;
use order_graph::Graph;

// Whether a side closes a cycle: its end leads to one of its starts.
fn is_shut(graph: &Graph, last_reads: &[u32], source: u32) -> bool
    requires source { source < nodes_of graph.now }
    requires last_reads { All (λ l. l < nodes_of graph.now) last_reads.now }
    ensures { result ≡ is_shut (edges_of graph.now) (edges_to last_reads.now source) }
{
    graph.acyclic_law();
    for last in last_reads {
        if *last != source && graph.before(source, *last) {
            return true;
        }
    }
    false
}

// A source of a word, by its place among the word's sources.
#[derive(Clone, Copy)]
pub struct Source {
    pub word: u16,
    pub place: u32,
}

// Whether a source may not come before the one at another place.
pub fn shuts(problem: &Problem, graph: &Graph, first: Source, then: u32) -> bool
    requires base { IsBase problem.now graph.now }
    requires word { first.word < length problem.now.last_tags }
    requires place { first.place < length (sources_of problem.now first.word) }
    requires then { then < length (sources_of problem.now first.word) }
    ensures { result ≡ shuts problem.now first.word first.place then }
{
    let _events = problem.events();
    is_shut(
        graph,
        problem.lasts(first.word, first.place),
        problem.sources(first.word)[then as usize],
    )
}

// Of the sources of one thread those before which the source may not come stand first: the place after the last of them.
pub fn shut_end(problem: &Problem, graph: &Graph, first: Source, thread: u8) -> u32
    requires base { IsBase problem.now graph.now }
    requires word { first.word < length problem.now.last_tags }
    requires place { first.place < length (sources_of problem.now first.word) }
    requires thread { thread < length problem.now.threads }
    ensures { IsFront (shuts problem.now first.word first.place) (group_of problem.now first.word thread).0
        (group_of problem.now first.word thread).1 result }
{
    let _events = problem.events();
    let (mut low, mut high) = problem.group(first.word, thread);
    while low < high {
        let middle = low + (high - low) / 2;
        if shuts(problem, graph, first, middle) {
            low = middle + 1;
        } else {
            high = middle;
        }
    }
    low
}
