// Whether edges and chains rise in an order.
ghost use Rattle.std.specs.Prelude.{◌≡◌, ℕ, ◌^◌, ◌+◌, ◌++◌, ◌<◌, ◌≤◌, ◌↔◌, IsTrue, All, length, sum, slice_index};
ghost use Rattle.plain_search.specs.declared.Edge.{Edge};
ghost use Rattle.plain_search.specs.Chains.{chains_from};
ghost use Rattle.plain_search.specs.Edges.{Holds};

use plain_search::Edge;

// Whether each edge leads to a later place.
fn edges_rise(edges: &[Edge], places: &[u32]) -> bool
    requires { All (λ (e : Edge). (e.from < length places.now) × (e.to < length places.now)) edges.now }
    ensures { IsTrue result ↔ Holds (slice_index places.now) edges.now }
{
    edges.iter().all(|edge| places[edge.from as usize] < places[edge.to as usize])
}

// Whether the places rise.
fn rises(places: &[u32]) -> bool
    ensures { IsTrue result ↔ ((k : ℕ) → k + 1 < length places.now → slice_index places.now k < slice_index places.now (k + 1)) }
{
    places.windows(2).all(|pair| pair[0] < pair[1])
}

// Whether in each chain the places rise.
fn chains_rise(counts: &[u32], places: &[u32]) -> bool
    requires { sum counts.now ≤ length places.now }
    ensures { IsTrue result ↔ Holds (slice_index places.now) (chains_from 0 counts.now) }
{
    let mut rest = places;
    for count in counts {
        let (chain, others) = rest.split_at(*count as usize);
        if !rises(chain) {
            return false;
        }
        rest = others;
    }
    true
}

// Whether in each chain the places rise, and each edge leads to a later place.
pub(crate) fn all_rise(counts: &[u32], edges: &[Edge], places: &[u32]) -> bool
    requires chains { sum counts.now ≤ length places.now }
    requires edges { All (λ (e : Edge). (e.from < length places.now) × (e.to < length places.now)) edges.now }
    ensures { IsTrue result ↔ Holds (slice_index places.now) (chains_from 0 counts.now ++ edges.now) }
{
    chains_rise(counts, places) && edges_rise(edges, places)
}
