// The edges into each node, as lists of places: of the newest the place plus one, and for each edge that of the next older one.
ghost use Rattle.std.specs.Prelude.{◌≡◌, ℕ, ◌+◌, ◌<◌, ◌≤◌, ◌++◌, ◌∷◌, [], List, length, take, vec_len, vec_capacity};
ghost use Rattle.order_graph.specs.Links.{AreLinked, EndsBelow};

use plain_search::Edge;

// Adds an edge, for which there is room.
pub fn link(edges: &mut Vec<Edge>, heads: &mut Vec<usize>, older: &mut Vec<usize>, edge: Edge)
    requires linked { AreLinked (length heads.old.items) edges.old.items heads.old.items older.old.items }
    requires to { edge.to < length heads.old.items }
    requires edge_room { vec_len edges.old < vec_capacity edges.old }
    requires older_room { vec_len older.old < vec_capacity older.old }
    ensures items { edges.new.items ≡ edges.old.items ++ edge ∷ [] }
    ensures linked { AreLinked (length heads.old.items) edges.new.items heads.new.items older.new.items }
    ensures edge_room { vec_capacity edges.new ≡ vec_capacity edges.old }
    ensures older_room { vec_capacity older.new ≡ vec_capacity older.old }
{
    let place = edge.to as usize;
    older.push_reserved(heads[place]);
    edges.push_reserved(edge);
    heads[place] = edges.len();
}

// Takes back all edges but so many first ones.
pub fn unlink(edges: &mut Vec<Edge>, heads: &mut Vec<usize>, older: &mut Vec<usize>, mark: usize)
    requires mark { mark ≤ length edges.old.items }
    requires linked { AreLinked (length heads.old.items) edges.old.items heads.old.items older.old.items }
    requires ends { EndsBelow edges.old.items (length heads.old.items) }
    ensures items { edges.new.items ≡ take mark edges.old.items }
    ensures linked { AreLinked (length heads.old.items) edges.new.items heads.new.items older.new.items }
    ensures edge_room { vec_capacity edges.new ≡ vec_capacity edges.old }
    ensures older_room { vec_capacity older.new ≡ vec_capacity older.old }
{
    let mut at = edges.len();
    while at > mark {
        at -= 1;
        heads[edges[at].to as usize] = older[at];
    }
    edges.truncate(mark);
    older.truncate(mark);
}
