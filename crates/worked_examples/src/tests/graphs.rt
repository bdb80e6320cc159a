// Small graphs over chains of nodes: edges that go in and edges that would close a cycle, what comes before what, orders,
// and edges taken back. The expected values are worked out by hand.
use order_graph::{Added, Graph};
use std::test::Fail;

// Two nodes in a chain, 0 and 1, and one more, 2, which is to come after 1.
#[test]
fn chain_and_one_edge(rt: HostRuntime) -> Result<(), Fail> {
    let mut graph = Graph::new(rt.alloc(), &[2, 1])?;
    assert_eq!(rt; graph.add(1, 2)?, Added::In);
    assert_eq!(rt; graph.add(2, 0)?, Added::Cycle);
    assert_eq!(rt; graph.add(2, 2)?, Added::Cycle);
    assert!(rt; graph.before(0, 2));
    assert!(rt; !graph.before(2, 0));
    assert!(rt; !graph.before(0, 0));
    let order = graph.order()?;
    assert_eq!(rt; order.as_slice(), [0, 1, 2].as_slice());
    Ok(())
}

// The same with its memory taken before, and the order put into a vector that has room.
#[test]
fn memory_taken_before(rt: HostRuntime) -> Result<(), Fail> {
    let mut graph = Graph::new(rt.alloc(), &[2, 1])?;
    graph.reserve(1)?;
    assert_eq!(rt; graph.add(1, 2)?, Added::In);
    let mut order: Vec<u32> = Vec::with_capacity(rt.alloc(), 3)?;
    graph.fill_order(&mut order);
    assert_eq!(rt; order.as_slice(), [0, 1, 2].as_slice());
    Ok(())
}

// Chains 0 1, 2 3 4 and 5. The chain of 2 goes before that of 0; with one more edge 5 goes before both, and without it last.
#[test]
fn edges_taken_back(rt: HostRuntime) -> Result<(), Fail> {
    let mut graph = Graph::new(rt.alloc(), &[2, 3, 1])?;
    assert_eq!(rt; graph.add(4, 0)?, Added::In);
    let mark = graph.mark();
    assert_eq!(rt; graph.add(5, 2)?, Added::In);
    let order = graph.order()?;
    assert_eq!(rt; order.as_slice(), [5, 2, 3, 4, 0, 1].as_slice());
    graph.undo(mark);
    let order = graph.order()?;
    assert_eq!(rt; order.as_slice(), [2, 3, 4, 0, 1, 5].as_slice());
    Ok(())
}
