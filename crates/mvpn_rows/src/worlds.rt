//! What a world lends of its nodes.
use mv_base::{NodeId, Seq};
use mv_io::{MemSink, MemSource};
use mvpn_tool::{End, World, run};
use std::test::Fail;

/// An edge, a core node and another edge. The sessions are up, and no timer has run.
const TEXT: &[u8] = b"edge E 192.0.2.1\n\
    core C 192.0.2.9\n\
    edge F 192.0.2.2\n\
    link E C 1\n\
    link F C 1\n\
    vrf V E 1 1:1 1:1 highest\n\
    events\n\
    heal\n\
    settle\n\
    select V 10.1.0.9 232.1.1.1";

/// How many selections the edge of that number has, where the scenario has such an edge.
fn selections_at(world: &World, node: NodeId) -> Option<u32> {
    match world.scenario().nodes.as_slice().get(usize::from(node.0)) {
        None => None,
        Some(found) => {
            if found.edge {
                Some(world.edge(node).selections())
            } else {
                None
            }
        }
    }
}

/// Whether the hold of the session with that neighbour is still to run at the core node of that number, where the scenario has such a
/// core node.
fn holds_at(world: &World, node: NodeId, neighbour: NodeId) -> Option<bool> {
    match world.scenario().nodes.as_slice().get(usize::from(node.0)) {
        None => None,
        Some(found) => {
            if found.edge {
                None
            } else {
                Some(world.core_node(node).holding(neighbour))
            }
        }
    }
}

#[test]
fn a_world_lends_its_nodes(rt: HostRuntime) -> Result<(), Fail> {
    let alloc = rt.alloc();
    let mut text = Seq::new(alloc);
    text.extend(TEXT)?;
    let mut source = MemSource::of(text, Seq::new(alloc));
    let mut sink = MemSink::of(alloc, 1_024, Seq::new(alloc))?;
    let mut words = Vec::new(alloc);
    words.push(String::from_str(alloc, "replay")?)?;
    let End { status, world } = run(alloc, &words, &mut source, &mut sink);
    assert_eq!(rt; status, 0);
    if let Some(world) = world {
        assert_eq!(rt; selections_at(&world, NodeId(0)), Some(1));
        assert_eq!(rt; selections_at(&world, NodeId(1)), None);
        assert_eq!(rt; selections_at(&world, NodeId(2)), Some(0));
        assert_eq!(rt; selections_at(&world, NodeId(3)), None);
        assert_eq!(rt; holds_at(&world, NodeId(0), NodeId(1)), None);
        assert_eq!(rt; holds_at(&world, NodeId(1), NodeId(0)), Some(true));
        assert_eq!(rt; holds_at(&world, NodeId(1), NodeId(3)), Some(false));
        world.close();
    }
    Ok(())
}
