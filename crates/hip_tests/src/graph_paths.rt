//! Paths in graphs of numbered nodes, from node 0 on.

use hip_examples::AMPLE;
use hip_paths::Paths;
use hip_types::Row;
use std::alloc::Global;
use std::process::Abort;

/// The graph with these successors, node by node.
fn graph_of(rt: &impl Abort, alloc: Global, nodes: &[&[usize]]) -> Row<Row<usize>> {
    let mut graph = Row::new(alloc);
    for successors in nodes {
        graph
            .push(Row::from_slice(alloc, successors).expect(rt, AMPLE))
            .expect(rt, AMPLE);
    }
    graph
}

/// A path to a node around another one, if there is one.
struct Around {
    passed: usize,
    last: usize,
    path: Option<&'static [usize]>,
}

/// Whether the path is the expected one, if one is expected.
fn is_wanted(found: &Option<Row<usize>>, wanted: Option<&[usize]>) -> bool {
    match (found, wanted) {
        (Some(path), Some(wanted)) => path.as_slice() == wanted,
        (None, None) => true,
        _ => false,
    }
}

fn assert_paths(rt: &impl Abort, alloc: Global, nodes: &[&[usize]], cases: &[Around]) {
    let graph = graph_of(rt, alloc, nodes);
    let count = graph.len();
    let paths = Paths::new(alloc, graph.as_slice()).expect(rt, AMPLE);
    for case in cases {
        assert!(rt; case.last < count);
        let found = paths
            .path_around(alloc, case.passed, case.last)
            .expect(rt, AMPLE);
        assert!(rt; is_wanted(&found, case.path));
    }
}

const TWO_WAYS: &[&[usize]] = &[&[1, 2], &[3], &[3], &[]];

const AROUND_ONE_WAY: &[Around] = &[
    Around {
        passed: 1,
        last: 3,
        path: Some(&[0, 2, 3]),
    },
    Around {
        passed: 2,
        last: 3,
        path: Some(&[0, 1, 3]),
    },
    Around {
        passed: 0,
        last: 3,
        path: None,
    },
    Around {
        passed: 0,
        last: 1,
        path: None,
    },
    // The node itself may be passed at the end.
    Around {
        passed: 3,
        last: 3,
        path: Some(&[0, 1, 3]),
    },
    Around {
        passed: 2,
        last: 0,
        path: Some(&[0]),
    },
];

#[test]
fn two_ways_meet(rt: HostRuntime) {
    assert_paths(&rt, rt.alloc(), TWO_WAYS, AROUND_ONE_WAY)
}

/// Node 2 is reached by no path, and 9 is no node.
const OUT_OF_REACH: &[&[usize]] = &[&[1, 9], &[], &[1, 2]];

const AROUND_WHAT_IS_NOT_REACHED: &[Around] = &[
    Around {
        passed: 0,
        last: 2,
        path: None,
    },
    Around {
        passed: 2,
        last: 2,
        path: None,
    },
    Around {
        passed: 2,
        last: 1,
        path: Some(&[0, 1]),
    },
];

#[test]
fn nodes_out_of_reach(rt: HostRuntime) {
    assert_paths(&rt, rt.alloc(), OUT_OF_REACH, AROUND_WHAT_IS_NOT_REACHED)
}

/// Two loops with two entries each: 1 and 2 lead to one another, and so do 3 and 4.
const TWO_LOOPS: &[&[usize]] = &[&[1, 2], &[2, 3], &[1, 4], &[4, 5], &[3, 5], &[1]];

#[test]
fn loops_with_two_entries(rt: HostRuntime) {
    let alloc = rt.alloc();
    let graph = graph_of(&rt, alloc, TWO_LOOPS);
    assert!(rt; 5 < graph.len());
    let paths = Paths::new(alloc, graph.as_slice()).expect(&rt, AMPLE);
    for passed in 0..5 {
        assert!(rt;
            paths
                .path_around(alloc, passed, 5)
                .expect(&rt, AMPLE)
                .is_some()
                == (passed != 0),
            "{passed}"
        );
    }
}

/// A chain of n nodes; each node also leads to the last.
fn chain(rt: &impl Abort, alloc: Global, count: usize) -> Row<Row<usize>> {
    let mut graph = Row::new(alloc);
    for node in 0..count {
        graph
            .push(Row::from_slice(alloc, &[node.saturating_add(1), count]).expect(rt, AMPLE))
            .expect(rt, AMPLE);
    }
    graph.push(Row::new(alloc)).expect(rt, AMPLE);
    graph
}

/// If no path exists, none is searched for: 20,000 answers by a walk through the graph would take minutes.
#[test]
fn long_chain(rt: HostRuntime) {
    let alloc = rt.alloc();
    let graph = chain(&rt, alloc, 20_000);
    let paths = Paths::new(alloc, graph.as_slice()).expect(&rt, AMPLE);
    assert!(rt; graph.len() == 20_001);
    for node in 1..20_000usize {
        assert!(rt;
            paths
                .path_around(alloc, node / 2, node)
                .expect(&rt, AMPLE)
                .is_none(),
            "{node}"
        );
    }
    assert!(rt;
        paths
            .path_around(alloc, 4, 20_000)
            .expect(&rt, AMPLE)
            .is_some()
    );
}
