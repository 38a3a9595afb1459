//! Cycles of arrows on worked graphs, beside a plain search on drawn ones, and at sizes.

use asset_cycles::Cycles;
use asset_test_tools::next;
use std::alloc::{AllocError, Global};
use std::test::Fail;

/// How many nodes a drawn graph has, how many arrows at most, and how many graphs are drawn.
const NODES: usize = 9;

const ARROWS: usize = 15;

const GRAPHS: usize = 400;

/// How many pairs of nodes a drawn graph has.
const PAIRS: usize = NODES * NODES;

/// How many nodes lie on a long cycle.
const RING: usize = 500;

/// How many nodes wait in a row, one for the next.
const ROW: usize = 20_000;

/// Finds the cycles, or returns `None` if an arrow is not between nodes or memory runs out. If memory runs out once, they
/// are found again.
fn cycles_of(alloc: Global, count: usize, arrows: &[(usize, usize)]) -> Option<Cycles> {
    if !Cycles::are_below(count, arrows) {
        return None;
    }
    match Cycles::of(alloc, count, arrows) {
        Ok(made) => Some(made),
        Err(AllocError) => Cycles::of(alloc, count, arrows).ok(),
    }
}

/// Returns whether each number of the list is less than the one after it.
fn rises(list: &[usize]) -> bool {
    for k in 1..list.len() {
        if list[k - 1] >= list[k] {
            return false;
        }
    }
    true
}

/// Returns whether the list has exactly the nodes with the label, rising.
fn has_members(list: &[usize], labels: &[Option<usize>], label: usize) -> bool {
    for (node, other) in labels.iter().enumerate() {
        if list.contains(&node) != (*other == Some(label)) {
            return false;
        }
    }
    rises(list) && list.iter().all(|node| *node < labels.len())
}

/// Returns whether the list has exactly the nodes that are their own labels, rising.
fn has_own(list: &[usize], labels: &[Option<usize>]) -> bool {
    for (node, label) in labels.iter().enumerate() {
        if list.contains(&node) != (*label == Some(node)) {
            return false;
        }
    }
    rises(list) && list.iter().all(|node| *node < labels.len())
}

/// Returns the first node, or the number past the last node, at which the labels or the members are not the expected ones.
fn first_other(made: &Cycles, labels: &[Option<usize>]) -> Option<usize> {
    for (node, label) in labels.iter().enumerate() {
        if made.label(node) != *label || !has_members(made.members(node), labels, node) {
            return Some(node);
        }
    }
    let past = labels.len();
    if made.count() == past
        && has_own(made.labels(), labels)
        && made.label(past) == None
        && made.members(past).is_empty()
    {
        None
    } else {
        Some(past)
    }
}

/// Returns whether the graph has these labels.
fn shows(alloc: Global, arrows: &[(usize, usize)], labels: &[Option<usize>]) -> bool {
    match cycles_of(alloc, labels.len(), arrows) {
        Some(made) => {
            let other = first_other(&made, labels);
            drop(made);
            other == None
        }
        None => false,
    }
}

#[test]
fn no_arrows_make_no_cycles(rt: HostRuntime) {
    assert!(rt; shows(rt.alloc(), &[], &[]));
    assert!(rt; shows(rt.alloc(), &[], &[None, None, None]));
}

#[test]
fn chain_has_no_cycle(rt: HostRuntime) {
    let arrows = [(3, 2), (0, 3), (2, 1), (0, 1)];
    assert!(rt; shows(rt.alloc(), &arrows, &[None, None, None, None]));
}

#[test]
fn two_nodes_that_wait_for_each_other_have_one_label(rt: HostRuntime) {
    let arrows = [(3, 1), (1, 3), (1, 3)];
    assert!(rt; shows(rt.alloc(), &arrows, &[None, Some(1), None, Some(1)]));
}

#[test]
fn node_with_an_arrow_to_itself_is_its_own_label(rt: HostRuntime) {
    let arrows = [(1, 1), (0, 1), (1, 2)];
    assert!(rt; shows(rt.alloc(), &arrows, &[None, Some(1), None]));
}

#[test]
fn two_cycles_joined_one_way_have_two_labels(rt: HostRuntime) {
    let arrows = [(0, 4), (4, 0), (4, 2), (2, 5), (5, 3), (3, 2)];
    let labels = [Some(0), None, Some(2), Some(2), Some(0), Some(2)];
    assert!(rt; shows(rt.alloc(), &arrows, &labels));
}

#[test]
fn node_between_two_cycles_has_no_label(rt: HostRuntime) {
    let arrows = [(4, 3), (3, 4), (3, 0), (0, 2), (2, 1), (1, 2)];
    let labels = [None, Some(1), Some(1), Some(3), Some(3)];
    assert!(rt; shows(rt.alloc(), &arrows, &labels));
}

#[test]
fn node_that_points_into_a_cycle_has_no_label(rt: HostRuntime) {
    let arrows = [(0, 1), (1, 2), (2, 1), (3, 0), (2, 4)];
    let labels = [None, Some(1), Some(1), None, None];
    assert!(rt; shows(rt.alloc(), &arrows, &labels));
}

#[test]
fn cycles_that_share_a_node_have_one_label(rt: HostRuntime) {
    let arrows = [(4, 3), (3, 4), (4, 1), (1, 2), (2, 4)];
    let labels = [None, Some(1), Some(1), Some(1), Some(1)];
    assert!(rt; shows(rt.alloc(), &arrows, &labels));
}

#[test]
fn arrows_past_the_last_node_are_seen(rt: HostRuntime) {
    assert!(rt; Cycles::are_below(3, &[(0, 2), (2, 1)]));
    assert!(rt; !Cycles::are_below(3, &[(0, 2), (3, 1)]));
    assert!(rt; !Cycles::are_below(3, &[(0, 3)]));
}

/// Returns the arrows of a cycle, each node of which waits for the one before it, and the first for the last.
fn ring(alloc: Global) -> Result<Vec<(usize, usize)>, AllocError> {
    let mut arrows = Vec::new(alloc);
    for node in 0..RING {
        arrows.push(((node + 1) % RING, node))?;
    }
    Ok(arrows)
}

/// Makes the arrows once, and not again if memory runs out.
#[test]
fn five_hundred_nodes_are_on_one_cycle(rt: HostRuntime) -> Result<(), Fail> {
    let arrows = ring(rt.alloc())?;
    let shown = shows(rt.alloc(), &arrows, &[Some(0); RING]);
    drop(arrows);
    assert!(rt; shown);
    Ok(())
}

/// Returns the arrows of a cycle of two, of nodes in a row that wait for it, and of nodes in a row for which it waits.
fn rows(alloc: Global) -> Result<Vec<(usize, usize)>, AllocError> {
    let mut arrows = Vec::new(alloc);
    arrows.push((0, 1))?;
    arrows.push((1, 0))?;
    for node in 1..ROW {
        arrows.push((node + 1, node))?;
        arrows.push((ROW + node, ROW + node + 1))?;
    }
    arrows.push((0, ROW + 1))?;
    Ok(arrows)
}

/// Returns the labels and the members of the first of them, as counts, and the last member.
fn shown_of(alloc: Global, arrows: &[(usize, usize)]) -> Option<(usize, usize, Option<usize>)> {
    match cycles_of(alloc, ROW + ROW + 1, arrows) {
        Some(made) => {
            let members = made.members(0);
            let shown = (made.labels().len(), members.len(), members.last().copied());
            drop(made);
            Some(shown)
        }
        None => None,
    }
}

/// Makes the arrows once, and not again if memory runs out.
#[test]
fn rows_of_waiters_are_on_no_cycle(rt: HostRuntime) -> Result<(), Fail> {
    let arrows = rows(rt.alloc())?;
    let shown = shown_of(rt.alloc(), &arrows);
    drop(arrows);
    assert_eq!(rt; shown, Some((1, 2, Some(1))));
    Ok(())
}

/// Draws the arrows of a graph, and returns the next number.
fn draw(seed: u64, arrows: &mut [(usize, usize)]) -> u64 {
    let mut number = seed;
    for arrow in arrows.iter_mut() {
        number = next(number);
        *arrow = (
            (number >> 40) as usize % NODES,
            (number >> 30) as usize % NODES,
        );
    }
    number
}

/// Notes that the first node of each arrow reaches the second.
fn note_arrows(reach: &mut [bool; PAIRS], arrows: &[(usize, usize)]) {
    for arrow in arrows {
        if arrow.0 < NODES && arrow.1 < NODES {
            reach[arrow.0 * NODES + arrow.1] = true;
        }
    }
}

/// Notes what the node reaches through another one.
fn note_through(reach: &mut [bool; PAIRS], node: usize, through: usize) {
    if node < NODES && through < NODES && reach[node * NODES + through] {
        for k in 0..NODES {
            if reach[through * NODES + k] {
                reach[node * NODES + k] = true;
            }
        }
    }
}

/// Notes what nodes reach, by going through each node in turn.
fn close(reach: &mut [bool; PAIRS]) {
    for through in 0..NODES {
        for node in 0..NODES {
            note_through(reach, node, through);
        }
    }
}

/// Returns the least node that the node reaches and that reaches it.
fn least(reach: &[bool; PAIRS], node: usize) -> Option<usize> {
    for other in 0..NODES {
        if node < NODES && reach[node * NODES + other] && reach[other * NODES + node] {
            return Some(other);
        }
    }
    None
}

/// Returns the labels of a graph by a plain search.
fn plain_labels(arrows: &[(usize, usize)]) -> [Option<usize>; NODES] {
    let mut reach = [false; PAIRS];
    note_arrows(&mut reach, arrows);
    close(&mut reach);
    let mut labels = [None; NODES];
    for (node, label) in labels.iter_mut().enumerate() {
        *label = least(&reach, node);
    }
    labels
}

/// Draws graphs, and returns the first that does not show the labels of the plain search.
fn first_difference(alloc: Global) -> Option<usize> {
    let mut number = 1;
    let mut arrows = [(0, 0); ARROWS];
    for graph in 0..GRAPHS {
        number = draw(number, &mut arrows);
        let few = &arrows[..graph % (ARROWS + 1)];
        if !shows(alloc, few, &plain_labels(few)) {
            return Some(graph);
        }
    }
    None
}

#[test]
fn drawn_graphs_agree_with_a_plain_search(rt: HostRuntime) {
    assert_eq!(rt; first_difference(rt.alloc()), None);
}
