//! Names in groups on worked values, and beside plain lists of labels and flags.

use asset_name_groups::{MOST_NAMES, NameGroups};
use asset_test_tools::{join_in, label_in, next};
use std::alloc::{AllocError, Global};
use std::test::Fail;

/// How many names there are beside the plain lists, and how many joins and flags are drawn.
const NAMES: usize = 60;

const DRAWN: usize = 100;

/// How many names are joined backwards, and by steps that are doubled.
const MANY: usize = 1_000;

/// Makes groups with room for `room` names. If memory runs out once, the same call is made again.
fn with_room(alloc: Global, room: usize) -> Result<NameGroups, AllocError> {
    match NameGroups::with_room(alloc, room) {
        Ok(groups) => Ok(groups),
        Err(AllocError) => NameGroups::with_room(alloc, room),
    }
}

/// Returns the node of a name. One that is new is added if there is room.
fn node_of(groups: &mut NameGroups, t: u64) -> Option<usize> {
    if groups.len() < groups.room() {
        Some(groups.node_of(t))
    } else {
        groups.find(t)
    }
}

/// Joins the groups of two names, and returns whether both are there.
fn join(groups: &mut NameGroups, t: u64, u: u64) -> bool {
    match (groups.find(t), groups.find(u)) {
        (Some(i), Some(j)) => {
            groups.join(i, j);
            true
        }
        _ => false,
    }
}

/// Flags the group of a name, and returns whether the name is there.
fn flag(groups: &mut NameGroups, t: u64) -> bool {
    match groups.find(t) {
        Some(node) => {
            groups.flag(node);
            true
        }
        None => false,
    }
}

/// Returns the first name of a name's group, and whether the group is flagged.
fn group(groups: &NameGroups, t: u64) -> Option<(u64, bool)> {
    let node = groups.find(t)?;
    let label = groups.label(node);
    Some((groups.name(label), groups.is_flagged(node)))
}

/// Returns whether the names have these groups: the first name of each, and whether it is flagged.
fn has_groups(groups: &NameGroups, expected: &[(u64, u64, bool)]) -> bool {
    for (t, first, is_flagged) in expected {
        if group(groups, *t) != Some((*first, *is_flagged)) {
            return false;
        }
    }
    groups.len() == expected.len()
}

/// Adds four names, one of them twice, and asks for one more and again for the first. Returns their nodes.
fn four_are_named(groups: &mut NameGroups) -> [Option<usize>; 7] {
    [
        node_of(groups, 7),
        node_of(groups, 9),
        node_of(groups, 7),
        node_of(groups, 8),
        node_of(groups, u64::MAX),
        node_of(groups, 55),
        node_of(groups, 7),
    ]
}

/// The groups of four names: each by itself, then 8 with 9, then flagged, then with 7 too.
const APART: [(u64, u64, bool); 4] = [
    (7, 7, false),
    (9, 9, false),
    (8, 8, false),
    (u64::MAX, u64::MAX, false),
];

const TWO: [(u64, u64, bool); 4] = [
    (7, 7, false),
    (9, 9, false),
    (8, 9, false),
    (u64::MAX, u64::MAX, false),
];

const FLAGGED: [(u64, u64, bool); 4] = [
    (7, 7, false),
    (9, 9, true),
    (8, 9, true),
    (u64::MAX, u64::MAX, false),
];

const THREE: [(u64, u64, bool); 4] = [
    (7, 7, true),
    (9, 7, true),
    (8, 7, true),
    (u64::MAX, u64::MAX, false),
];

/// Joins 8 with 9 and flags 8, then joins 8 with 7. Returns whether the groups are as they should be each time.
fn joins_are_shown(groups: &mut NameGroups) -> [bool; 4] {
    let apart = has_groups(groups, &APART);
    let two = join(groups, 8, 9) && has_groups(groups, &TWO);
    let flagged = flag(groups, 8) && has_groups(groups, &FLAGGED);
    let three = join(groups, 8, 7) && join(groups, 9, 7) && has_groups(groups, &THREE);
    [apart, two, flagged, three]
}

#[test]
fn groups_of_names_have_labels_and_flags(rt: HostRuntime) -> Result<(), Fail> {
    let mut groups = with_room(rt.alloc(), 4)?;
    let nodes = four_are_named(&mut groups);
    let shown = joins_are_shown(&mut groups);
    let absent = (groups.find(55), groups.len(), groups.room());
    drop(groups);
    assert_eq!(rt;
        nodes,
        [Some(0), Some(1), Some(0), Some(2), Some(3), None, Some(0)]
    );
    assert_eq!(rt; shown, [true, true, true, true]);
    assert_eq!(rt; absent, (None, 4, 4));
    Ok(())
}

#[test]
fn room_for_too_many_names_is_refused(rt: HostRuntime) {
    let refused = with_room(rt.alloc(), MOST_NAMES.saturating_add(1)).is_err();
    let none = with_room(rt.alloc(), 0).map(|groups| (groups.len(), groups.room(), groups.find(0)));
    assert!(rt; refused);
    assert_eq!(rt; none, Ok((0, 0, None)));
}

/// Returns the name of the node.
fn name_at(node: usize) -> u64 {
    (node as u64).wrapping_mul(0x1_0000_0001)
}

/// Adds the names of the nodes below `count`. Returns whether each has its node.
fn names_are_added(groups: &mut NameGroups, count: usize) -> bool {
    for node in 0..count {
        if node_of(groups, name_at(node)) != Some(node) {
            return false;
        }
    }
    true
}

/// Where names that follow each other begin: amid names that are kept near each other.
const FIRST: u64 = 1_000_040;

/// Adds many names that follow each other. Returns whether each has its node.
fn names_are_added_in_order(groups: &mut NameGroups) -> bool {
    for node in 0..MANY {
        if node_of(groups, FIRST.wrapping_add(node as u64)) != Some(node) {
            return false;
        }
    }
    true
}

/// Returns whether each of those names is found.
fn names_are_found(groups: &NameGroups) -> bool {
    for node in 0..MANY {
        if groups.find(FIRST.wrapping_add(node as u64)) != Some(node) {
            return false;
        }
    }
    true
}

#[test]
fn names_in_order_are_found(rt: HostRuntime) -> Result<(), Fail> {
    let mut groups = with_room(rt.alloc(), MANY)?;
    let added = names_are_added_in_order(&mut groups);
    let found = names_are_found(&groups);
    let beside = (
        groups.find(FIRST - 1),
        groups.find(FIRST.wrapping_add(MANY as u64)),
    );
    drop(groups);
    assert!(rt; added);
    assert!(rt; found);
    assert_eq!(rt; beside, (None, None));
    Ok(())
}

/// Adds many names, flags the last, and joins them from the last to the first. Returns whether all could.
fn joined_backwards(groups: &mut NameGroups) -> bool {
    let mut joined = names_are_added(groups, MANY) && flag(groups, name_at(MANY - 1));
    for i in (1..MANY).rev() {
        joined = joined && join(groups, name_at(i), name_at(i - 1));
    }
    joined
}

/// Joins each name with the one `step` later. Returns whether all could.
fn joined_by_step(groups: &mut NameGroups, step: usize) -> bool {
    let mut joined = true;
    for i in step..MANY {
        joined = joined && join(groups, name_at(i), name_at(i - step));
    }
    joined
}

/// Joins each second group of `step` names with the one before it. Returns whether all could.
fn pairs_are_joined(groups: &mut NameGroups, step: usize) -> bool {
    if step == 0 || step >= MANY {
        return false;
    }
    let mut joined = true;
    for i in 0..MANY - step {
        if i % (2 * step) == 0 {
            joined = joined && join(groups, name_at(i + step), name_at(i));
        }
    }
    joined
}

/// Adds many names, flags the first, and joins pairs, then pairs of pairs, and so on, so that trees grow deep. Returns whether all
/// could.
fn joined_by_doubling(groups: &mut NameGroups) -> bool {
    let mut joined = names_are_added(groups, MANY) && flag(groups, name_at(0));
    for step in [1, 2, 4, 8, 16, 32, 64, 128, 256, 512] {
        joined = joined && pairs_are_joined(groups, step);
    }
    joined
}

/// Returns the first node whose group is another one than that of the first name, or is not flagged.
fn first_apart(groups: &NameGroups) -> Option<usize> {
    (0..MANY).find(|i| group(groups, name_at(*i)) != Some((0, true)))
}

/// Returns the first of as many names that were never added that is found.
fn first_stranger(groups: &NameGroups) -> Option<usize> {
    (MANY..2 * MANY).find(|i| groups.find(name_at(*i)).is_some())
}

#[test]
fn many_names_become_one_group(rt: HostRuntime) -> Result<(), Fail> {
    let mut groups = with_room(rt.alloc(), MANY)?;
    let joined = joined_backwards(&mut groups);
    let apart = first_apart(&groups);
    let stranger = first_stranger(&groups);
    drop(groups);
    assert!(rt; joined);
    assert_eq!(rt; (apart, stranger), (None, None));
    Ok(())
}

#[test]
fn pairs_of_pairs_become_one_group(rt: HostRuntime) -> Result<(), Fail> {
    let mut groups = with_room(rt.alloc(), MANY)?;
    let joined = joined_by_doubling(&mut groups);
    let apart = first_apart(&groups);
    let again = joined_by_step(&mut groups, 7) && first_apart(&groups).is_none();
    drop(groups);
    assert!(rt; joined);
    assert_eq!(rt; (apart, again), (None, true));
    Ok(())
}

/// Returns whether a node of the group was flagged, by a scan.
fn is_flagged(labels: &[usize], flags: &[bool], node: usize) -> bool {
    let label = label_in(labels, node);
    labels
        .iter()
        .zip(flags)
        .any(|(other, is_flagged)| *is_flagged && *other == label)
}

/// Returns whether all groups agree with the lists.
fn agrees(groups: &NameGroups, labels: &[usize], flags: &[bool]) -> bool {
    for node in 0..labels.len() {
        let expected = (
            name_at(label_in(labels, node)),
            is_flagged(labels, flags, node),
        );
        if group(groups, name_at(node)) != Some(expected) {
            return false;
        }
    }
    groups.len() == labels.len()
}

/// Draws a join or, one time in four, a flag, in the groups and in the lists. Returns whether both nodes are there.
fn draw(groups: &mut NameGroups, labels: &mut [usize], flags: &mut [bool], number: u64) -> bool {
    let i = (number >> 20) as usize % NAMES;
    let j = (number >> 40) as usize % NAMES;
    if (number >> 56) % 4 == 0 {
        if let Some(is_flagged) = flags.get_mut(i) {
            *is_flagged = true;
        }
        return flag(groups, name_at(i));
    }
    join_in(labels, i, j);
    join(groups, name_at(i), name_at(j))
}

/// Draws joins and flags. Returns how many draws agree before the first that does not.
fn draws_agree(groups: &mut NameGroups, seed: u64) -> usize {
    let mut labels = [0; NAMES];
    let mut flags = [false; NAMES];
    if !names_are_added(groups, NAMES) {
        return 0;
    }
    for node in 0..NAMES {
        labels[node] = node;
    }
    let mut number = seed;
    for drawn in 0..DRAWN {
        number = next(number);
        let there = draw(groups, &mut labels, &mut flags, number);
        if !there || !agrees(groups, &labels, &flags) {
            return drawn;
        }
    }
    DRAWN
}

#[test]
fn groups_of_names_agree_with_plain_lists(rt: HostRuntime) -> Result<(), Fail> {
    for seed in 1..6 {
        let mut groups = with_room(rt.alloc(), NAMES)?;
        let drawn = draws_agree(&mut groups, seed);
        drop(groups);
        assert_eq!(rt; drawn, DRAWN, "seed {seed}");
    }
    Ok(())
}
