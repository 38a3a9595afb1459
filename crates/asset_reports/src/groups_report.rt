//! The groups of a history, a line each.

ghost use Rattle.std.specs.Prelude.{◌≡◌, ◌++◌, ◌∷◌, [], List, OnOk, Option, flat_map, string_bytes};
ghost use Rattle.std.specs.List.{range_with_len};
ghost use Rattle.asset_buckets.specs.Bucketed.{buckets_of};
ghost use Rattle.asset_reports.specs.Groups.{member_word, members_text, members_are_dead, state_text, group_text, group_line, all_groups_text, groups_text};

use asset_buckets::Buckets;
use asset_deletion::{Groups, groups};
use asset_history::History;
use asset_names::NoMemory;
use asset_printing::{push_next_number, push_number};
use std::alloc::{AllocError, Global};

/// Appends a space and the name at the index, if there is one.
#[tactic(auto, unfolding(crate::specs::Groups::member_word))]
fn push_member(text: &mut String, groups: &Groups, index: usize) -> Result<(), AllocError>
    ensures { OnOk result (string_bytes text.new ≡ string_bytes text.old ++ member_word groups.now index) }
{
    match groups.name(index) {
        Some(t) => push_next_number(text, t.0),
        None => Ok(()),
    }
}

/// Appends the names at the indices, each after a space.
fn push_members(text: &mut String, groups: &Groups, members: &[usize]) -> Result<(), AllocError>
    ensures { OnOk result (string_bytes text.new ≡ string_bytes text.old ++ members_text groups.now members.now) }
{
    'members: for k in members {
        push_member(text, groups, *k)?;
    }
    Ok(())
}

/// Returns whether the first of the members is of a dead group.
fn is_dead(groups: &Groups, members: &[usize]) -> bool
    ensures { result ≡ members_are_dead groups.now members.now }
{
    match members.first() {
        Some(k) => match groups.name(*k) {
            Some(t) => groups.is_dead(t),
            None => false,
        },
        None => false,
    }
}

/// Appends the number of a group, and whether it is dead or has committed.
#[tactic(auto, unfolding(crate::specs::Groups::state_text))]
fn push_state(text: &mut String, number: usize, is_dead: bool) -> Result<(), AllocError>
    ensures { OnOk result (string_bytes text.new ≡ string_bytes text.old ++ state_text number is_dead) }
{
    push_number(text, number as u64)?;
    text.push_str(if is_dead { " dead" } else { " committed" })
}

/// Appends the line of a group, by the indices of its names.
#[tactic(auto, unfolding(crate::specs::Groups::group_text))]
fn push_group(
    text: &mut String,
    groups: &Groups,
    number: usize,
    members: &[usize],
) -> Result<(), AllocError>
    ensures { OnOk result (string_bytes text.new ≡ string_bytes text.old ++ group_text groups.now number members.now) }
{
    push_state(text, number, is_dead(groups, members))?;
    push_members(text, groups, members)?;
    text.push_str("\n")
}

/// Appends the lines of all groups, whose names are in buckets by group.
fn push_all(text: &mut String, groups: &Groups, members: &Buckets) -> Result<(), AllocError>
    requires { members.now ≡ buckets_of groups.now.numbers groups.now.count }
    ensures { OnOk result (string_bytes text.new ≡ string_bytes text.old ++ all_groups_text groups.now) }
{
    'groups: for g in 0..groups.count() {
        push_group(text, groups, g, members.bucket(g))?;
    }
    Ok(())
}

/// Appends the lines of all groups.
fn push_lines(alloc: Global, groups: &Groups, text: &mut String) -> Result<(), AllocError>
    ensures { OnOk result (string_bytes text.new ≡ string_bytes text.old ++ all_groups_text groups.now) }
{
    let members = Buckets::of(alloc, groups.numbers(), groups.count())?;
    let pushed = push_all(text, groups, &members);
    drop(members);
    pushed
}

/// Appends a line for each group of a history, in order of number: the number, `committed` if a member has committed and
/// `dead` if none has, and the members in order of first use. It answers `NoMemory` if memory runs out, and takes time that
/// is nearly in proportion to the entries.
#[tactic(auto, unfolding(crate::specs::Groups::groups_text))]
pub fn push_groups(alloc: Global, history: &History, text: &mut String) -> Result<(), NoMemory>
    ensures { OnOk result (string_bytes text.new ≡ string_bytes text.old ++ groups_text history.now.entries) }
{
    let groups = groups(alloc, history)?;
    let pushed = push_lines(alloc, &groups, text);
    drop(groups);
    match pushed {
        Ok(()) => Ok(()),
        Err(_) => Err(NoMemory),
    }
}
