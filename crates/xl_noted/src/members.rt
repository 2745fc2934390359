// What is noted of the members of a node's list.
ghost use Rattle.std.specs.Prelude.{◌≡◌, map, option_map, IfOk, OnOk};
ghost use Rattle.xl_noted.specs.Noted.{member_noted, noted_of, position_before, row_before};
ghost use Rattle.xl_noted.specs.Same.{is_same_position as is_same_position_by, is_same_row as is_same_row_by};

use crate::same::{is_same_position, is_same_row};
use std::alloc::Global;
use xl_base::{NodeNo, OutOfMemory};
use xl_core::Node;
use xl_trie::Trie;
use xl_wire::{Proposal, Validation};

/// What is noted of a member: its current validation and its position, if it has them.
#[derive(Clone, Copy)]
pub struct NotedMember {
    pub member: NodeNo,
    pub row: Option<Validation>,
    pub position: Option<Proposal>,
}

impl NotedMember {
    pub(crate) fn of(node: &Node<Trie>, member: NodeNo) -> NotedMember
        ensures { result ≡ member_noted node.now member }
    {
        NotedMember {
            member,
            row: node.current(member),
            position: node.round().position_of(member),
        }
    }
}

/// Notes these members, and nobody else.
fn note_each(
    node: &Node<Trie>,
    members: &[NodeNo],
    noted: &mut Vec<NotedMember>,
) -> Result<(), OutOfMemory>
    ensures { OnOk result (noted.new.items ≡ map (member_noted node.now) members.now) }
{
    noted.clear();
    for member in members {
        noted.push(NotedMember::of(node, *member))?;
    }
    Ok(())
}

/// What is noted of the members of its list.
pub fn note_members(alloc: Global, node: &Node<Trie>) -> Result<Vec<NotedMember>, OutOfMemory>
    ensures { IfOk result (λ noted. noted.items ≡ map (member_noted node.now) node.now.list.members) }
{
    let mut noted = Vec::new(alloc);
    note_each(node, node.list().members(), &mut noted)?;
    Ok(noted)
}

/// Notes the members of its list in place of those that were noted.
pub fn note_members_again(
    node: &Node<Trie>,
    noted: &mut Vec<NotedMember>,
) -> Result<(), OutOfMemory>
    ensures { OnOk result (noted.new.items ≡ map (member_noted node.now) node.now.list.members) }
{
    note_each(node, node.list().members(), noted)
}

/// What was noted of a member, if it stood on the list.
fn find_member(noted: &[NotedMember], member: NodeNo) -> Option<&NotedMember>
    ensures { option_map (λ known. known.now) result ≡ noted_of noted.now member }
{
    noted.iter().find(|known| known.member == member)
}

/// Whether the member's current validation is the one that was noted.
pub fn is_row_kept(noted: &[NotedMember], member: NodeNo, row: &Option<Validation>) -> bool
    ensures { result ≡ is_same_row_by (row_before noted.now member) row.now }
{
    match find_member(noted, member) {
        Some(known) => is_same_row(&known.row, row),
        None => row.is_none(),
    }
}

/// Whether the member's position is the one that was noted.
pub fn is_position_kept(noted: &[NotedMember], member: NodeNo, position: &Option<Proposal>) -> bool
    ensures { result ≡ is_same_position_by (position_before noted.now member) position.now }
{
    match find_member(noted, member) {
        Some(known) => is_same_position(&known.position, position),
        None => position.is_none(),
    }
}
