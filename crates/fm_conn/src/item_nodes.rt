// The nodes at an item: the words of its stack, and those that its instruction gives.

ghost use Rattle.std.specs.Prelude.{◌≡◌, ◌++◌, ◌<◌, [], if◌then◌else◌, length, OnOk};
ghost use Rattle.std.specs.List.{flat_map};
ghost use Rattle.fm_code.specs.Edges.{falls_through};
ghost use Rattle.fm_code.specs.SpellsCode.{targets_of};
ghost use Rattle.fm_conn.specs.Rows.{is_reference_field, joined_by, moved_words, Given, Taken};
ghost use Rattle.fm_types.specs.Named.{NamesMember};
ghost use Rattle.fm_conn.specs.inner.PairLists.{following, joined_pairs, number_pair, place_number, place_of, stay_pairs, staying_pairs};

use crate::nodes::Nodes;
use crate::rows::is_reference_field;
use fm_base::NoMemory;
use fm_code::{Elem, Insn, Reg};
use fm_world::{Program, Use};

/// An item of a method that can be reached: its number, its instruction with what that names, how many
/// words its stack has, and how many of them lie below those that it takes.
#[derive(Clone, Copy)]
pub struct ItemNodes<'a> {
    pub nodes: &'a Nodes,
    pub item: u32,
    pub insn: &'a Insn,
    pub resolved: Use,
    pub depth: u32,
    pub below: u32,
}

/// Puts the two numbers after the last pair, where there are both.
pub fn push_pair(
    pairs: &mut Vec<(u32, u32)>,
    a: Option<u32>,
    b: Option<u32>,
) -> Result<(), NoMemory>
    ensures { OnOk result (pairs.new.items ≡ pairs.old.items ++ number_pair a b) }
{
    if let (Some(a), Some(b)) = (a, b) {
        pairs.push((a, b))?;
    }
    Ok(())
}

impl ItemNodes<'_> {
    /// A word that is taken, counted from the top.
    pub fn taken(&self, n: u8) -> Option<u32>
        ensures { result ≡ place_number self.now.nodes.now (place_of self.now) (Taken n) }
    {
        let depth = self.depth.saturating_sub(1).saturating_sub(u32::from(n));
        self.nodes.slot(self.item as usize, depth as usize)
    }

    /// A word that is given, by how many of these lie below it.
    pub fn given(&self, n: u8) -> Option<u32>
        ensures { result ≡ place_number self.now.nodes.now (place_of self.now) (Given n) }
    {
        self.nodes
            .slot(self.item as usize + 1, self.below as usize + n as usize)
    }

    // Pairs each word that stays with the same one at the next item.
    #[tactic(auto, unfolding(crate::specs::inner::PairLists::stay_pairs))]
    fn push_stays(&self, pairs: &mut Vec<(u32, u32)>, next: u32) -> Result<(), NoMemory>
        ensures { OnOk result (pairs.new.items
            ≡ pairs.old.items ++ stay_pairs self.now.nodes.now (place_of self.now) next) }
    {
        for depth in 0..self.below as usize {
            let here = self.nodes.slot(self.item as usize, depth);
            push_pair(pairs, here, self.nodes.slot(next as usize, depth))?;
        }
        Ok(())
    }

    // The same at each of several items.
    fn push_stays_at(&self, pairs: &mut Vec<(u32, u32)>, targets: &[u32]) -> Result<(), NoMemory>
        ensures { OnOk result (pairs.new.items ≡ pairs.old.items
            ++ flat_map (stay_pairs self.now.nodes.now (place_of self.now)) targets.now) }
    {
        for target in targets {
            self.push_stays(pairs, *target)?;
        }
        Ok(())
    }

    // The same at the items to which the instruction jumps.
    fn push_jumps(&self, pairs: &mut Vec<(u32, u32)>) -> Result<(), NoMemory>
        ensures { OnOk result (pairs.new.items ≡ pairs.old.items
            ++ flat_map (stay_pairs self.now.nodes.now (place_of self.now)) (targets_of self.now.insn.now)) }
    {
        match self.insn {
            Insn::IfInt(_, target)
            | Insn::IfPair(_, target)
            | Insn::IfSame(_, target)
            | Insn::IfNull(_, target)
            | Insn::Goto(target) => self.push_stays(pairs, *target),
            Insn::Table(_, others, targets) | Insn::Lookup(others, _, targets) => {
                self.push_stays(pairs, *others)?;
                self.push_stays_at(pairs, targets.as_slice())
            }
            _ => Ok(()),
        }
    }

    // The same at the item after it, where control goes on to that.
    fn push_following(&self, pairs: &mut Vec<(u32, u32)>) -> Result<(), NoMemory>
        requires { self.now.item < 65536 }
        ensures { OnOk result (pairs.new.items ≡ pairs.old.items
            ++ flat_map (stay_pairs self.now.nodes.now (place_of self.now))
            (following (place_of self.now))) }
    {
        if self.insn.falls_through() {
            self.push_stays(pairs, self.item + 1)?;
        }
        Ok(())
    }

    /// Pairs each word that stays with the same one at each item that follows.
    pub fn push_staying(&self, pairs: &mut Vec<(u32, u32)>) -> Result<(), NoMemory>
        requires { self.now.item < 65536 }
        ensures { OnOk result (pairs.new.items ≡ pairs.old.items
            ++ staying_pairs self.now.nodes.now (place_of self.now)) }
    {
        self.push_jumps(pairs)?;
        self.push_following(pairs)
    }

    // Pairs the words at these places with those that they become, the first one uppermost.
    fn push_moved(&self, pairs: &mut Vec<(u32, u32)>, places: &[u8]) -> Result<(), NoMemory>
        requires { length places.now < 256 }
        ensures { OnOk result (pairs.new.items ≡ pairs.old.items
            ++ joined_pairs self.now.nodes.now (place_of self.now) (moved_words places.now)) }
    {
        let mut above = places.len() as u8;
        for place in places {
            above -= 1;
            push_pair(pairs, self.taken(*place), self.given(above))?;
        }
        Ok(())
    }

    /// Pairs what the instruction joins, but for calls.
    #[tactic(auto, unfolding(crate::specs::Rows::joined_by))]
    pub fn push_joined(
        &self,
        pairs: &mut Vec<(u32, u32)>,
        program: &Program,
    ) -> Result<(), NoMemory>
        requires { NamesMember program.now.outline self.now.resolved }
        ensures { OnOk result (pairs.new.items ≡ pairs.old.items
            ++ joined_pairs self.now.nodes.now (place_of self.now)
            (joined_by program.now.outline self.now.resolved self.now.insn.now)) }
    {
        let global = Some(self.nodes.global());
        match self.insn {
            Insn::Dup => self.push_moved(pairs, &[0, 0]),
            Insn::DupX1 => self.push_moved(pairs, &[0, 1, 0]),
            Insn::DupX2 => self.push_moved(pairs, &[0, 1, 2, 0]),
            Insn::Dup2 => self.push_moved(pairs, &[0, 1, 0, 1]),
            Insn::Dup2X1 => self.push_moved(pairs, &[0, 1, 2, 0, 1]),
            Insn::Dup2X2 => self.push_moved(pairs, &[0, 1, 2, 3, 0, 1]),
            Insn::Swap => self.push_moved(pairs, &[1, 0]),
            Insn::Load(Reg::Ref, k) => push_pair(pairs, self.nodes.local(*k), self.given(0)),
            Insn::Store(Reg::Ref, k) => push_pair(pairs, self.taken(0), self.nodes.local(*k)),
            Insn::Cast(_) => push_pair(pairs, self.taken(0), self.given(0)),
            Insn::GetField(_) => {
                push_field(pairs, program, self.resolved, self.taken(0), self.given(0))
            }
            Insn::PutField(_) => {
                push_field(pairs, program, self.resolved, self.taken(1), self.taken(0))
            }
            Insn::GetStatic(_) => {
                push_field(pairs, program, self.resolved, self.given(0), global)
            }
            Insn::PutStatic(_) => {
                push_field(pairs, program, self.resolved, self.taken(0), global)
            }
            Insn::ArrayLoad(Elem::Ref) => push_pair(pairs, self.taken(1), self.given(0)),
            Insn::ArrayStore(Elem::Ref) => push_pair(pairs, self.taken(2), self.taken(0)),
            Insn::Throw => push_pair(pairs, self.taken(0), global),
            Insn::Return(Some(Reg::Ref)) => {
                push_pair(pairs, self.taken(0), Some(self.nodes.returned()))
            }
            _ => Ok(()),
        }
    }
}

// The pair of an instruction at a field, where that holds references.
fn push_field(
    pairs: &mut Vec<(u32, u32)>,
    program: &Program,
    resolved: Use,
    a: Option<u32>,
    b: Option<u32>,
) -> Result<(), NoMemory>
    requires { NamesMember program.now.outline resolved }
    ensures { OnOk result (pairs.new.items ≡ pairs.old.items
        ++ (if is_reference_field program.now.outline resolved then number_pair a b else [])) }
{
    if is_reference_field(program, resolved) {
        push_pair(pairs, a, b)?;
    }
    Ok(())
}
