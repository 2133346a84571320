// The targets of jumps and switches, from offsets in the code array to the numbers of items (JVMS
// 4.9.1: a target is the opcode of an instruction).

ghost use Rattle.std.specs.Prelude.{◌≡◌, ◌≤◌, ◌<◌, ℕ, IfErr, IfOk, map, length, slice_index};
ghost use Rattle.fm_decode.specs.inner.Gives.{Gives};
ghost use Rattle.fm_decode.specs.inner.Targets.{AllWithin, AreRising, AreStarts, item_offset, number_in, numbered_insn, numbered_item, numbered_items, numbers_of};

use crate::error::DecodeFail;
use fm_code::{Insn, Item, SwitchList};
use std::alloc::Global;

/// What is in `ItemStarts` where no item starts.
const NO_ITEM: u32 = 4_294_967_295;

/// The number of the item that starts at each offset of a code array, or `NO_ITEM`.
#[derive(Debug, Drop)]
pub(crate) struct ItemStarts {
    numbers: Vec<u32>,
}

impl ItemStarts {
    /// Where these items start, in a code array of a given number of bytes.
    pub(crate) fn of(alloc: Global, items: &[Item], length: usize) -> Result<ItemStarts, DecodeFail>
        requires rising { AreRising (map item_offset items.now) }
        requires within { AllWithin length (map item_offset items.now) }
        requires short { length ≤ 65535 }
        ensures ok { IfOk result
            (λ starts. AreStarts (map item_offset items.now) starts.numbers.items) }
        ensures err { IfErr result (λ e. e ≡ DecodeFail.NoMemory) }
    {
        let mut numbers = vec![in alloc; NO_ITEM; length]?;
        for (number, item) in items.iter().enumerate() {
            numbers[item.offset as usize] = number as u32;
        }
        Ok(ItemStarts { numbers })
    }

    /// The number of the item that starts at an offset.
    fn number_of(&self, target: u32) -> Result<u32, DecodeFail>
        ensures { Gives (λ n. n) result (number_in self.now.numbers.items target) }
    {
        match self.numbers.as_slice().get(target as usize) {
            Some(number) if *number != NO_ITEM => Ok(*number),
            _ => Err(DecodeFail::Malformed),
        }
    }

    /// The numbers of the items that start at these offsets.
    fn numbers_of(&self, alloc: Global, targets: &[u32]) -> Result<SwitchList<u32>, DecodeFail>
        ensures { Gives (λ list. list) result (numbers_of self.now.numbers.items targets.now) }
    {
        let mut numbers = Vec::with_capacity(alloc, targets.len())?;
        for target in targets {
            numbers.push(self.number_of(*target)?)?;
        }
        Ok(SwitchList::new(alloc, numbers)?)
    }

    /// The instruction with the number of an item for each offset of a target.
    #[tactic(auto, unfolding(crate::specs::inner::Targets::numbered_insn))]
    fn numbered_insn(&self, alloc: Global, insn: Insn) -> Result<Insn, DecodeFail>
        ensures { Gives (λ i. i) result (numbered_insn self.now.numbers.items insn) }
    {
        match insn {
            Insn::IfInt(test, target) => Ok(Insn::IfInt(test, self.number_of(target)?)),
            Insn::IfPair(test, target) => Ok(Insn::IfPair(test, self.number_of(target)?)),
            Insn::IfSame(same, target) => Ok(Insn::IfSame(same, self.number_of(target)?)),
            Insn::IfNull(null, target) => Ok(Insn::IfNull(null, self.number_of(target)?)),
            Insn::Goto(target) => Ok(Insn::Goto(self.number_of(target)?)),
            Insn::Table(low, others, targets) => {
                let others = self.number_of(others)?;
                let targets = self.numbers_of(alloc, targets.as_slice())?;
                Ok(Insn::Table(low, others, targets))
            }
            Insn::Lookup(others, keys, targets) => {
                let others = self.number_of(others)?;
                let targets = self.numbers_of(alloc, targets.as_slice())?;
                Ok(Insn::Lookup(others, keys, targets))
            }
            insn => Ok(insn),
        }
    }

    /// The item with the number of an item for each offset of a target.
    #[tactic(auto, unfolding(crate::specs::inner::Targets::numbered_item))]
    fn numbered_item(&self, alloc: Global, draft: Item) -> Result<Item, DecodeFail>
        ensures { Gives (λ item. item) result (numbered_item self.now.numbers.items draft) }
    {
        Ok(Item {
            offset: draft.offset,
            bytes: draft.bytes,
            insn: self.numbered_insn(alloc, draft.insn)?,
        })
    }

    /// The items with the numbers of items for the offsets of their targets.
    pub(crate) fn numbered_items(
        &self,
        alloc: Global,
        drafts: Vec<Item>,
    ) -> Result<Vec<Item>, DecodeFail>
        ensures { Gives (λ v. v.items) result
            (numbered_items self.now.numbers.items drafts.items) }
    {
        let mut items = Vec::with_capacity(alloc, drafts.len())?;
        for draft in drafts {
            items.push(self.numbered_item(alloc, draft)?)?;
        }
        Ok(items)
    }
}
