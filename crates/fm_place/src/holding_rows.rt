// What the holders may hold: for each a walk along the edges, which its object goes as long as its
// class is busy.

ghost use Rattle.std.specs.Prelude.{◌≡◌, ◌<◌, IfOk, length};
ghost use Rattle.fm_place.specs.inner.PlanRows.{count_of, is_busy_at, AreGroups, AreHolding, AreRowsIn, Follows, IsAfter, IsRowOf, IsSeen};

use crate::busy_rows::Seen;
use crate::groups::Groups;
use fm_base::{NoMemory, Row};
use fm_flow::mark;
use std::alloc::Global;

/// Where holders may hold something, as bits of items.
#[derive(Drop)]
pub struct Holding {
    /// For each holder the items where it may hold something.
    pub rows: Vec<Row>,
    /// The items where some holder is freed: it may hold something, and its class isn't busy.
    pub freed: Row,
}

impl Seen<'_> {
    /// Where each holder may hold something, by where the classes are busy. Takes at most as many
    /// steps for each holder as the flow keeps edges, and memory for a bit for each holder and item.
    pub fn holding_rows(
        &self,
        alloc: Global,
        groups: &Groups<'_>,
        busy: &[Row],
        count: u32,
    ) -> Result<Holding, NoMemory>
        requires seen { IsSeen self.now }
        requires groups { AreGroups groups.now }
        requires count { count ≡ count_of self.now }
        requires busy { AreRowsIn groups.now count (is_busy_at self.now) busy.now }
        ensures { IfOk result (λ holding. AreHolding self.now groups.now.held.now
            (length groups.now.held.now) holding.freed holding.rows.items) }
    {
        let mut freed = Row::new(alloc, count)?;
        let mut rows = Vec::new(alloc);
        for (holder, pair) in groups.held.iter().enumerate() {
            let class = groups.of_holders[holder];
            let row = self.holding_row(alloc, pair, &busy[class as usize], &mut freed)?;
            rows.push(row)?;
        }
        Ok(Holding { rows, freed })
    }

    // Where one holder may hold something; the items where it is freed are set in the other row.
    fn holding_row(
        &self,
        alloc: Global,
        pair: &(u32, u32),
        busy: &Row,
        freed: &mut Row,
    ) -> Result<Row, NoMemory>
        requires seen { IsSeen self.now }
        requires busy { IsRowOf (count_of self.now) (λ j. is_busy_at self.now j pair.now.1) busy.now }
        requires wide { length freed.old ≡ count_of self.now }
        ensures { IfOk result (Follows self.now pair.now freed.old freed.new) }
    {
        let mut row = Row::new(alloc, busy.bits())?;
        let mut waiting = Vec::new(alloc);
        let mut done = self.flow.no_marks(alloc)?;
        let first = item_after(alloc, pair.0, busy.bits())?;
        mark(first.as_slice(), &mut row, &mut waiting)?;
        while let Some(j) = waiting.pop() {
            if busy.get(j) {
                self.flow.mark_edges(j, &mut row, &mut waiting, &mut done)?;
            } else {
                freed.set(j);
            }
        }
        Ok(row)
    }
}

// The item after the site, if there is one.
fn item_after(alloc: Global, site: u32, count: u32) -> Result<Vec<u32>, NoMemory>
    ensures { IfOk result (λ list. IsAfter site count list.items) }
{
    let mut list = Vec::new(alloc);
    if count > 0 && site < count - 1 {
        list.push(site + 1)?;
    }
    Ok(list)
}
