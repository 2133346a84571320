// The places in a code array that its tables name by offsets: the items, and after them the end of the
// code.

ghost use Rattle.std.specs.Prelude.{◌≡◌, IfErr, IfOk};
ghost use Rattle.fm_code.specs.inner.Reading.{Gives};
ghost use Rattle.fm_decode.specs.inner.Targets.{AreRising};
ghost use Rattle.fm_read.specs.inner.Places.{find_item, find_place, offsets_of};

use fm_code::{Item, PieceFail};
use std::alloc::Global;
use std::marker::Model;

/// The offset of each item of a code array, and of its end. Contracts see the list of these offsets.
#[derive(Debug, Drop)]
pub(crate) struct Places {
    offsets: Vec<u32>,
}

impl Model for Places {
    ghost use Rattle.std.specs.Prelude.{ℕ, List};

    ghost Value = { List ℕ };

    ghost view = { λ p. p.offsets.items };

    ghost use Rattle.fm_decode.specs.inner.Targets.{AreRising};

    ghost invariant = { λ p. AreRising p.offsets.items };
}

impl Places {
    /// The places in a code array of these items and this number of bytes.
    pub(crate) fn of(alloc: Global, items: &[Item], length: u32) -> Result<Places, PieceFail>
        requires { AreRising (offsets_of items.now length) }
        ensures ok { IfOk result (λ places. places ≡ offsets_of items.now length) }
        ensures err { IfErr result (λ e. e ≡ PieceFail.NoMemory) }
    {
        let mut offsets = Vec::with_capacity(alloc, items.len() + 1)?;
        for item in items {
            offsets.push(item.offset)?;
        }
        offsets.push(length)?;
        Ok(Places { offsets })
    }

    /// The number of the item at an offset, or the number of all items at the code's end.
    pub(crate) fn find_place(&self, offset: u32) -> Result<u32, PieceFail>
        ensures { Gives (λ n. n) result (find_place self.now offset) }
    {
        match self.offsets.as_slice().binary_search(&offset) {
            Ok(place) => Ok(place as u32),
            Err(_) => Err(PieceFail::Malformed),
        }
    }

    /// The number of the item at an offset.
    #[tactic(auto, unfolding(crate::specs::inner::Places::find_item))]
    pub(crate) fn find_item(&self, offset: u32) -> Result<u32, PieceFail>
        ensures { Gives (λ n. n) result (find_item self.now offset) }
    {
        let place = self.find_place(offset)?;
        if place as usize + 1 < self.offsets.len() {
            Ok(place)
        } else {
            Err(PieceFail::Malformed)
        }
    }
}
