// Carrying slots to places of an item: what it costs depends on the number of these places, and not
// on that of all locals and words.

ghost use Rattle.std.specs.Prelude.{IfOk, MatchBool};
ghost use Rattle.fm_check_walk.specs.inner.Walks.{CanCarry, CanCarryOne, Carries, CarriesOne, Stands, Untypable, walked};
ghost use Rattle.fm_check_walk.specs.inner.Tasks.{IsSound, task};

use crate::checked_method::CheckedMethod;
use crate::merging::law_bounded;
use crate::risen::{Rise, is_lost};
use crate::walk::{Walk, most_noted, state_of};
use fm_base::NoMemory;
use fm_types::{fits, join};
use std::alloc::Global;

impl Walk {
    // Carries a slot to a place of an item; false where no typing has room for it.
    fn carry(
        &mut self,
        alloc: Global,
        method: &CheckedMethod<'_>,
        item: u32,
        rise: Rise,
    ) -> Result<bool, NoMemory>
        requires sound { IsSound (task method.now) }
        requires stands { Stands (task method.now) (walked self.old) }
        requires carried { CanCarryOne (task method.now) (walked self.old) item rise }
        ensures { IfOk result (λ fits. MatchBool fits
            (CarriesOne (task method.now) item rise (walked self.old) (walked self.new))
            (Untypable (task method.now))) }
    {
        let Some(state) = state_of(self.states.as_slice(), item) else {
            return Ok(true);
        };
        let own = state.slot_at(rise.place);
        if fits(method.program, rise.slot, own) {
            return Ok(true);
        }
        if item == 0 {
            return Ok(false);
        }
        // For its clause: the numbers of the slot are within their bytes.
        law_bounded(own);
        let joined = join(method.program, own, rise.slot);
        if is_lost(rise.place, joined) {
            return Ok(false);
        }
        self.raise_slot(alloc, item, rise.place, joined, most_noted(method.code))?;
        Ok(true)
    }

    /// Carries slots to places of an item; false where no typing has room for them.
    pub fn carry_all(
        &mut self,
        alloc: Global,
        method: &CheckedMethod<'_>,
        item: u32,
        rises: &[Rise],
    ) -> Result<bool, NoMemory>
        requires sound { IsSound (task method.now) }
        requires stands { Stands (task method.now) (walked self.old) }
        requires carried { CanCarry (task method.now) (walked self.old) item rises.now }
        ensures { IfOk result (λ fits. MatchBool fits
            (Carries (task method.now) item rises.now (walked self.old) (walked self.new))
            (Untypable (task method.now))) }
    {
        for rise in rises {
            if !self.carry(alloc, method, item, *rise)? {
                return Ok(false);
            }
        }
        Ok(true)
    }
}
