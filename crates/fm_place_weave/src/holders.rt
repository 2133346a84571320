// The locals of holders, and how they take objects and are freed.

ghost use Rattle.std.specs.Prelude.{◌≡◌, ◌+◌, ◌<◌, if◌then◌else◌, length};
ghost use Rattle.fm_base.specs.Rows.{has};
ghost use Rattle.fm_place_weave.specs.Conditions.{IsFlagged, IsLocal};

use fm_base::Row;
use fm_chain::Calls;

/// The locals of holders.
#[derive(Clone, Copy)]
pub(crate) struct Holders<'a> {
    /// How the methods of FreeMe are called.
    pub calls: Calls,
    /// The first local that is added.
    pub first: u16,
    /// Which holders hold chains.
    pub looped: &'a Row,
}

impl Holders<'_> {
    /// The local of a pair's holder.
    pub(crate) fn local_of(self, pair: &(u32, u16)) -> u16
        requires { IsLocal self.first pair.now }
        ensures { result ≡ self.entry.first + pair.now.1 }
    {
        self.first + pair.1
    }

    /// Whether a pair's holder holds a chain.
    pub(crate) fn is_looped(self, pair: &(u32, u16)) -> bool
        requires { IsFlagged self.looped.now pair.now }
        ensures { result ≡ has self.entry.looped.now pair.now.1 }
    {
        self.looped.get(u32::from(pair.1))
    }

    /// The entry of the method that frees what a pair's holder holds.
    pub(crate) fn free_call(self, pair: &(u32, u16)) -> u16
        requires { IsFlagged self.looped.now pair.now }
        ensures { result
            ≡ (if has self.entry.looped.now pair.now.1 then self.entry.calls.free_chain else self.entry.calls.free) }
    {
        if self.is_looped(pair) {
            self.calls.free_chain
        } else {
            self.calls.free
        }
    }
}
