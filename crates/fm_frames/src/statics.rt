// Static fields.

ghost use Rattle.std.specs.Prelude.{◌≡◌, [], ◌∷◌};
ghost use Rattle.fm_frames.specs.Acts.{set_static, value_of};
ghost use Rattle.fm_frames.specs.Effects.{acting, SetStatic, Source};
ghost use Rattle.fm_frames.specs.Elements.{cut, kept};
ghost use Rattle.fm_frames.specs.States.{word_at};
ghost use Rattle.fm_frames.specs.inner.Doings.{before, Does, IsReady};
ghost use Rattle.fm_frames.specs.inner.Places.{IsOfKind};

use crate::elements::{kept, read};
use crate::machine::Machine;
use crate::values::Value;
use fm_base::Kind;
use fm_cells::Memory;

impl<M: Memory> Machine<M> {
    /// The value of the static field at this place; no value where there is none. Takes no memory.
    pub fn static_at(&self, slot: usize) -> Value
        ensures { result ≡ word_at self.now.areas.statics slot }
    {
        match self.statics.get(slot) {
            Some(value) => *value,
            None => Value::Top,
        }
    }

    /// Gives the static field at this place a value, cut to its kind, if there is that field.
    /// Takes no memory.
    pub fn set_static(&mut self, slot: usize, kind: Kind, value: Value)
        requires { IsOfKind kind (kept kind value) }
        ensures { self.new ≡ record self.old { areas = set_static self.old.areas slot kind value } }
    {
        let value = read(kind, kept(kind, value));
        if slot < self.statics.len() {
            self.statics[slot] = value;
        }
    }

    /// Takes `takes` words off the stack, and gives a static field a value. Takes no memory.
    pub fn put_static(&mut self, takes: usize, slot: usize, kind: Kind, value: Value)
        requires ready { IsReady self.old }
        requires fits { IsOfKind kind (kept kind value) }
        ensures { (source : Source) → value_of (before self.old) source ≡ value
            → Does self.old self.new (acting takes (SetStatic slot kind source ∷ [])) }
    {
        self.set_static(slot, kind, value);
        self.take(takes);
    }
}
