// What is known of a method's locals and stack at its items.

ghost use Rattle.std.specs.Prelude.{◌≡◌, IfOk};
ghost use Rattle.fm_types.specs.Typings.{type_state};

use crate::known_state::KnownState;
use crate::shared_slots::SharedSlots;
use crate::stacks::Stack;
use fm_base::{NoMemory, Seq};

/// What is known at an item. A long is `Long` and then `Top` among the locals, and on the stack its
/// `Top` lies above its `Long`. In a constructor `built` says that a constructor that it calls on the
/// same object has returned; in other methods it is true.
#[derive(Debug, Drop)]
pub struct State {
    /// As many as the method has; the parameters come first.
    pub locals: SharedSlots,
    /// The words of the operand stack.
    pub stack: Stack,
    /// Whether the object of a constructor is built; true in other methods.
    pub built: bool,
}

impl State {
    /// An equal state. Takes memory for a word for each piece of its lists.
    pub fn copy(&self) -> Result<State, NoMemory>
        ensures { IfOk result (λ copy. type_state copy ≡ type_state self.now) }
    {
        Ok(State {
            locals: self.locals.copy()?,
            stack: self.stack.copy()?,
            built: self.built,
        })
    }
}

/// The state of each item of a method; none where the item can't be reached.
#[derive(Debug, Drop)]
pub struct Typing {
    /// One for each item of the code, in its order.
    pub states: Seq<Option<KnownState>>,
}
