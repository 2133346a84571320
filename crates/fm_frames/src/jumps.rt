// Jumps: words are taken, and another item follows (JVMS 6.5.goto, 6.5.if_icmp<cond> and its like).

ghost use Rattle.std.specs.Prelude.{◌≡◌, ◌+◌, ◌^◌, ◌<◌, ℕ};
ghost use Rattle.fm_frames.specs.Acts.{cell_of, Choose};
ghost use Rattle.fm_frames.specs.Effects.{Jumps, JumpsIfSame, going};
ghost use Rattle.fm_frames.specs.inner.Doings.{DoesIn, IsReady};
ghost use Rattle.fm_frames.specs.inner.Targets.{goes_same, IsTarget};
ghost use Rattle.fm_world.specs.Programs as world;

use crate::machine::Machine;
use crate::values::Value;
use fm_cells::{Cell, Memory};

// The cell of a reference; null of what is none.
#[inline(always)]
fn cell_of(value: Value) -> Cell
    ensures { result.0 ≡ cell_of value }
{
    match value {
        Value::Ref(cell) => cell,
        _ => Cell(0),
    }
}

impl<M: Memory> Machine<M> {
    /// Takes `takes` words off the stack, and goes on at an item: in each program in which the item
    /// is this target of the topmost frame's instruction. Takes no memory.
    #[inline(always)]
    pub fn jump(&mut self, takes: usize, item: usize)
        requires { self.old.steps + 1 < 2 ^ 64 }
        ensures { (p : world.Program) (choose : Choose) (target : ℕ) → IsTarget p self.old target item
            → DoesIn p choose self.old self.new (going takes (Jumps target)) }
    {
        self.frames.go_to(item);
        self.frames.drop_words(takes);
        self.steps += 1;
    }

    // Whether the two words on top are the same reference, or with `false` aren't.
    #[inline(always)]
    fn goes_same(&self, same: bool) -> bool
        ensures { result ≡ goes_same same self.now }
    {
        let is_same = cell_of(self.word(0)).0 == cell_of(self.word(1)).0;
        if same { is_same } else { !is_same }
    }

    /// Takes two references off the stack, and goes on at an item where they are the same, or where they
    /// aren't: in each program in which the item is the first target of the topmost frame's instruction.
    /// Takes no memory.
    #[inline(always)]
    pub fn jump_if_same(&mut self, same: bool, item: usize)
        requires { IsReady self.old }
        ensures { (p : world.Program) (choose : Choose) → IsTarget p self.old 0 item
            → DoesIn p choose self.old self.new (going 2 (JumpsIfSame same)) }
    {
        if self.goes_same(same) {
            self.jump(2, item);
        } else {
            self.take(2);
        }
    }
}
