// The rows of jumps and switches (JVMS 6.5.if<cond>, 6.5.goto, 6.5.tableswitch and its like).

ghost use Rattle.std.specs.Prelude.{◌≡◌, ◌∷◌, length, position, slice_get, take, Some};
ghost use Rattle.std.specs.Ordering.{int_eq};
ghost use Rattle.fm_code.specs.declared.instructions.Insn.TheVariants as insn;
ghost use Rattle.fm_exec.specs.Steps.{seen, Steps};
ghost use Rattle.fm_frames.specs.Acts.{Choose};
ghost use Rattle.fm_frames.specs.Effects.{Jumps, going};
ghost use Rattle.fm_frames.specs.JumpRows.{holds, int_jump_effect, jumps_if, key_target, lookup_effect, null_jump_effect, pair_jump_effect, same_jump_effect, table_effect, table_target};
ghost use Rattle.fm_frames.specs.inner.Doings.{CanStep, DoesIn, IsReady};
ghost use Rattle.fm_frames.specs.inner.Targets.{IsAt, IsTarget};
ghost use Rattle.fm_world.specs.Programs as world;

use fm_cells::Memory;
use fm_code::Test;
use fm_frames::{Look, Machine};
use fm_world::Program;

/// Whether the test holds of two ints. Takes no memory.
#[inline(always)]
pub fn holds(test: Test, a: i32, b: i32) -> bool
    ensures { result ≡ holds test a b }
{
    match test {
        Test::Eq => a == b,
        Test::Ne => a != b,
        Test::Lt => a < b,
        Test::Ge => a >= b,
        Test::Gt => a > b,
        Test::Le => a <= b,
    }
}

// Takes `takes` words, and goes on at the instruction's one target or at the next item.
#[inline(always)]
fn branch<M: Memory>(machine: &mut Machine<M>, takes: usize, taken: bool, target: u32)
    requires { IsReady machine.old }
    ensures { (p : world.Program) (choose : Choose) → IsTarget p machine.old 0 target
        → DoesIn p choose machine.old machine.new (going takes (jumps_if taken)) }
{
    if taken {
        machine.jump(takes, target as usize);
    } else {
        machine.take(takes);
    }
}

/// ifeq and its like: an int and 0.
#[inline(always)]
pub fn if_int<M: Memory>(machine: &mut Machine<M>, program: &Program, test: Test, target: u32)
    requires can { CanStep program.now machine.old }
    requires at { IsAt program.now machine.old (insn.IfInt test target) }
    ensures { Steps program.now M.choose machine.old machine.new
        (int_jump_effect test (seen program.now machine.old)) }
{
    let Some(a) = machine.int_operand(0) else {
        machine.stuck(program);
        return;
    };
    branch(machine, 1, holds(test, a, 0), target);
}

/// if_icmpeq and its like: two ints.
#[inline(always)]
pub fn if_pair<M: Memory>(machine: &mut Machine<M>, program: &Program, test: Test, target: u32)
    requires can { CanStep program.now machine.old }
    requires at { IsAt program.now machine.old (insn.IfPair test target) }
    ensures { Steps program.now M.choose machine.old machine.new
        (pair_jump_effect test (seen program.now machine.old)) }
{
    let Some(b) = machine.int_operand(0) else {
        machine.stuck(program);
        return;
    };
    let Some(a) = machine.int_operand(1) else {
        machine.stuck(program);
        return;
    };
    branch(machine, 2, holds(test, a, b), target);
}

/// if_acmpeq, and with `false` if_acmpne.
#[inline(always)]
pub fn if_same<M: Memory>(machine: &mut Machine<M>, program: &Program, same: bool, target: u32)
    requires can { CanStep program.now machine.old }
    requires at { IsAt program.now machine.old (insn.IfSame same target) }
    ensures { Steps program.now M.choose machine.old machine.new (same_jump_effect same) }
{
    // For its clause: a program has fewer than 2^32 classes.
    let _classes = program.classes();
    machine.jump_if_same(same, target as usize);
}

/// ifnull, and with `false` ifnonnull.
#[inline(always)]
pub fn if_null<M: Memory>(machine: &mut Machine<M>, program: &Program, null: bool, target: u32)
    requires can { CanStep program.now machine.old }
    requires at { IsAt program.now machine.old (insn.IfNull null target) }
    ensures { Steps program.now M.choose machine.old machine.new
        (null_jump_effect null (seen program.now machine.old)) }
{
    let operand = machine.look(0);
    match operand {
        Look::Other => machine.stuck(program),
        Look::Null => branch(machine, 1, null, target),
        Look::Gone(_) => branch(machine, 1, !null, target),
        Look::Object(_, _) => branch(machine, 1, !null, target),
    }
}

/// goto.
#[inline(always)]
pub fn go_to<M: Memory>(machine: &mut Machine<M>, program: &Program, target: u32)
    requires can { CanStep program.now machine.old }
    requires at { IsAt program.now machine.old (insn.Goto target) }
    ensures { Steps program.now M.choose machine.old machine.new (going 0 (Jumps 0)) }
{
    // For its clause: a program has fewer than 2^32 classes.
    let _classes = program.classes();
    machine.jump(0, target as usize);
}

/// The item to which a key leads: the target at its place in the order of keys from `low` on, and `others`
/// for each other key. Takes no memory.
#[inline(always)]
pub fn table_item(low: i32, others: u32, targets: &[u32], key: i32) -> u32
    ensures { slice_get (others ∷ targets.now) (table_target low (length targets.now) key) ≡ Some result }
{
    if key < low {
        return others;
    }
    let place = (i64::from(key) - i64::from(low)).unsigned_abs() as usize;
    if place >= targets.len() {
        return others;
    }
    targets[place]
}

/// tableswitch.
#[inline(always)]
pub fn table_switch<M: Memory>(
    machine: &mut Machine<M>,
    program: &Program,
    low: i32,
    others: u32,
    targets: &[u32],
)
    requires can { CanStep program.now machine.old }
    requires at { IsAt program.now machine.old (insn.Table low others targets.now) }
    ensures { Steps program.now M.choose machine.old machine.new
        (table_effect low (length targets.now) (seen program.now machine.old)) }
{
    let Some(key) = machine.int_operand(0) else {
        machine.stuck(program);
        return;
    };
    let item = table_item(low, others, targets, key);
    machine.jump(1, item as usize);
}

// The place of the first of the keys that is this one.
#[inline(always)]
fn key_place(keys: &[i32], key: i32) -> Option<usize>
    ensures { result ≡ position (int_eq key) keys.now }
{
    keys.iter().position(|known| key == *known)
}

/// The item to which a key leads, which is looked for among as many of the first keys as there are targets;
/// `others` for a key that isn't there. Takes no memory.
#[inline(always)]
pub fn key_item(others: u32, keys: &[i32], targets: &[u32], key: i32) -> u32
    ensures { slice_get (others ∷ targets.now)
        (key_target (position (int_eq key) (take (length targets.now) keys.now))) ≡ Some result }
{
    let few = targets.len().min(keys.len());
    match key_place(&keys[..few], key) {
        Some(place) => targets[place],
        None => others,
    }
}

/// lookupswitch.
#[inline(always)]
pub fn lookup_switch<M: Memory>(
    machine: &mut Machine<M>,
    program: &Program,
    others: u32,
    keys: &[i32],
    targets: &[u32],
)
    requires can { CanStep program.now machine.old }
    requires at { IsAt program.now machine.old (insn.Lookup others keys.now targets.now) }
    ensures { Steps program.now M.choose machine.old machine.new
        (lookup_effect keys.now (length targets.now) (seen program.now machine.old)) }
{
    let Some(key) = machine.int_operand(0) else {
        machine.stuck(program);
        return;
    };
    let item = key_item(others, keys, targets, key);
    machine.jump(1, item as usize);
}
