// Marking items, as the walks along edges share it.

ghost use Rattle.std.specs.Prelude.{◌≡◌, ℕ, ◌<◌, true, Contains, OnOk, length};
ghost use Rattle.fm_base.specs.Rows.{has};
ghost use Rattle.fm_flow.specs.inner.Walks.{MarksRun};
ghost use Rattle.fm_flow.specs.Marking.{Marks};

use fm_base::{NoMemory, Row};

/// Marks the items of a list, and lets those wait that weren't marked. After `NoMemory` only some are
/// marked.
pub fn mark(list: &[u32], reached: &mut Row, waiting: &mut Vec<u32>) -> Result<(), NoMemory>
    requires { (j : ℕ) → Contains list.now j → j < length reached.old }
    ensures { OnOk result
        (Marks list.now reached.old reached.new waiting.old.items waiting.new.items) }
{
    for j in list {
        if !reached.get(*j) {
            reached.set(*j);
            waiting.push(*j)?;
        }
    }
    Ok(())
}

/// Marks the items that a run has, unless that was done.
pub fn mark_run(
    items: &[u32],
    run: u32,
    seen: &mut Row,
    waiting: &mut Vec<u32>,
    done: &mut Row,
) -> Result<(), NoMemory>
    requires inside { run < length done.old }
    requires below { (x : ℕ) → Contains items.now x → x < length seen.old }
    requires marked { has done.old run ≡ true
        → (x : ℕ) → Contains items.now x → has seen.old x ≡ true }
    ensures { OnOk result (MarksRun items.now run seen.old seen.new waiting.old.items
        waiting.new.items done.old done.new) }
{
    if done.get(run) {
        return Ok(());
    }
    done.set(run);
    mark(items, seen, waiting)?;
    Ok(())
}
