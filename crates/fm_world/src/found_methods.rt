// Methods that are marked among all.

ghost use Rattle.std.specs.Prelude.{◌≡◌, ◌<◌, ◌^◌, ◌++◌, if◌then◌else◌, false, [], ◌∷◌, filter, OnOk, IfOk, length, map};
ghost use Rattle.std.specs.List.{range_with_len, slice_index_or};
ghost use Rattle.std.specs.Option.{option_map};
ghost use Rattle.fm_base.specs.declared.ids.MethodId.{MethodId};
ghost use Rattle.fm_world.specs.inner.Marks.{marked};

use fm_base::{MethodId, NoMemory};
use std::alloc::Global;

/// Marks the method, where there is one. Takes no memory.
pub fn mark(marks: &mut Vec<bool>, m: Option<MethodId>)
    ensures { marks.new.items
        ≡ marked marks.old.items (option_map (λ (n : MethodId). n.0) m) }
{
    if let Some(m) = m {
        fm_base::mark(marks, m.0 as usize);
    }
}

/// The marked methods, rising.
pub fn marked_methods(alloc: Global, marks: &[bool]) -> Result<Vec<MethodId>, NoMemory>
    requires { length marks.now < 2 ^ 32 }
    ensures { IfOk result (λ found. map (λ (m : MethodId). m.0) found.items
        ≡ filter (λ method. slice_index_or marks.now method false)
        (range_with_len 0 (length marks.now))) }
{
    let mut found = Vec::new(alloc);
    for method in 0..marks.len() {
        push_if(&mut found, MethodId(method as u32), marks[method])?;
    }
    Ok(found)
}

// Puts the method after the last one, if it is marked.
fn push_if(found: &mut Vec<MethodId>, m: MethodId, is_marked: bool) -> Result<(), NoMemory>
    ensures { OnOk result
        (found.new.items ≡ found.old.items ++ (if is_marked then m ∷ [] else [])) }
{
    if is_marked {
        found.push(m)?;
    }
    Ok(())
}
