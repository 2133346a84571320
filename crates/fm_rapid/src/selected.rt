// Lists of what calls select, and of what starts a class.

ghost use Rattle.std.specs.Prelude.{◌≡◌, ◌<◌, ◌++◌, ℕ, Contains, IfOk, OnOk, length, option_to_list};
ghost use Rattle.std.specs.List.{filter_map};
ghost use Rattle.std.specs.Option.{option_map};
ghost use Rattle.fm_base.specs.declared.ids.MethodId.{MethodId};
ghost use Rattle.fm_rapid.specs.Reach.{starts_of};
ghost use Rattle.fm_rapid.specs.inner.Walks.{is_concrete};
ghost use Rattle.fm_world.specs.Lookups.{select};
ghost use Rattle.fm_world.specs.Members.{methods_of, start_of};

use fm_base::{ClassId, MethodId, NoMemory};
use fm_code::{ACC_ABSTRACT, ACC_INTERFACE, has_flag};
use fm_world::Program;
use std::alloc::Global;

/// What a call of the method selects for objects of each of these classes.
pub fn selected_for(
    alloc: Global,
    program: &Program,
    classes: &[u32],
    method: MethodId,
) -> Result<Vec<u32>, NoMemory>
    requires method { method.0 < length (methods_of program.now.outline.classes) }
    requires classes { (k : ℕ) → Contains classes.now k
        → k < length program.now.outline.classes }
    ensures { IfOk result (λ found. found.items
        ≡ filter_map (λ class. select program.now.outline.classes class method.0) classes.now) }
{
    let mut found = Vec::new(alloc);
    for class in classes {
        push_some(&mut found, program.select(ClassId(*class), method))?;
    }
    Ok(found)
}

/// What calls of each of these methods select for objects of the class.
pub fn selected_by(
    alloc: Global,
    program: &Program,
    class: ClassId,
    methods: &[u32],
) -> Result<Vec<u32>, NoMemory>
    requires class { class.0 < length program.now.outline.classes }
    requires methods { (k : ℕ) → Contains methods.now k
        → k < length (methods_of program.now.outline.classes) }
    ensures { IfOk result (λ found. found.items
        ≡ filter_map (select program.now.outline.classes class.0) methods.now) }
{
    let mut found = Vec::new(alloc);
    for method in methods {
        push_some(&mut found, program.select(class, MethodId(*method)))?;
    }
    Ok(found)
}

// Puts a method behind the last one, where there is one.
fn push_some(found: &mut Vec<u32>, method: Option<MethodId>) -> Result<(), NoMemory>
    ensures { OnOk result (found.new.items
        ≡ found.old.items ++ option_to_list (option_map (λ (m : MethodId). m.0) method)) }
{
    if let Some(method) = method {
        found.push(method.0)?;
    }
    Ok(())
}

/// Whether objects are made of the class: it is neither abstract nor an interface. Takes no memory.
#[tactic(auto, unfolding(fm_world::specs::Programs::class_info))]
pub fn is_concrete(program: &Program, class: ClassId) -> bool
    requires { class.0 < length program.now.outline.classes }
    ensures { result ≡ is_concrete program.now.outline.classes class.0 }
{
    let flags = program.class(class).flags;
    !has_flag(flags, ACC_ABSTRACT) && !has_flag(flags, ACC_INTERFACE)
}

/// The methods that start a class and its superclasses, the uppermost first; of a built-in class none.
pub fn starts_of(alloc: Global, program: &Program, class: ClassId) -> Result<Vec<u32>, NoMemory>
    requires { class.0 < length program.now.outline.classes }
    ensures { IfOk result (λ found. found.items ≡ starts_of program.now.outline class.0) }
{
    match program.class(class).file {
        Some(_) => starts_along(alloc, program, program.display(class)),
        None => Ok(Vec::new(alloc)),
    }
}

// The methods that start each of these classes.
fn starts_along(alloc: Global, program: &Program, chain: &[u32]) -> Result<Vec<u32>, NoMemory>
    requires { (k : ℕ) → Contains chain.now k → k < length program.now.outline.classes }
    ensures { IfOk result (λ found. found.items
        ≡ filter_map (start_of program.now.outline.classes) chain.now) }
{
    let mut found = Vec::new(alloc);
    for class in chain {
        push_some(&mut found, program.class(ClassId(*class)).start)?;
    }
    Ok(found)
}
