// What a call of a linked program can lead to.

ghost use Rattle.std.specs.Prelude.{◌≡◌, ◌<◌, [], ◌∷◌, option_to_list, IfOk, length, map, Some, true, unwrap_or};
ghost use Rattle.std.specs.Option.{option_map};
ghost use Rattle.std.specs.Str.{bytes_eq};
ghost use Rattle.fm_world.specs.Chains.{first_found, superclasses_of};
ghost use Rattle.fm_world.specs.Lookups.{constructor_name, own_instance, searches_above, special_target};
ghost use Rattle.fm_base.specs.declared.ids.ClassId.{ClassId};
ghost use Rattle.fm_base.specs.declared.ids.MethodId.{MethodId};
ghost use Rattle.fm_world.specs.Members.{method_at, methods_of};
ghost use Rattle.fm_world.specs.Programs.{class_of_type, takes_arrays, takes_class, targets, IsTypeIn};
ghost use Rattle.fm_world.specs.inner.KnownTargets.{selected_methods};
ghost use Rattle.fm_world.specs.inner.Marks.{selected_of, selected_of_arrays};

use crate::calls::{Call, CallKind};
use crate::found_methods::{mark, marked_methods};
use crate::program::{Program, is_listed};
use fm_base::{Base, ClassId, MethodId, NoMemory, TypeRef};
use fm_code::{ACC_ABSTRACT, ACC_INTERFACE, has_flag};
use std::alloc::Global;

impl Program {
    /// The method that a special call calls, where its pool entry names the type and is resolved to the
    /// method: that one, unless the search begins above the caller. Takes no memory.
    pub fn special_target(&self, caller: ClassId, named: TypeRef, m: MethodId) -> MethodId
        requires caller { caller.0 < length self.now.outline.classes }
        requires method { m.0 < length (methods_of self.now.outline.classes) }
        ensures { result.0 ≡ special_target self.now.outline.classes caller.0
            (class_of_type named) m.0 }
    {
        match class_of_type(named) {
            Some(class) => {
                if self.searches_above(caller, class, m) {
                    self.nearest_above(caller, m)
                } else {
                    m
                }
            }
            None => m,
        }
    }

    /// The methods that a call can lead to, rising and each once: of a static or special call the one
    /// that is called, and else what is selected for each class whose objects can be the receiver, and
    /// for arrays where one can be it.
    pub fn targets(&self, alloc: Global, call: Call) -> Result<Vec<MethodId>, NoMemory>
        requires caller { call.caller.0 < length self.now.outline.classes }
        requires method { call.method.0 < length (methods_of self.now.outline.classes) }
        requires named { IsTypeIn self.now.outline.classes call.named }
        ensures { IfOk result (λ found. map (λ (m : MethodId). m.0) found.items
            ≡ targets self.now call) }
    {
        match call.kind {
            CallKind::Static => one_target(alloc, call.method),
            CallKind::Special => {
                one_target(
                    alloc,
                    self.special_target(call.caller, call.named, call.method),
                )
            }
            CallKind::Virtual | CallKind::Interface => {
                self.selected_targets(alloc, call.named, call.method)
            }
        }
    }

    // The methods that are selected over all receivers of the type.
    fn selected_targets(
        &self,
        alloc: Global,
        named: TypeRef,
        m: MethodId,
    ) -> Result<Vec<MethodId>, NoMemory>
        requires method { m.0 < length (methods_of self.now.outline.classes) }
        requires named { IsTypeIn self.now.outline.classes named }
        ensures { IfOk result (λ found. map (λ (m : MethodId). m.0) found.items
            ≡ selected_methods self.now named m.0) }
    {
        match self.known_targets(named, m) {
            Some(known) => Ok(Vec::from_slice(alloc, known)?),
            None => self.found_targets(alloc, named, m),
        }
    }

    // The same by asking each class.
    pub(crate) fn found_targets(
        &self,
        alloc: Global,
        named: TypeRef,
        m: MethodId,
    ) -> Result<Vec<MethodId>, NoMemory>
        requires method { m.0 < length (methods_of self.now.outline.classes) }
        requires named { IsTypeIn self.now.outline.classes named }
        ensures { IfOk result (λ found. map (λ (m : MethodId). m.0) found.items
            ≡ selected_methods self.now named m.0) }
    {
        let mut marks = vec![in alloc; false; self.methods() as usize]?;
        for class in 0..self.classes() {
            mark(&mut marks, self.selected_of(named, ClassId(class), m));
        }
        mark(&mut marks, self.selected_of_arrays(named, m));
        marked_methods(alloc, marks.as_slice())
    }

    // The method that is selected for the class, where an object of it can be the receiver.
    fn selected_of(&self, named: TypeRef, c: ClassId, m: MethodId) -> Option<MethodId>
        requires method { m.0 < length (methods_of self.now.outline.classes) }
        requires named { IsTypeIn self.now.outline.classes named }
        requires class { c.0 < length self.now.outline.classes }
        ensures { option_map (λ (n : MethodId). n.0) result
            ≡ selected_of self.now named m.0 c.0 }
    {
        if self.takes_class(named, c) {
            self.select(c, m)
        } else {
            None
        }
    }

    // The method that is selected for arrays, where one can be the receiver.
    fn selected_of_arrays(&self, named: TypeRef, m: MethodId) -> Option<MethodId>
        requires method { m.0 < length (methods_of self.now.outline.classes) }
        requires named { IsTypeIn self.now.outline.classes named }
        ensures { option_to_list (option_map (λ (n : MethodId). n.0) result)
            ≡ selected_of_arrays self.now named m.0 }
    {
        if self.takes_arrays(named) {
            self.select(self.object(), m)
        } else {
            None
        }
    }

    // Whether an object of the class can be the receiver of a call that names the type.
    fn takes_class(&self, named: TypeRef, c: ClassId) -> bool
        requires named { IsTypeIn self.now.outline.classes named }
        requires class { c.0 < length self.now.outline.classes }
        ensures { result ≡ takes_class self.now named c.0 }
    {
        let flags = self.class(c).flags;
        if has_flag(flags, ACC_ABSTRACT) {
            return false;
        }
        if has_flag(flags, ACC_INTERFACE) {
            return false;
        }
        if !self.is_made(c) {
            return false;
        }
        let class = TypeRef {
            dims: 0,
            base: Base::OfClass(c),
        };
        self.is_sub(class, named)
    }

    // Whether an array can be the receiver of a call that names the type.
    fn takes_arrays(&self, named: TypeRef) -> bool
        requires { IsTypeIn self.now.outline.classes named }
        ensures { result ≡ takes_arrays self.now.outline.classes named }
    {
        match class_of_type(named) {
            Some(class) => self.is_above_arrays(class),
            None => true,
        }
    }

    // Whether a special call that names the class and is resolved to the method searches from the
    // caller's superclass.
    fn searches_above(&self, caller: ClassId, named: ClassId, m: MethodId) -> bool
        requires caller { caller.0 < length self.now.outline.classes }
        requires method { m.0 < length (methods_of self.now.outline.classes) }
        ensures { result ≡ searches_above self.now.outline.classes caller.0 (Some named.0)
            (method_at self.now.outline.classes m.0).method.name }
    {
        if self.is_constructor(m) {
            return false;
        }
        is_listed(named.0, self.superclasses(caller))
    }

    // Whether the method is a constructor.
    fn is_constructor(&self, m: MethodId) -> bool
        requires { m.0 < length (methods_of self.now.outline.classes) }
        ensures { result
            ≡ bytes_eq (method_at self.now.outline.classes m.0).method.name constructor_name }
    {
        self.method(m).name.as_slice() == b"<init>".as_slice()
    }

    // The nearest method of the same name and descriptor that isn't static, from the superclass of the
    // caller upwards; the method itself where there is none.
    fn nearest_above(&self, caller: ClassId, m: MethodId) -> MethodId
        requires caller { caller.0 < length self.now.outline.classes }
        requires method { m.0 < length (methods_of self.now.outline.classes) }
        ensures { result.0 ≡ unwrap_or (first_found (own_instance self.now.outline.classes m.0)
            (superclasses_of self.now.outline.classes caller.0)) m.0 }
    {
        let above = self.superclasses(caller);
        let mut depth = above.len();
        while depth > 0 {
            depth -= 1;
            if let Some(found) = self.own_instance(above[depth], m) {
                return found;
            }
        }
        m
    }
}

/// The class that a type is; none for an array. Takes no memory.
pub fn class_of_type(t: TypeRef) -> Option<ClassId>
    ensures { option_map (λ (c : ClassId). c.0) result ≡ class_of_type t }
{
    if t.dims > 0 {
        return None;
    }
    match t.base {
        Base::OfClass(class) => Some(class),
        _ => None,
    }
}

// The only target.
fn one_target(alloc: Global, m: MethodId) -> Result<Vec<MethodId>, NoMemory>
    ensures { IfOk result (λ found. map (λ (n : MethodId). n.0) found.items ≡ m.0 ∷ []) }
{
    let mut found = Vec::new(alloc);
    found.push(m)?;
    Ok(found)
}
