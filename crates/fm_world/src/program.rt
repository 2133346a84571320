// The linked program, and what is asked of it.

ghost use Rattle.std.specs.Prelude.{◌≡◌, ◌<◌, ◌∷◌, OnOk, IfOk, length, map, reverse, Some, slice_get, true, IfSome};
ghost use Rattle.std.specs.List.{list_any};
ghost use Rattle.std.specs.Option.{option_map};
ghost use Rattle.std.specs.Str.{bytes_eq};
ghost use Rattle.fm_world.specs.Chains.{array_supers, chain_of, first_found, interfaces_of, is_above_arrays, is_among, is_base_above_arrays, is_sub, is_sub_base, is_subclass, self_of, superclasses_of};
ghost use Rattle.fm_world.specs.Lookups.{object_number, own_instance, own_selectable};
ghost use Rattle.fm_world.specs.Numbers.{type_number};
ghost use Rattle.fm_base.specs.declared.ids.TypeId.{TypeId};
ghost use Rattle.fm_base.specs.declared.ids.ClassId.{ClassId};
ghost use Rattle.fm_base.specs.declared.ids.MethodId.{MethodId};
ghost use Rattle.fm_world.specs.Members.{fields_of, method_at, methods_of, slot_of, statics_of};
ghost use Rattle.fm_world.specs.Programs.{class_info, field_info, is_made, method_info, use_of, IsBaseIn, IsTypeIn};
ghost use Rattle.fm_world.specs.inner.KnownTargets.{selected_methods, IsPairIn, KnowsTargets};
ghost use Rattle.fm_world.specs.inner.Tables.{program_in, AreInterfaces, AreTables, IsLinear};

use crate::built_ins::built_in_class;
use crate::known_targets::{KnownTargets, TargetList};
use crate::parts::Parts;
use crate::records::{Body, ClassInfo, FieldInfo, MethodInfo};
use crate::uses::Use;
use fm_base::{Base, ClassId, FieldId, MethodId, NoMemory, Row, TypeId, TypeRef, Units};
use fm_code::{ACC_INTERFACE, Insn, has_flag};
use std::alloc::Global;
use std::marker::Model;

/// A closed program in which each name is resolved. Contracts see its classes as they are declared,
/// its types and texts by number, what its uses are resolved to, and its code.
#[derive(Drop)]
pub struct Program {
    parts: Parts,
}

impl Model for Program {
    ghost use Rattle.fm_world.specs.Programs as spec;

    ghost Value = { spec.Program };

    ghost use Rattle.fm_world.specs.inner.Tables.{program_in, AreTables};

    ghost view = { λ p. program_in p.parts };

    ghost invariant = { λ p. AreTables p.parts };
}

impl Program {
    /// The program of these parts. Takes no memory.
    pub fn new(parts: Parts) -> Program
        requires { AreTables parts }
        ensures { result ≡ program_in parts }
    {
        Program { parts }
    }

    /// The same program, which has found the targets of its virtual calls: then calls that name one type
    /// and one method share them. Of more than a million such pairs, or where their lists have more than
    /// sixteen million methods, only the first ones are kept.
    pub fn with_targets(self, alloc: Global) -> Result<Program, NoMemory>
        ensures { IfOk result (λ same. same ≡ self) }
    {
        let known = self.targets_of_calls(alloc)?;
        let Program { mut parts } = self;
        parts.known = Some(known);
        Ok(Program::new(parts))
    }

    /// The program in which objects are made only of the classes of the row: its virtual calls lead only
    /// to what these classes and arrays select. The targets that were found before are forgotten. Takes
    /// no memory.
    pub fn narrowed(self, made: Row) -> Program
        ensures { result ≡ record self { made = Some made } }
    {
        let Program { mut parts } = self;
        parts.made = Some(made);
        parts.known = None;
        Program::new(parts)
    }

    // The targets of its virtual calls.
    fn targets_of_calls(&self, alloc: Global) -> Result<KnownTargets, NoMemory>
        ensures { IfOk result (KnowsTargets self.now) }
    {
        let mut known = KnownTargets::none(alloc);
        for method in self.parts.methods.as_slice() {
            self.add_calls(alloc, &mut known, method)?;
        }
        Ok(known)
    }

    // Those of one method.
    fn add_calls(
        &self,
        alloc: Global,
        known: &mut KnownTargets,
        method: &MethodInfo,
    ) -> Result<(), NoMemory>
        requires { KnowsTargets self.now known.old }
        ensures { OnOk result (KnowsTargets self.now known.new) }
    {
        if let Body::Coded(code) = &method.body {
            for item in code.items.as_slice() {
                self.add_call(alloc, known, self.called_pair(method.class, &item.insn))?;
            }
        }
        Ok(())
    }

    // Those of calls of a method that name a type, unless they are known.
    fn add_call(
        &self,
        alloc: Global,
        known: &mut KnownTargets,
        pair: Option<(TypeRef, MethodId)>,
    ) -> Result<(), NoMemory>
        requires known { KnowsTargets self.now known.old }
        requires pair { IfSome pair (IsPairIn self.now.outline) }
        ensures { OnOk result (KnowsTargets self.now known.new) }
    {
        let Some((named, method)) = pair else {
            return Ok(());
        };
        if known.is_full() {
            return Ok(());
        }
        if known.has(named, method) {
            return Ok(());
        }
        let targets = self.found_targets(alloc, named, method)?;
        known.push(TargetList {
            named,
            method,
            targets,
        })?;
        Ok(())
    }

    // The type and the method that an instruction names, where it is a virtual call.
    fn called_pair(&self, class: ClassId, insn: &Insn) -> Option<(TypeRef, MethodId)>
        ensures { IfSome result (IsPairIn self.now.outline) }
    {
        let index = match insn {
            Insn::Virtual(index) => *index,
            Insn::Interface(index) => *index,
            _ => return None,
        };
        match self.use_of(class, index) {
            Use::OfMethod(method, named) => self.pair_of(named, method),
            _ => None,
        }
    }

    // The type of a number and a method, where both are there.
    fn pair_of(&self, t: TypeId, method: MethodId) -> Option<(TypeRef, MethodId)>
        ensures { IfSome result (IsPairIn self.now.outline) }
    {
        if method.0 >= self.methods() {
            return None;
        }
        if t.0 >= self.types() {
            return None;
        }
        let named = self.type_of(t);
        if self.has_class(named) {
            Some((named, method))
        } else {
            None
        }
    }

    // Whether the class of the type, if it has one, is there.
    fn has_class(&self, t: TypeRef) -> bool
        ensures { result ≡ true → IsTypeIn self.now.outline.classes t }
    {
        match t.base {
            Base::OfClass(class) => class.0 < self.classes(),
            _ => true,
        }
    }

    /// The number of classes, built-in ones among them. Takes no memory.
    pub fn classes(&self) -> u32
        ensures { result ≡ length self.now.outline.classes }
    {
        self.parts.declared.len() as u32
    }

    /// The number of methods of all classes. Takes no memory.
    pub fn methods(&self) -> u32
        ensures { result ≡ length (methods_of self.now.outline.classes) }
    {
        self.parts.methods.len() as u32
    }

    /// The number of fields of all classes. Takes no memory.
    pub fn fields(&self) -> u32
        ensures { result ≡ length (fields_of self.now.outline.classes) }
    {
        self.parts.fields.len() as u32
    }

    /// The number of static fields of all classes. Takes no memory.
    pub fn statics(&self) -> u32
        ensures { result ≡ statics_of self.now.outline.classes }
    {
        self.parts.statics
    }

    /// The number of types. Takes no memory.
    pub fn types(&self) -> u32
        ensures { result ≡ length self.now.outline.types }
    {
        self.parts.types.len() as u32
    }

    /// The number of texts. Takes no memory.
    pub fn texts(&self) -> u32
        ensures { result ≡ length self.now.outline.texts }
    {
        self.parts.texts.len() as u32
    }

    /// The main method. Takes no memory.
    pub fn main(&self) -> MethodId
        ensures { result.0 ≡ self.now.outline.main }
    {
        self.parts.main
    }

    /// The class that was named as the main class; a superclass of it may declare the main method.
    /// Takes no memory.
    pub fn main_class(&self) -> ClassId
        ensures { result.0 ≡ self.now.outline.main_class }
    {
        self.parts.main_class
    }

    /// The class of this number. Takes no memory.
    pub fn class(&self, c: ClassId) -> &ClassInfo
        requires { c.0 < length self.now.outline.classes }
        ensures { result.now ≡ class_info self.now.outline c.0 }
    {
        &self.parts.classes.as_slice()[c.0 as usize]
    }

    /// The class on whose objects the methods of a class are called: the built-in one that it completes,
    /// and else itself. Takes no memory.
    pub fn self_of(&self, c: ClassId) -> ClassId
        requires { c.0 < length self.now.outline.classes }
        ensures { result.0 ≡ self_of self.now.outline.classes c.0 }
    {
        match built_in_class(self.class(c).name.as_slice()) {
            Some(number) => ClassId(number),
            None => c,
        }
    }

    /// The method of this number. Takes no memory.
    pub fn method(&self, m: MethodId) -> &MethodInfo
        requires { m.0 < length (methods_of self.now.outline.classes) }
        ensures { result.now ≡ method_info self.now m.0 }
    {
        &self.parts.methods.as_slice()[m.0 as usize]
    }

    /// The field of this number. Takes no memory.
    pub fn field(&self, f: FieldId) -> &FieldInfo
        requires { f.0 < length (fields_of self.now.outline.classes) }
        ensures { result.now ≡ field_info self.now.outline f.0 }
    {
        &self.parts.fields.as_slice()[f.0 as usize]
    }

    /// What an index of the class's pool is resolved to; `Unused` where the class doesn't use it. Takes no
    /// memory.
    pub fn use_of(&self, c: ClassId, index: u16) -> Use
        ensures { result ≡ use_of self.now c.0 index }
    {
        let Some(uses) = self.parts.uses.get(c.0 as usize) else {
            return Use::Unused;
        };
        match uses.get(usize::from(index)) {
            Some(resolved) => *resolved,
            None => Use::Unused,
        }
    }

    /// The number of a type; none exactly where it has none. Takes no memory.
    pub fn id_of(&self, t: TypeRef) -> Option<TypeId>
        ensures { option_map (λ (n : TypeId). n.0) result
            ≡ type_number self.now.outline.types t }
    {
        match self.parts.types.get_index_of(&t) {
            Some(index) => Some(TypeId(index as u32)),
            None => None,
        }
    }

    /// The type of this number. Takes no memory.
    pub fn type_of(&self, t: TypeId) -> TypeRef
        requires { t.0 < length self.now.outline.types }
        ensures { slice_get self.now.outline.types t.0 ≡ Some result }
    {
        self.parts.types.as_slice()[t.0 as usize]
    }

    /// The text of this number. Takes no memory.
    pub fn text(&self, n: u32) -> &Units
        requires { n < length self.now.outline.texts }
        ensures { slice_get self.now.outline.texts n ≡ Some result.now }
    {
        &self.parts.texts.as_slice()[n as usize]
    }

    /// The place of an instance field in its object, or of a static field among the static ones. Takes
    /// no memory.
    pub fn slot_of(&self, f: FieldId) -> u32
        requires { f.0 < length (fields_of self.now.outline.classes) }
        ensures { result ≡ slot_of self.now.outline.classes f.0 }
    {
        self.field(f).slot
    }

    /// Whether the first class is the second one or below it: one of its superclasses, or an interface
    /// that it implements. For a class that isn't an interface it returns at once, and else the
    /// interfaces of the first class are gone over. Takes no memory.
    pub fn is_subclass(&self, c: ClassId, d: ClassId) -> bool
        requires first { c.0 < length self.now.outline.classes }
        requires second { d.0 < length self.now.outline.classes }
        ensures { result ≡ is_subclass self.now.outline.classes c.0 d.0 }
    {
        if self.is_in_chain(c, d) {
            return true;
        }
        let interfaces = self.interfaces(c);
        if has_flag(self.class(d).flags, ACC_INTERFACE) {
            is_listed(d.0, interfaces)
        } else {
            false
        }
    }

    /// Whether an object of the first type can be cast to the second. Takes no memory.
    pub fn is_sub(&self, a: TypeRef, b: TypeRef) -> bool
        requires first { IsTypeIn self.now.outline.classes a }
        requires second { IsTypeIn self.now.outline.classes b }
        ensures { result ≡ is_sub self.now.outline.classes a b }
    {
        if a.dims == b.dims {
            self.is_sub_base(a.base, b.base)
        } else if b.dims < a.dims {
            self.is_base_above_arrays(b.base)
        } else {
            false
        }
    }

    // The same of two types of equal dimensions.
    fn is_sub_base(&self, a: Base, b: Base) -> bool
        requires first { IsBaseIn self.now.outline.classes a }
        requires second { IsBaseIn self.now.outline.classes b }
        ensures { result ≡ is_sub_base self.now.outline.classes a b }
    {
        match (a, b) {
            (Base::OfClass(c), Base::OfClass(d)) => self.is_subclass(c, d),
            _ => a == b,
        }
    }

    // Whether arrays of more dimensions are below it.
    fn is_base_above_arrays(&self, b: Base) -> bool
        requires { IsBaseIn self.now.outline.classes b }
        ensures { result ≡ is_base_above_arrays self.now.outline.classes b }
    {
        match b {
            Base::OfClass(d) => self.is_above_arrays(d),
            _ => false,
        }
    }

    // Whether each array is below the class.
    pub(crate) fn is_above_arrays(&self, d: ClassId) -> bool
        requires { d.0 < length self.now.outline.classes }
        ensures { result ≡ is_above_arrays self.now.outline.classes d.0 }
    {
        is_name_above_arrays(self.class(d).name.as_slice())
    }

    // The methods that are selected over all receivers of the type, where they were found before.
    pub(crate) fn known_targets(&self, named: TypeRef, m: MethodId) -> Option<&[MethodId]>
        ensures { IfSome result (λ known. map (λ (m : MethodId). m.0) known.now
            ≡ selected_methods self.now named m.0) }
    {
        match &self.parts.known {
            Some(known) => known.get(named, m),
            None => None,
        }
    }

    /// The class `java/lang/Object`. Takes no memory.
    pub fn object(&self) -> ClassId
        ensures number { object_number self.now.outline.classes ≡ Some result.0 }
        ensures within { result.0 < length self.now.outline.classes }
    {
        self.parts.object
    }

    // Whether objects of the class are made.
    pub(crate) fn is_made(&self, c: ClassId) -> bool
        requires { c.0 < length self.now.outline.classes }
        ensures { result ≡ is_made self.now.made c.0 }
    {
        match &self.parts.made {
            Some(made) => c.0 < made.bits() && made.get(c.0),
            None => true,
        }
    }

    // The number of the nearest method of the same name and descriptor that can override in the class and
    // its superclasses, of whichever packages these are. It looks into one table.
    fn nearest_number(&self, c: ClassId, m: MethodId) -> Option<u32>
        requires class { c.0 < length self.now.outline.classes }
        requires method { m.0 < length (methods_of self.now.outline.classes) }
        ensures { result ≡ first_found (own_selectable self.now.outline.classes
            (method_at self.now.outline.classes m.0)) (chain_of self.now.outline.classes c.0) }
    {
        let signature = self.parts.signatures.as_slice()[m.0 as usize];
        let table = self.parts.tops.as_slice()[c.0 as usize];
        self.parts.selected.get(table, signature)
    }

    // That method.
    pub(crate) fn nearest(&self, c: ClassId, m: MethodId) -> Option<MethodId>
        requires class { c.0 < length self.now.outline.classes }
        requires method { m.0 < length (methods_of self.now.outline.classes) }
        ensures value { option_map (λ (n : MethodId). n.0) result
            ≡ first_found (own_selectable self.now.outline.classes
            (method_at self.now.outline.classes m.0)) (chain_of self.now.outline.classes c.0) }
        ensures inside { IfSome result (λ n. n.0 < length (methods_of self.now.outline.classes)) }
    {
        self.nearest_number(c, m).map(MethodId)
    }

    // The class's own method of the same name and descriptor that isn't static.
    pub(crate) fn own_instance(&self, class: u32, m: MethodId) -> Option<MethodId>
        requires { m.0 < length (methods_of self.now.outline.classes) }
        ensures { option_map (λ (n : MethodId). n.0) result
            ≡ own_instance self.now.outline.classes m.0 class }
    {
        let signature = self.parts.signatures.as_slice()[m.0 as usize];
        let own = self.parts.own.as_slice();
        if class as usize >= own.len() {
            return None;
        }
        let table = &own[class as usize];
        table.get(&signature).copied().map(MethodId)
    }

    // The class's superclasses from the uppermost one down.
    pub(crate) fn superclasses(&self, c: ClassId) -> &[u32]
        requires { c.0 < length self.now.outline.classes }
        ensures { result.now ≡ reverse (superclasses_of self.now.outline.classes c.0) }
    {
        let display = self.display(c);
        &display[..display.len() - 1]
    }

    /// All superinterfaces of the class, by number: each is an interface. Takes no memory.
    pub fn interfaces(&self, c: ClassId) -> &[u32]
        requires { c.0 < length self.now.outline.classes }
        ensures value { result.now ≡ interfaces_of self.now.outline.classes c.0 }
        ensures only { AreInterfaces self.now.outline.classes result.now }
    {
        self.parts.interfaces.as_slice()[c.0 as usize].as_slice()
    }

    /// The numbers of the class's superclasses from the uppermost one down, and of the class itself.
    /// Takes no memory.
    pub fn display(&self, c: ClassId) -> &[u32]
        requires { c.0 < length self.now.outline.classes }
        ensures value { result.now ≡ reverse (chain_of self.now.outline.classes c.0) }
        ensures linear { IsLinear self.now.outline.classes }
    {
        self.parts.displays.as_slice()[c.0 as usize].as_slice()
    }

    /// Whether the second class is the first one or one of its superclasses. Takes no memory, and
    /// returns at once: the second class is in the display of the first one at its own depth.
    pub fn is_in_chain(&self, c: ClassId, d: ClassId) -> bool
        requires first { c.0 < length self.now.outline.classes }
        requires second { d.0 < length self.now.outline.classes }
        ensures { result ≡ is_among d.0 (chain_of self.now.outline.classes c.0) }
    {
        let lower = self.display(c);
        let upper = self.display(d);
        let depth = upper.len() - 1;
        if depth < lower.len() {
            lower[depth] == d.0
        } else {
            false
        }
    }
}

/// Whether the number is among those listed. Takes no memory.
pub fn is_listed(number: u32, listed: &[u32]) -> bool
    ensures { result ≡ is_among number listed.now }
{
    listed.contains(&number)
}

// Whether it is the name of a class that is above each array.
fn is_name_above_arrays(name: &[u8]) -> bool
    ensures { result ≡ list_any (bytes_eq name.now) array_supers }
{
    if name == b"java/lang/Object".as_slice() {
        return true;
    }
    if name == b"java/lang/Cloneable".as_slice() {
        return true;
    }
    name == b"java/io/Serializable".as_slice()
}
