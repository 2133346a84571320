// What names are resolved to, and which method is called (JVMS 5.4.3, 5.4.5, 6.5).

ghost use Rattle.std.specs.Prelude.{◌≡◌, ◌<◌, ℕ, IfOk, List, Some, drop, length, slice_get, slice_set, true, if◌then◌else◌};
ghost use Rattle.fm_code.specs.AccessFlags.{is_static};
ghost use Rattle.fm_code.specs.ConstantPool.{MemberName};
ghost use Rattle.fm_link_supers.specs.inner.Hierarchy.{IsHierarchy};
ghost use Rattle.fm_link_members.specs.inner.MemberRows.{AreFieldRows, AreMethodRows};
ghost use Rattle.fm_link_members.specs.inner.MemberTables.{flags_of, own_in, AreDistinct, AreFields, AreMethods, AreSignatures, MarksInterfaces};
ghost use Rattle.fm_link_members.specs.inner.FoundMembers.{above_in, constructor_in, field_found_in, field_in, first_along, interface_method_in, is_constructor_in, is_marked, method_above_in, method_found_in, method_in, own_static_in, searches_in, selected_by, selected_in, special_in, static_among_in};
ghost use Rattle.fm_link_members.specs.inner.NearestSteps.{is_signed};
ghost use Rattle.fm_world.specs.Chains.{chain_of, first_found};
ghost use Rattle.fm_world.specs.Descriptors.{class_number};
ghost use Rattle.fm_world.specs.Lookups.{class_searched, constructor_name, resolved_field, resolved_method, select, special_target};
ghost use Rattle.fm_world.specs.Members.{method_among, methods_of};
ghost use Rattle.fm_world.specs.declared.declarations.DeclaredClass.{DeclaredClass};

use crate::asked::Asked;
use crate::members::{MemberFilter, Members, Nearest, Signatures, row_at};
use crate::overriding::{first_overriding, is_restricted};
use crate::search_starts::{Along, SearchStarts};
use fm_base::NoMemory;
use fm_code::{ACC_PRIVATE, ACC_STATIC, has_flag};
use fm_link_names::at;
use fm_link_supers::{Hierarchy, is_interface_at, list_at};
use fm_world::DeclaredClass;
use std::alloc::Global;

/// The fields by name and descriptor.
#[derive(Drop)]
pub struct Fields {
    pub members: Members,
    pub signatures: Signatures,
    nearest: Nearest,
    // for each signature whether some interface declares a field of it
    in_interfaces: Vec<bool>,
    starts: SearchStarts,
}

impl Fields {
    /// The fields of all classes. Those that are asked for are found at once.
    pub fn of(
        alloc: Global,
        hierarchy: &Hierarchy,
        members: Members,
        asked: &[Asked],
    ) -> Result<Fields, NoMemory>
        ensures { IfOk result (λ fields. (texts : List (List ℕ)) (classes : List DeclaredClass)
            → AreDistinct texts → IsHierarchy classes hierarchy.now
            → AreFieldRows texts classes members → AreFields texts classes fields) }
    {
        let signatures = Signatures::of(alloc, members.rows.as_slice())?;
        let nearest = Nearest::of(alloc, &members, &signatures, hierarchy, MemberFilter::All)?;
        let in_interfaces = of_interfaces(alloc, hierarchy.classes, &members, &signatures)?;
        let marks = in_interfaces.as_slice();
        let starts = SearchStarts::of(
            alloc,
            hierarchy,
            Along::Paths,
            &members,
            &signatures,
            marks,
            asked,
        )?;
        Ok(Fields {
            members,
            signatures,
            nearest,
            in_interfaces,
            starts,
        })
    }

    /// The field that a name and a descriptor are resolved to from a class on.
    pub fn resolved(
        &self,
        hierarchy: &Hierarchy,
        class: Option<u32>,
        name: u32,
        descriptor: u32,
    ) -> Option<u32>
        ensures { (texts : List (List ℕ)) (classes : List DeclaredClass) (member : MemberName)
            → AreFields texts classes self.now → IsHierarchy classes hierarchy.now
            → class ≡ class_number classes member.class → slice_get texts name ≡ Some member.name
            → slice_get texts descriptor ≡ Some member.descriptor
            → result ≡ resolved_field classes member }
    {
        self.found(hierarchy, class, name, descriptor)
    }

    // The same, by the tables.
    fn found(
        &self,
        hierarchy: &Hierarchy,
        class: Option<u32>,
        name: u32,
        descriptor: u32,
    ) -> Option<u32>
        ensures { result ≡ field_found_in self.now hierarchy.now class name descriptor }
    {
        let class = class?;
        let signature = self.signatures.number(name, descriptor)?;
        self.field(hierarchy, class, signature)
    }

    // The field of a signature from a class on.
    fn field(&self, hierarchy: &Hierarchy, class: u32, signature: u32) -> Option<u32>
        ensures { result ≡ field_in self.now hierarchy.now class signature }
    {
        if self.is_in_interfaces(signature) {
            let path = list_at(hierarchy.paths.as_slice(), class);
            first_along(
                &self.nearest,
                &self.members,
                &self.starts,
                class,
                path,
                signature,
            )
        } else {
            self.nearest.get(class, signature)
        }
    }

    // Whether some interface declares a field of the signature.
    fn is_in_interfaces(&self, signature: u32) -> bool
        ensures { result ≡ is_marked self.now.in_interfaces.items signature }
    {
        match self.in_interfaces.get(signature as usize) {
            Some(is_marked) => *is_marked,
            None => false,
        }
    }
}

// The first member of the signature that one of these classes declares, from the noted place on.
fn first_along(
    nearest: &Nearest,
    members: &Members,
    starts: &SearchStarts,
    class: u32,
    classes: &[u32],
    signature: u32,
) -> Option<u32>
    ensures { result ≡ first_along nearest.now members.now.rows.items starts.now class classes.now
        signature }
{
    let rest = rest_of(classes, starts.get(class, signature));
    first_own(nearest, members, rest, signature)
}

// The numbers from a place on.
fn rest_of(numbers: &[u32], start: u32) -> &[u32]
    ensures { result.now ≡ drop start numbers.entry.now }
{
    let start = start as usize;
    if start >= numbers.len() {
        return &[];
    }
    let rest = &numbers[start..];
    rest
}

// The first member of the signature that one of these classes declares.
fn first_own(nearest: &Nearest, members: &Members, classes: &[u32], signature: u32) -> Option<u32>
    ensures { result ≡ first_found (own_in nearest.now members.now.rows.items signature)
        classes.now }
{
    for class in classes {
        if let Some(member) = nearest.own(members, *class, signature) {
            return Some(member);
        }
    }
    None
}

// For each signature whether some interface declares a member of it.
fn of_interfaces(
    alloc: Global,
    classes: &[DeclaredClass],
    members: &Members,
    signatures: &Signatures,
) -> Result<Vec<bool>, NoMemory>
    requires { AreSignatures members.now.rows.items signatures.now }
    ensures { IfOk result (λ marks. MarksInterfaces classes.now members.now.rows.items
        signatures.now.of_members.items marks.items) }
{
    let mut marks = vec![in alloc; false; signatures.count as usize]?;
    for member in 0..signatures.count {
        let is_interface = is_interface_at(classes, row_at(members.rows.as_slice(), member).class);
        mark_if(is_interface, &mut marks, signatures.of_member(member));
    }
    Ok(marks)
}

// Sets the mark at a place where the test holds.
fn mark_if(test: bool, marks: &mut Vec<bool>, place: u32)
    ensures { marks.new.items
        ≡ (if test then slice_set marks.old.items place true else marks.old.items) }
{
    let place = place as usize;
    if test && place < marks.len() {
        marks[place] = true;
    }
}

/// The methods by name and descriptor.
#[derive(Drop)]
pub struct Methods {
    pub members: Members,
    pub signatures: Signatures,
    nearest: Nearest,
    of_objects: Nearest,
    pub selectable: Nearest,
    starts: SearchStarts,
    // the text <init>
    constructor: u32,
}

impl Methods {
    /// The methods of all classes. Those that are asked for are found at once.
    pub fn of(
        alloc: Global,
        hierarchy: &Hierarchy,
        members: Members,
        constructor: u32,
        asked: &[Asked],
    ) -> Result<Methods, NoMemory>
        ensures { IfOk result (λ methods. (texts : List (List ℕ)) (classes : List DeclaredClass)
            → AreDistinct texts → IsHierarchy classes hierarchy.now
            → AreMethodRows texts classes members
            → slice_get texts constructor ≡ Some constructor_name
            → AreMethods texts classes methods) }
    {
        let signatures = Signatures::of(alloc, members.rows.as_slice())?;
        let nearest = Nearest::of(alloc, &members, &signatures, hierarchy, MemberFilter::All)?;
        let of_objects = Nearest::of(
            alloc,
            &members,
            &signatures,
            hierarchy,
            MemberFilter::OfObjects,
        )?;
        let selectable = Nearest::of(
            alloc,
            &members,
            &signatures,
            hierarchy,
            MemberFilter::Selectable,
        )?;
        let in_interfaces = of_interfaces(alloc, hierarchy.classes, &members, &signatures)?;
        let marks = in_interfaces.as_slice();
        let starts = SearchStarts::of(
            alloc,
            hierarchy,
            Along::Interfaces,
            &members,
            &signatures,
            marks,
            asked,
        )?;
        Ok(Methods {
            members,
            signatures,
            nearest,
            of_objects,
            selectable,
            starts,
            constructor,
        })
    }

    /// The method that a name and a descriptor are resolved to. `named` is the class that is named, and
    /// `searched` the same, or Object for an array.
    pub fn resolved(
        &self,
        hierarchy: &Hierarchy,
        named: Option<u32>,
        searched: Option<u32>,
        name: u32,
        descriptor: u32,
    ) -> Option<u32>
        ensures { (texts : List (List ℕ)) (classes : List DeclaredClass) (member : MemberName)
            → AreMethods texts classes self.now → IsHierarchy classes hierarchy.now
            → named ≡ class_number classes member.class
            → searched ≡ class_searched classes member.class
            → slice_get texts name ≡ Some member.name
            → slice_get texts descriptor ≡ Some member.descriptor
            → result ≡ resolved_method classes member }
    {
        self.found(hierarchy, named, searched, name, descriptor)
    }

    // The same, by the tables.
    fn found(
        &self,
        hierarchy: &Hierarchy,
        named: Option<u32>,
        searched: Option<u32>,
        name: u32,
        descriptor: u32,
    ) -> Option<u32>
        ensures { result
            ≡ method_found_in self.now hierarchy.now named searched name descriptor }
    {
        let signature = self.signatures.number(name, descriptor)?;
        if name == self.constructor {
            self.own_constructor(hierarchy, named?, signature)
        } else {
            self.method(hierarchy, searched?, signature)
        }
    }

    // The constructor of a signature of a class, or of the class that completes it.
    fn own_constructor(&self, hierarchy: &Hierarchy, class: u32, signature: u32) -> Option<u32>
        ensures { result ≡ constructor_in self.now hierarchy.now signature class }
    {
        match self.nearest.own(&self.members, class, signature) {
            Some(method) => Some(method),
            None => {
                let completing = hierarchy.completing(class)?;
                self.nearest.own(&self.members, completing, signature)
            }
        }
    }

    // The method of a signature from a class or an interface on.
    fn method(&self, hierarchy: &Hierarchy, class: u32, signature: u32) -> Option<u32>
        ensures { result ≡ method_in self.now hierarchy.now class signature }
    {
        let found = if is_interface_at(hierarchy.classes, class) {
            self.nearest.own(&self.members, class, signature)
        } else {
            self.nearest.get(class, signature)
        };
        match found {
            Some(method) => Some(method),
            None => self.method_above(hierarchy, class, signature),
        }
    }

    // The method of a class's superinterfaces; of those of an interface, or of Object.
    fn method_above(&self, hierarchy: &Hierarchy, class: u32, signature: u32) -> Option<u32>
        ensures { result ≡ method_above_in self.now hierarchy.now class signature }
    {
        if !is_interface_at(hierarchy.classes, class) {
            let interfaces = list_at(hierarchy.interfaces.as_slice(), class);
            return self.interface_method(class, interfaces, signature);
        }
        let interfaces = list_at(hierarchy.above.as_slice(), class);
        match self.interface_method(class, interfaces, signature) {
            Some(method) => Some(method),
            None => self
                .nearest
                .own(&self.members, hierarchy.object?, signature),
        }
    }

    // The first method of the signature in the list of a class's superinterfaces.
    fn interface_method(&self, class: u32, interfaces: &[u32], signature: u32) -> Option<u32>
        ensures { result ≡ interface_method_in self.now class interfaces.now signature }
    {
        first_along(
            &self.nearest,
            &self.members,
            &self.starts,
            class,
            interfaces,
            signature,
        )
    }

    /// The flags of a method.
    pub fn flags(&self, method: u32) -> u16
        ensures { result ≡ flags_of self.now.members.rows.items method }
    {
        match self.members.rows.get(method as usize) {
            Some(row) => row.flags,
            None => 0,
        }
    }

    /// The method that is called on an object of the class where this one is named.
    pub fn select(&self, hierarchy: &Hierarchy, class: u32, method: u32) -> Option<u32>
        ensures { (texts : List (List ℕ)) (classes : List DeclaredClass)
            → AreMethods texts classes self.now → IsHierarchy classes hierarchy.now
            → class < length classes → method < length (methods_of classes)
            → result ≡ select classes class method }
    {
        self.selected(hierarchy, class, method)
    }

    /// The nearest static method of a name and a descriptor in a class and its superclasses.
    pub fn nearest_static(
        &self,
        hierarchy: &Hierarchy,
        class: u32,
        name: u32,
        descriptor: u32,
    ) -> Option<u32>
        ensures { (texts : List (List ℕ)) (classes : List DeclaredClass) (n d : List ℕ)
            → AreMethods texts classes self.now → IsHierarchy classes hierarchy.now
            → class < length classes → slice_get texts name ≡ Some n
            → slice_get texts descriptor ≡ Some d
            → result ≡ method_among classes is_static n d (chain_of classes class) }
    {
        self.static_among(hierarchy.chain(class), name, descriptor)
    }

    // The first static method of a name and a descriptor that one of these classes declares.
    fn static_among(&self, classes: &[u32], name: u32, descriptor: u32) -> Option<u32>
        ensures { result ≡ static_among_in self.now classes.now name descriptor }
    {
        let signature = self.signatures.number(name, descriptor)?;
        self.first_static(classes, signature)
    }

    // The first static method of a signature that one of these classes declares.
    fn first_static(&self, classes: &[u32], signature: u32) -> Option<u32>
        ensures { result ≡ first_found (own_static_in self.now signature) classes.now }
    {
        for class in classes {
            if let Some(method) = self.own_static(*class, signature) {
                return Some(method);
            }
        }
        None
    }

    // The first static method of a signature that the class declares.
    fn own_static(&self, class: u32, signature: u32) -> Option<u32>
        ensures { result ≡ own_static_in self.now signature class }
    {
        let (start, end) = self.members.of_class(class);
        for method in start..end {
            if self.is_static_of(method, signature) {
                return Some(method);
            }
        }
        None
    }

    // Whether the method is static and has the signature.
    fn is_static_of(&self, method: u32, signature: u32) -> bool
        ensures { result ≡ is_signed self.now.members.rows.items
            self.now.signatures.of_members.items is_static signature method }
    {
        self.signatures.of_member(method) == signature && has_flag(self.flags(method), ACC_STATIC)
    }

    // The method that is called on an object of the class, by the tables.
    fn selected(&self, hierarchy: &Hierarchy, class: u32, method: u32) -> Option<u32>
        ensures { result ≡ selected_in self.now hierarchy.now class method }
    {
        if has_flag(self.flags(method), ACC_PRIVATE) {
            return Some(method);
        }
        let signature = self.signatures.of_members.get(method as usize)?;
        self.selected_by(hierarchy, class, method, *signature)
    }

    // The same, where the method has the signature and isn't private.
    fn selected_by(
        &self,
        hierarchy: &Hierarchy,
        class: u32,
        method: u32,
        signature: u32,
    ) -> Option<u32>
        ensures { result ≡ selected_by self.now hierarchy.now class method signature }
    {
        if is_restricted(self, hierarchy, method) {
            first_overriding(self, hierarchy, hierarchy.chain(class), method, signature)
        } else {
            self.selectable.get(class, signature)
        }
    }

    /// The method that a special call calls. `named` is the class that is named, none for an array.
    pub fn special_target(
        &self,
        hierarchy: &Hierarchy,
        caller: u32,
        named: Option<u32>,
        method: u32,
    ) -> u32
        ensures { (texts : List (List ℕ)) (classes : List DeclaredClass)
            → AreMethods texts classes self.now → IsHierarchy classes hierarchy.now
            → caller < length classes → method < length (methods_of classes)
            → result ≡ special_target classes caller named method }
    {
        self.special(hierarchy, caller, named, method)
    }

    // The same, by the tables.
    fn special(&self, hierarchy: &Hierarchy, caller: u32, named: Option<u32>, method: u32) -> u32
        ensures { result ≡ special_in self.now hierarchy.now caller named method }
    {
        if !self.searches_above(hierarchy, caller, named, method) {
            return method;
        }
        match self.method_of_objects_above(hierarchy, caller, method) {
            Some(target) => target,
            None => method,
        }
    }

    // The nearest method of objects in the superclasses of a class.
    fn method_of_objects_above(
        &self,
        hierarchy: &Hierarchy,
        caller: u32,
        method: u32,
    ) -> Option<u32>
        ensures { result ≡ above_in self.now hierarchy.now caller method }
    {
        let parent = at(&hierarchy.parents, caller)?;
        let signature = self.signatures.of_members.get(method as usize)?;
        self.of_objects.get(parent, *signature)
    }

    // Whether a special call searches from the caller's superclass.
    fn searches_above(
        &self,
        hierarchy: &Hierarchy,
        caller: u32,
        named: Option<u32>,
        method: u32,
    ) -> bool
        ensures { result ≡ searches_in self.now hierarchy.now caller named method }
    {
        match named {
            Some(named) => !self.is_constructor(method) && hierarchy.is_superclass(caller, named),
            None => false,
        }
    }

    // Whether the method is a constructor.
    fn is_constructor(&self, method: u32) -> bool
        ensures { result ≡ is_constructor_in self.now method }
    {
        match self.members.rows.get(method as usize) {
            Some(row) => row.name == self.constructor,
            None => false,
        }
    }
}
