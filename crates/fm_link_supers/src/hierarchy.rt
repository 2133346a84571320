// The superclasses and superinterfaces of all classes (JVMS 5.3.5).

ghost use Rattle.std.specs.Prelude.{◌≡◌, ◌<◌, IfOk, List, length};
ghost use Rattle.fm_link_supers.specs.inner.Hierarchy.{completing_in, is_superclass_in, AreAncestors, AreSound, IsHierarchy};
ghost use Rattle.fm_link_supers.specs.inner.ListTables.{list_in};
ghost use Rattle.fm_link_supers.specs.inner.NamedParents.{NamesClasses};
ghost use Rattle.fm_world.specs.Chains.{class_at, is_among, superclasses_of};
ghost use Rattle.fm_world.specs.Lookups.{is_interface_at};
ghost use Rattle.fm_world.specs.declared.declarations.DeclaredClass.{DeclaredClass};

use crate::chain_tables::{chains_of, parents_first};
use crate::interfaces::{Superinterfaces, joined_along, with_classes};
use crate::lists::list_at;
use crate::parent_tables::{listed_interfaces, parents_of};
use fm_base::NoMemory;
use fm_code::{ACC_INTERFACE, has_flag};
use fm_link_names::{ClassNumbers, GivenFile, at};
use fm_world::DeclaredClass;
use std::alloc::Global;

/// The superclass and the superinterfaces of each class, which may lead into a cycle.
#[derive(Drop)]
pub struct Ancestors<'a> {
    pub classes: &'a [DeclaredClass],
    pub parents: Vec<Option<u32>>,
    pub listed: Vec<Vec<u32>>,
    /// the superinterfaces of each class by its own list, where they don't lead into a cycle
    pub above: Vec<Vec<u32>>,
    pub leads_into_cycle: Vec<bool>,
    pub object: Option<u32>,
}

impl<'a> Ancestors<'a> {
    /// Those of the built-in classes and of the files' classes after them.
    pub fn of(
        alloc: Global,
        numbers: &ClassNumbers,
        by_text: &[Option<u32>],
        classes: &'a [DeclaredClass],
        files: &[GivenFile],
    ) -> Result<Ancestors<'a>, NoMemory>
        ensures { IfOk result (λ ancestors.
            NamesClasses classes.entry.now numbers.now by_text.now files.now
            → AreAncestors classes.entry.now ancestors) }
    {
        let parents = parents_of(alloc, numbers, by_text, files)?;
        let listed = listed_interfaces(alloc, numbers, by_text, files)?;
        let found = Superinterfaces::of(alloc, listed.as_slice())?;
        Ok(Ancestors {
            classes,
            parents,
            listed,
            above: found.above,
            leads_into_cycle: found.leads_into_cycle,
            object: numbers.number(b"java/lang/Object"),
        })
    }
}

/// The superclasses and superinterfaces of all classes.
#[derive(Drop)]
pub struct Hierarchy<'a> {
    pub classes: &'a [DeclaredClass],
    pub parents: Vec<Option<u32>>,
    pub listed: Vec<Vec<u32>>,
    pub chains: Vec<Vec<u32>>,
    pub order: Vec<u32>,
    /// the superinterfaces of each class by its own list, and those of its superclasses after them
    pub above: Vec<Vec<u32>>,
    pub interfaces: Vec<Vec<u32>>,
    /// where a field of each class is looked for: in it, in its superinterfaces, and in its superclasses in
    /// the same way
    pub paths: Vec<Vec<u32>>,
    pub object: Option<u32>,
}

impl<'a> Hierarchy<'a> {
    /// That of classes none of which leads into a cycle.
    pub fn of(alloc: Global, ancestors: Ancestors<'a>) -> Result<Hierarchy<'a>, NoMemory>
        ensures { IfOk result (λ hierarchy. (classes : List DeclaredClass)
            → AreAncestors classes ancestors.entry → AreSound classes
            → IsHierarchy classes hierarchy) }
    {
        let chains = chains_of(alloc, ancestors.parents.as_slice())?;
        let order = parents_first(alloc, chains.as_slice())?;
        let parents = ancestors.parents.as_slice();
        let above = ancestors.above.as_slice();
        let interfaces = joined_along(alloc, parents, order.as_slice(), above)?;
        let fronted = with_classes(alloc, above)?;
        let paths = joined_along(alloc, parents, order.as_slice(), fronted.as_slice())?;
        Ok(Hierarchy {
            classes: ancestors.classes,
            parents: ancestors.parents,
            listed: ancestors.listed,
            chains,
            order,
            above: ancestors.above,
            interfaces,
            paths,
            object: ancestors.object,
        })
    }
}

impl Hierarchy<'_> {
    /// A class and its superclasses upwards.
    pub fn chain(&self, class: u32) -> &[u32]
        ensures { result.now ≡ list_in self.now.chains.items class }
    {
        list_at(self.chains.as_slice(), class)
    }

    /// The class that completes a class: its superclass, where that has its name.
    pub fn completing(&self, class: u32) -> Option<u32>
        ensures { result ≡ completing_in self.now class }
    {
        let above = at(self.parents.as_slice(), class)?;
        if class_name(self.classes, above) == class_name(self.classes, class) {
            Some(above)
        } else {
            None
        }
    }

    /// Whether the second class is a superclass of the first, at once: it is in the chain of the
    /// first one as far from the end as its own chain is long.
    pub fn is_superclass(&self, class: u32, other: u32) -> bool
        ensures tables { result ≡ is_superclass_in self.now class other }
        ensures is { (classes : List DeclaredClass) → IsHierarchy classes self.now
            → class < length classes → result ≡ is_among other (superclasses_of classes class) }
    {
        let lower = self.chain(class);
        let upper = self.chain(other);
        if lower.len() <= upper.len() {
            return false;
        }
        match lower.get(lower.len() - upper.len()) {
            Some(above) => *above == other,
            None => false,
        }
    }
}

/// The name of the class of that number; past the last one it is empty.
pub fn class_name(classes: &[DeclaredClass], class: u32) -> &[u8]
    ensures { result.now ≡ (class_at classes.now class).name }
{
    match classes.get(class as usize) {
        Some(class) => class.name.as_slice(),
        None => &[],
    }
}

/// Whether the class of that number is an interface.
pub fn is_interface_at(classes: &[DeclaredClass], class: u32) -> bool
    ensures { result ≡ is_interface_at classes.now class }
{
    match classes.get(class as usize) {
        Some(class) => has_flag(class.flags, ACC_INTERFACE),
        None => false,
    }
}
