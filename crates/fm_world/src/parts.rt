// The parts that a linked program is made of.

use crate::declarations::DeclaredClass;
use crate::known_targets::KnownTargets;
use crate::layers::Layers;
use crate::name_key::NameKey;
use crate::records::{ClassInfo, FieldInfo, MethodInfo};
use crate::uses::Use;
use fm_base::{ClassId, MethodId, Row, Seq, TypeRef, Units};
use indexmap::IndexSet;
use std::collections::HashMap;

/// A program with its tables, as the linker makes it. A list goes by the numbers of classes, methods,
/// fields, types or texts.
#[derive(Drop)]
pub struct Parts {
    pub declared: Seq<DeclaredClass>,
    pub classes: Seq<ClassInfo>,
    pub methods: Seq<MethodInfo>,
    pub fields: Seq<FieldInfo>,
    /// The number of a type is its index in the set.
    pub types: IndexSet<TypeRef, NameKey>,
    pub texts: Seq<Units>,
    /// For each class what the indices of its pool are resolved to.
    pub uses: Seq<Seq<Use>>,
    pub main: MethodId,
    pub main_class: ClassId,
    /// The class `java/lang/Object`.
    pub object: ClassId,
    /// The number of static fields.
    pub statics: u32,
    /// In a narrowed program the classes of which objects are made.
    pub made: Option<Row>,
    /// For each class its superclasses from the uppermost one down, and the class itself.
    pub displays: Seq<Seq<u32>>,
    /// For each class all its superinterfaces.
    pub interfaces: Seq<Seq<u32>>,
    /// For each method the number that it shares with those of its name and descriptor.
    pub signatures: Seq<u32>,
    /// The tables of the methods that are selected, by signature, and for each class its table.
    pub selected: Layers,
    pub tops: Seq<u32>,
    /// For each class by signature its own method that isn't static.
    pub own: Seq<HashMap<u32, u32>>,
    /// The targets of virtual calls, where they were found before they are asked for.
    pub known: Option<KnownTargets>,
}
