// What a linked program records about a class, a method and a field.

use crate::shared::Shared;
use crate::uses::Use;
use fm_base::{ClassId, Kind, MethodId, Seq};
use fm_code::Code;

/// A class, built in or given.
#[derive(Debug, Drop)]
pub struct ClassInfo {
    pub name: Shared<u8>,
    /// Its superclass; none for `java/lang/Object` alone.
    pub parent: Option<ClassId>,
    /// The interfaces that it lists, in its order.
    pub interfaces: Seq<ClassId>,
    pub flags: u16,
    /// The static `<clinit>` that starts it.
    pub start: Option<MethodId>,
    /// The number of its file among those given; none for a built-in class.
    pub file: Option<u32>,
    /// The instance fields of its objects, inherited and hidden ones included.
    pub size: u32,
    /// How many bytes of its name are the name of its package.
    pub package_bytes: usize,
}

/// A method with its class.
#[derive(Debug, Drop)]
pub struct MethodInfo {
    pub class: ClassId,
    pub name: Shared<u8>,
    pub descriptor: Shared<u8>,
    /// The kinds of its parameters, without the receiver.
    pub params: Shared<Kind>,
    pub result: Option<Kind>,
    pub flags: u16,
    pub body: Body,
}

/// What a call of a method does.
#[derive(Debug, Drop)]
pub enum Body {
    Coded(Code),
    /// A built-in method, by the number of its row.
    Native(u16),
    /// It is never called itself.
    Abstract,
}

/// A field with its class.
#[derive(Debug, Drop)]
pub struct FieldInfo {
    pub class: ClassId,
    pub name: Shared<u8>,
    pub kind: Kind,
    pub is_static: bool,
    /// Its place in its object, or of a static field its place among all static fields.
    pub slot: u32,
    /// What a static field holds once its class is started, where it has a ConstantValue.
    pub first: Use,
}
