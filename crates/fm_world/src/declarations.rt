// What a class declares, built in or given: all of it but its code (JVMS 4.1, 4.5, 4.6).

use crate::shared::Shared;
use fm_base::Seq;

/// A class by the names that it names.
#[derive(Debug, PartialEq, Eq, Drop)]
pub struct DeclaredClass {
    pub name: Shared<u8>,
    /// None for `java/lang/Object`, and for a class file whose super_class is 0.
    pub superclass: Option<Shared<u8>>,
    pub interfaces: Seq<Shared<u8>>,
    pub flags: u16,
    /// Whether its objects have a field that no name leads to.
    pub hidden: bool,
    pub fields: Seq<DeclaredField>,
    pub methods: Seq<DeclaredMethod>,
    /// The number of its file among those given; none for a built-in class.
    pub file: Option<u32>,
}

/// A field of a class.
#[derive(Debug, PartialEq, Eq, Drop)]
pub struct DeclaredField {
    pub name: Shared<u8>,
    pub descriptor: Shared<u8>,
    pub flags: u16,
    /// What a static field holds once its class is started, where it has a ConstantValue.
    pub value: Option<Constant>,
}

/// A method of a class.
#[derive(Debug, PartialEq, Eq, Drop)]
pub struct DeclaredMethod {
    pub name: Shared<u8>,
    pub descriptor: Shared<u8>,
    pub flags: u16,
    /// The number of its row, if it is built in.
    pub row: Option<u16>,
}

/// The value of a ConstantValue attribute (JVMS 4.7.2).
#[derive(Debug, PartialEq, Eq, Drop)]
pub enum Constant {
    Int(i32),
    Long(i64),
    /// A text by the bytes that spell it.
    Text(Shared<u8>),
}
