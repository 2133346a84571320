// A call as an instruction makes it (JVMS 6.5.invokevirtual and its like).

use fm_base::{ClassId, MethodId, TypeRef};

/// How the method that is called is found.
#[derive(Clone, Copy, Debug, PartialEq, Eq)]
pub enum CallKind {
    Virtual,
    Interface,
    Special,
    Static,
}

/// A call: its kind, the type that the pool entry names, the method that the entry is resolved to,
/// and the class whose code has the instruction.
#[derive(Clone, Copy, Debug, PartialEq, Eq)]
pub struct Call {
    pub kind: CallKind,
    pub named: TypeRef,
    pub method: MethodId,
    pub caller: ClassId,
}
