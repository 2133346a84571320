// What is accepted of class files: the versions, and why a class isn't accepted beside its spelling.

/// The oldest major version that is accepted, with `OLDEST_MINOR` alone (JVMS 4.1).
pub const OLDEST_MAJOR: u16 = 45;

/// The one minor version that is accepted with `OLDEST_MAJOR`.
pub const OLDEST_MINOR: u16 = 3;

/// The newest major version that is accepted. From `OLDEST_MAJOR` on, without it, the minor version
/// is 0.
pub const NEWEST_MAJOR: u16 = 52;

/// A count of a method that has a limit.
#[derive(Clone, Copy, Debug, PartialEq, Eq)]
pub enum What {
    /// max_stack.
    Stack,
    /// max_locals.
    Locals,
    /// The number of entries of the exception table.
    Handlers,
}

/// A count of a method that is above its limit.
#[derive(Clone, Copy, Debug, PartialEq, Eq)]
pub struct OverLimit {
    pub what: What,
    /// The number of the method in its class.
    pub method: u16,
    pub count: u32,
}

/// Where a class has what isn't supported.
#[derive(Clone, Copy, Debug, PartialEq, Eq)]
pub enum Place {
    /// In the class's own name.
    OfClass,
    /// In the field of that number.
    OfField(u16),
    /// In the method of that number.
    OfMethod(u16),
    /// In the constant pool.
    OfPool,
}

/// A place of a class that has what isn't supported.
#[derive(Clone, Copy, Debug, PartialEq, Eq)]
pub struct Unsupported {
    pub place: Place,
    /// The offset of the instruction in the method's code, or the index in the constant pool; else 0.
    pub offset: u32,
}
