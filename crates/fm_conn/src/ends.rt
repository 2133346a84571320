// The ends of a method, at which its objects come in and go out.

/// An end of a method: a parameter by its local, the result, or what static fields and thrown objects
/// lead to.
#[derive(Clone, Copy, Debug, PartialEq, Eq)]
pub enum End2 {
    Parameter(u16),
    Return,
    Global,
}
