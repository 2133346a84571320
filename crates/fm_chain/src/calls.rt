// How the methods of FreeMe are called.

/// The entries of a constant pool by which instructions call the methods of FreeMe.
#[derive(Clone, Copy, Debug, PartialEq, Eq)]
pub struct Calls {
    /// FreeMe.free frees an object.
    pub free: u16,
    /// FreeMe.link puts an object before a chain.
    pub link: u16,
    /// FreeMe.freeChain frees all objects of a chain.
    pub free_chain: u16,
}
