// The instructions of a code array.
//
// The bytes of a method's code are cut into instructions, and each target that an instruction names
// by its offset becomes the number of the item that starts there. The layer above uses that a list of
// items is found exactly where the bytes spell one.
#![tactic(auto)]

mod decoding;
mod drafts;
mod error;
mod operands;
mod shapes;
mod switches;
mod targets;

pub use decoding::decode;
pub use error::DecodeFail;
