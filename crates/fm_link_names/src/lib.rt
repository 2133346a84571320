// Class files as lists of declared classes: what their names, texts and descriptors stand for, by
// number.
//
// Texts are numbered, so that no text is compared once for each entry that names it. Every table's
// contract is an equation with a definition of `fm_world`.
#![tactic(auto)]

mod class_numbers;
mod declared;
mod descriptors;
mod first_types;
mod given;
mod names;
mod places;
mod text_classes;
mod texts;
mod used;
mod wanted;

pub use class_numbers::ClassNumbers;
pub use declared::{declared_classes, shared_at, shared_texts};
pub use descriptors::{Kinds, class_type, missing_class, missing_in, types_by_text};
pub use first_types::{NamedBase, NamedType};
pub use given::{GivenFile, MemberTexts, given_files};
pub use names::{name_at, own_name, text_at};
pub use places::{at, index_of, number_of};
pub use text_classes::classes_by_text;
pub use texts::Texts;
pub use used::{items_of, used_indices};
pub use wanted::{Wanted, WantedMembers};
