// The linked program: every name of a closed program resolved (JVMS 5).
//
// A program is the classes that were given and the built-in ones, in one list. The definitions of this
// crate say what its names stand for, by looking them up in that list, and why a list of class files
// isn't a program. All layers above speak of classes, methods, fields and types by number.
#![tactic(auto)]

mod built_in_methods;
mod built_ins;
mod calls;
mod declarations;
mod found_methods;
mod known_targets;
mod laws;
mod layers;
mod name_key;
mod overriding;
mod parts;
mod program;
mod records;
mod shared;
mod targets;
mod types;
mod uses;

pub use built_in_methods::{BUILDER_ROW, BUILT_IN_METHODS, FREE_ME_ROW, STRING_ROW, THROWABLE_ROW};
pub use built_ins::{
    BUILT_IN_CLASSES, BuiltInClass, BuiltInField, BuiltInMethod, built_in_class, built_in_classes,
};
pub use calls::{Call, CallKind};
pub use declarations::{Constant, DeclaredClass, DeclaredField, DeclaredMethod};
pub use known_targets::{KnownTargets, TargetList};
pub use laws::{
    law_acyclic, law_built_in, law_cast_examples, law_class_types, law_example,
    law_lookup_examples, law_one_answer, law_refused_examples,
};
pub use layers::Layers;
pub use name_key::NameKey;
pub use overriding::package_of;
pub use parts::Parts;
pub use program::{Program, is_listed};
pub use records::{Body, ClassInfo, FieldInfo, MethodInfo};
pub use shared::Shared;
pub use targets::class_of_type;
pub use types::{base_of_elem, type_of_class};
pub use uses::Use;
