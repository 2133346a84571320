// Calls of methods, and the start of classes in the midst of a run (JVMS 5.5, 6.5.invokevirtual and its
// like).
//
// What a call is to a method that has code is a call of the machine, and a built-in method is one of
// `fm_native`; here the method is found first.
#![tactic(auto)]

mod acts;
mod calls;
mod first_uses;
mod selections;
mod starts;
mod words;

pub use calls::{
    enter, interface_call, row_of, special_call, static_call, virtual_call, words_with_receiver,
};
pub use first_uses::{get_static, new_object, put_static};
pub use selections::{interface_target, selected, special_method, special_target, virtual_target};
