// A method with what is known of it, and what its instructions name.

ghost use Rattle.std.specs.Prelude.{◌≡◌, ◌<◌, length};
ghost use Rattle.std.specs.Option.{option_map};
ghost use Rattle.fm_conn.specs.Pairs.{call_of, call_with, use_at};
ghost use Rattle.fm_conn.specs.inner.PairLists.{method_in};
ghost use Rattle.fm_types.specs.Named.{class_of_method};
ghost use Rattle.fm_world.specs.Members.{methods_of};

use fm_base::{ClassId, MethodId};
use fm_code::{Code, Insn};
use fm_types::Typing;
use fm_world::{Call, CallKind, Program, Use};

/// A method of a program, its code, and a state for each of its items.
#[derive(Clone, Copy)]
pub struct AnalysedMethod<'a> {
    pub program: &'a Program,
    pub number: MethodId,
    pub code: &'a Code,
    pub typing: &'a Typing,
}

impl AnalysedMethod<'_> {
    // The class that declares it.
    #[tactic(auto, unfolding(fm_world::specs::Programs::method_info))]
    fn class(&self) -> ClassId
        requires { self.now.number.0 < length (methods_of self.now.program.now.outline.classes) }
        ensures { result.0 ≡ class_of_method self.now.program.now.outline self.now.number.0 }
    {
        self.program.method(self.number).class
    }

    /// What the index that an instruction names refers to.
    pub fn use_at(&self, insn: &Insn) -> Use
        requires { self.now.number.0 < length (methods_of self.now.program.now.outline.classes) }
        ensures { result ≡ use_at (method_in self.now) insn.now }
    {
        match insn.pool_index() {
            Some(index) => self.program.use_of(self.class(), index),
            None => Use::Unused,
        }
    }

    /// The call that an instruction makes, if it is one.
    pub fn call_of(&self, insn: &Insn) -> Option<Call>
        requires number { self.now.number.0
            < length (methods_of self.now.program.now.outline.classes) }
        ensures { result ≡ call_of (method_in self.now) insn.now }
    {
        let resolved = self.use_at(insn);
        match insn {
            Insn::Virtual(_) => self.call_with(CallKind::Virtual, resolved),
            Insn::Interface(_) => self.call_with(CallKind::Interface, resolved),
            Insn::Special(_) => self.call_with(CallKind::Special, resolved),
            Insn::Static(_) => self.call_with(CallKind::Static, resolved),
            _ => None,
        }
    }

    // The call of that kind of what is named.
    fn call_with(&self, kind: CallKind, resolved: Use) -> Option<Call>
        requires { self.now.number.0 < length (methods_of self.now.program.now.outline.classes) }
        ensures { result ≡ call_with (method_in self.now) kind resolved }
    {
        let Use::OfMethod(method, t) = resolved else {
            return None;
        };
        if t.0 >= self.program.types() {
            return None;
        }
        Some(Call {
            kind,
            named: self.program.type_of(t),
            method,
            caller: self.class(),
        })
    }
}
