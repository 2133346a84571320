// Which method is selected, and which methods override one: one for its own package is overridden by
// methods of other packages only below a class that opens it.

ghost use Rattle.std.specs.Prelude.{◌≡◌, ◌<◌, IfSome, length, nat_eq};
ghost use Rattle.std.specs.List.{list_any};
ghost use Rattle.std.specs.Option.{option_map};
ghost use Rattle.fm_base.specs.declared.ids.MethodId.{MethodId};
ghost use Rattle.fm_world.specs.Chains.{chain_of, class_at, first_found, is_among};
ghost use Rattle.fm_world.specs.Lookups.{can_override, is_interface_at, is_restricted, opens, overriding, own_selectable, package_of, same_package, select};
ghost use Rattle.fm_world.specs.Members.{method_at, methods_of};

use crate::program::{Program, is_listed};
use fm_base::characters::SLASH;
use fm_base::{ClassId, MethodId};
use fm_code::{ACC_INTERFACE, ACC_PRIVATE, has_flag, is_package_private};

impl Program {
    /// The method that is called on an object of the class where this one is named: itself where it is
    /// private, and none where the class has none. Takes no memory. It looks into one table; where the
    /// method that it finds there doesn't override this one, it goes over the superclasses.
    pub fn select(&self, c: ClassId, m: MethodId) -> Option<MethodId>
        requires class { c.0 < length self.now.outline.classes }
        requires method { m.0 < length (methods_of self.now.outline.classes) }
        ensures { option_map (λ (n : MethodId). n.0) result
            ≡ select self.now.outline.classes c.0 m.0 }
    {
        if has_flag(self.method(m).flags, ACC_PRIVATE) {
            return Some(m);
        }
        match self.nearest(c, m) {
            Some(nearest) => {
                if self.can_override(m, self.owner_of(nearest)) {
                    Some(nearest)
                } else {
                    self.first_overriding(c, m)
                }
            }
            None => None,
        }
    }

    // The class that declares the method.
    fn owner_of(&self, m: MethodId) -> ClassId
        requires { m.0 < length (methods_of self.now.outline.classes) }
        ensures value { result.0 ≡ (method_at self.now.outline.classes m.0).class }
        ensures inside { result.0 < length self.now.outline.classes }
    {
        self.method(m).class
    }

    // The first method by which the class or one of its superclasses overrides this one.
    fn first_overriding(&self, c: ClassId, m: MethodId) -> Option<MethodId>
        requires class { c.0 < length self.now.outline.classes }
        requires method { m.0 < length (methods_of self.now.outline.classes) }
        ensures { option_map (λ (n : MethodId). n.0) result
            ≡ first_found (overriding self.now.outline.classes
            (method_at self.now.outline.classes m.0)) (chain_of self.now.outline.classes c.0) }
    {
        let chain = self.display(c);
        let mut depth = chain.len();
        while depth > 0 {
            depth -= 1;
            if let Some(found) = self.overriding(chain[depth], m) {
                return Some(found);
            }
        }
        None
    }

    // The class's own method by which it overrides this one.
    fn overriding(&self, class: u32, m: MethodId) -> Option<MethodId>
        requires { m.0 < length (methods_of self.now.outline.classes) }
        ensures { option_map (λ (n : MethodId). n.0) result
            ≡ overriding self.now.outline.classes (method_at self.now.outline.classes m.0) class }
    {
        if class >= self.classes() {
            return None;
        }
        if self.can_override(m, ClassId(class)) {
            self.own_selectable(ClassId(class), m)
        } else {
            None
        }
    }

    // The class's own method of the same name and descriptor that can override.
    fn own_selectable(&self, c: ClassId, m: MethodId) -> Option<MethodId>
        requires class { c.0 < length self.now.outline.classes }
        requires method { m.0 < length (methods_of self.now.outline.classes) }
        ensures value { option_map (λ (n : MethodId). n.0) result
            ≡ own_selectable self.now.outline.classes (method_at self.now.outline.classes m.0)
            c.0 }
        ensures inside { IfSome result (λ n. n.0 < length (methods_of self.now.outline.classes)) }
    {
        match self.nearest(c, m) {
            Some(nearest) => {
                if self.declares(c, nearest) {
                    Some(nearest)
                } else {
                    None
                }
            }
            None => None,
        }
    }

    // Whether the class declares the method.
    fn declares(&self, c: ClassId, m: MethodId) -> bool
        requires { m.0 < length (methods_of self.now.outline.classes) }
        ensures { result ≡ nat_eq (method_at self.now.outline.classes m.0).class c.0 }
    {
        self.owner_of(m).0 == c.0
    }

    // Whether a method of the class overrides the method, where it has its name and descriptor.
    fn can_override(&self, m: MethodId, c: ClassId) -> bool
        requires method { m.0 < length (methods_of self.now.outline.classes) }
        requires class { c.0 < length self.now.outline.classes }
        ensures { result ≡ can_override self.now.outline.classes
            (method_at self.now.outline.classes m.0) c.0 }
    {
        if !self.is_restricted(m) {
            return true;
        }
        if !self.is_below(c, m) {
            return false;
        }
        if self.is_in_package(c, m) {
            return true;
        }
        self.is_opened(m, c)
    }

    // Whether the method is overridden in its own package first.
    fn is_restricted(&self, m: MethodId) -> bool
        requires { m.0 < length (methods_of self.now.outline.classes) }
        ensures { result ≡ is_restricted self.now.outline.classes
            (method_at self.now.outline.classes m.0) }
    {
        if !is_package_private(self.method(m).flags) {
            return false;
        }
        !self.is_interface(self.owner_of(m))
    }

    // Whether the class is an interface.
    fn is_interface(&self, c: ClassId) -> bool
        requires { c.0 < length self.now.outline.classes }
        ensures { result ≡ is_interface_at self.now.outline.classes c.0 }
    {
        has_flag(self.class(c).flags, ACC_INTERFACE)
    }

    // Whether the class is that of the method or below it.
    fn is_below(&self, c: ClassId, m: MethodId) -> bool
        requires class { c.0 < length self.now.outline.classes }
        requires method { m.0 < length (methods_of self.now.outline.classes) }
        ensures { result ≡ is_among (method_at self.now.outline.classes m.0).class
            (chain_of self.now.outline.classes c.0) }
    {
        self.is_in_chain(c, self.owner_of(m))
    }

    // Whether the class is of the package of the method's class.
    fn is_in_package(&self, c: ClassId, m: MethodId) -> bool
        requires class { c.0 < length self.now.outline.classes }
        requires method { m.0 < length (methods_of self.now.outline.classes) }
        ensures { result ≡ same_package self.now.outline.classes c.0
            (method_at self.now.outline.classes m.0).class }
    {
        self.package_name(c) == self.package_name(self.owner_of(m))
    }

    // The name of the class up to its last slash.
    fn package_name(&self, c: ClassId) -> &[u8]
        requires { c.0 < length self.now.outline.classes }
        ensures { result.now ≡ package_of (class_at self.now.outline.classes c.0).name }
    {
        let info = self.class(c);
        &info.name.as_slice()[..info.package_bytes]
    }

    // Whether the class or one of its superclasses opens the method for other packages.
    fn is_opened(&self, m: MethodId, c: ClassId) -> bool
        requires method { m.0 < length (methods_of self.now.outline.classes) }
        requires class { c.0 < length self.now.outline.classes }
        ensures { result ≡ list_any (opens self.now.outline.classes
            (method_at self.now.outline.classes m.0)) (chain_of self.now.outline.classes c.0) }
    {
        self.is_opened_in(m, self.display(c))
    }

    // Whether one of these classes opens the method for other packages.
    fn is_opened_in(&self, m: MethodId, classes: &[u32]) -> bool
        requires { m.0 < length (methods_of self.now.outline.classes) }
        ensures { result ≡ list_any (opens self.now.outline.classes
            (method_at self.now.outline.classes m.0)) classes.now }
    {
        for class in classes {
            if self.opens(m, *class) {
                return true;
            }
        }
        false
    }

    // Whether the class opens the method for other packages.
    fn opens(&self, m: MethodId, class: u32) -> bool
        requires { m.0 < length (methods_of self.now.outline.classes) }
        ensures { result ≡ opens self.now.outline.classes
            (method_at self.now.outline.classes m.0) class }
    {
        if class >= self.classes() {
            return false;
        }
        if !self.is_below(ClassId(class), m) {
            return false;
        }
        if !self.is_in_package(ClassId(class), m) {
            return false;
        }
        match self.own_selectable(ClassId(class), m) {
            Some(own) => !self.is_restricted(own),
            None => false,
        }
    }
}

/// What the name of a class has up to its last slash: the name of its package. Takes no memory.
pub fn package_of(name: &[u8]) -> &[u8]
    ensures { result.now ≡ package_of name.now }
{
    let mut rest = name;
    while let Some((last, before)) = rest.split_last() {
        if is_slash(*last) {
            return rest;
        }
        rest = before;
    }
    rest
}

// Whether the byte is a slash.
fn is_slash(byte: u8) -> bool
    ensures { result ≡ nat_eq SLASH byte }
{
    byte == SLASH
}
