// Which methods override one: one for its own package is overridden by methods of other packages only
// below a class that opens it (JVMS 5.4.5).

ghost use Rattle.std.specs.Prelude.{◌≡◌};
ghost use Rattle.std.specs.List.{list_any};
ghost use Rattle.fm_link_members.specs.inner.Overriding.{can_override_in, is_below_in, is_restricted_in, opens_in, overriding_in, owner_in};
ghost use Rattle.fm_world.specs.Chains.{first_found};
ghost use Rattle.fm_world.specs.Lookups.{same_package};

use crate::lookups::Methods;
use crate::members::row_at;
use fm_code::is_package_private;
use fm_link_supers::{Hierarchy, class_name, is_interface_at};
use fm_world::{DeclaredClass, is_listed, package_of};

/// The first method of the signature by which one of these classes overrides the method.
pub(crate) fn first_overriding(
    methods: &Methods,
    hierarchy: &Hierarchy,
    classes: &[u32],
    method: u32,
    signature: u32,
) -> Option<u32>
    ensures { result ≡ first_found (overriding_in methods.now hierarchy.now method signature)
        classes.now }
{
    for class in classes {
        if let Some(found) = overriding(methods, hierarchy, method, signature, *class) {
            return Some(found);
        }
    }
    None
}

// The class's own method of the signature by which it overrides the method.
fn overriding(
    methods: &Methods,
    hierarchy: &Hierarchy,
    method: u32,
    signature: u32,
    class: u32,
) -> Option<u32>
    ensures { result ≡ overriding_in methods.now hierarchy.now method signature class }
{
    if can_override(methods, hierarchy, method, signature, class) {
        methods.selectable.own(&methods.members, class, signature)
    } else {
        None
    }
}

// Whether the class's method of the signature overrides the method.
fn can_override(
    methods: &Methods,
    hierarchy: &Hierarchy,
    method: u32,
    signature: u32,
    class: u32,
) -> bool
    ensures { result ≡ can_override_in methods.now hierarchy.now method signature class }
{
    if !is_restricted(methods, hierarchy, method) {
        return true;
    }
    if !is_below(methods, hierarchy, method, class) {
        return false;
    }
    if is_in_package(hierarchy.classes, class, owner_of(methods, method)) {
        return true;
    }
    is_opened(
        methods,
        hierarchy,
        method,
        signature,
        hierarchy.chain(class),
    )
}

/// Whether the method is overridden in its own package first.
pub(crate) fn is_restricted(methods: &Methods, hierarchy: &Hierarchy, method: u32) -> bool
    ensures { result ≡ is_restricted_in methods.now hierarchy.now method }
{
    is_package_private(methods.flags(method))
        && !is_interface_at(hierarchy.classes, owner_of(methods, method))
}

// The class of a method.
fn owner_of(methods: &Methods, method: u32) -> u32
    ensures { result ≡ owner_in methods.now method }
{
    row_at(methods.members.rows.as_slice(), method).class
}

// Whether the class is that of the method or below it.
fn is_below(methods: &Methods, hierarchy: &Hierarchy, method: u32, class: u32) -> bool
    ensures { result ≡ is_below_in methods.now hierarchy.now method class }
{
    is_listed(owner_of(methods, method), hierarchy.chain(class))
}

// Whether two classes are of one package.
fn is_in_package(classes: &[DeclaredClass], class: u32, other: u32) -> bool
    ensures { result ≡ same_package classes.now class other }
{
    package_of(class_name(classes, class)) == package_of(class_name(classes, other))
}

// Whether one of these classes opens the method for all packages.
fn is_opened(
    methods: &Methods,
    hierarchy: &Hierarchy,
    method: u32,
    signature: u32,
    classes: &[u32],
) -> bool
    ensures { result ≡ list_any (opens_in methods.now hierarchy.now method signature)
        classes.now }
{
    for class in classes {
        if opens(methods, hierarchy, method, signature, *class) {
            return true;
        }
    }
    false
}

// Whether the class opens the method for all packages.
fn opens(methods: &Methods, hierarchy: &Hierarchy, method: u32, signature: u32, class: u32) -> bool
    ensures { result ≡ opens_in methods.now hierarchy.now method signature class }
{
    if !is_below(methods, hierarchy, method, class) {
        return false;
    }
    if !is_in_package(hierarchy.classes, class, owner_of(methods, method)) {
        return false;
    }
    match methods.selectable.own(&methods.members, class, signature) {
        Some(own) => !is_restricted(methods, hierarchy, own),
        None => false,
    }
}
