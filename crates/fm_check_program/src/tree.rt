// The classes of a linked program are a tree below Object (JVMS 5.3.5).

ghost use Rattle.fm_check_program.specs.Linked.{AreLinkedTree};

/// Where nothing is refused, the classes of class files are a tree below Object: no chain of superclasses
/// leads into a cycle, no superclass is an interface, and the superclass of an interface is Object.
pub fn law_tree()
    ensures { AreLinkedTree }
{}
