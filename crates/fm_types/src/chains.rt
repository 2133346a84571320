// Chains of superclasses, asked of any numbers of classes.

ghost use Rattle.std.specs.Prelude.{◌≡◌};
ghost use Rattle.fm_world.specs.Chains.{chain_of, is_among};

use fm_base::ClassId;
use fm_world::Program;

/// Whether the second class is the first one or one of its superclasses. A number that no class has is
/// alone in its chain.
pub fn is_in_chain(program: &Program, c: ClassId, d: ClassId) -> bool
    ensures { result ≡ is_among d.0 (chain_of program.now.outline.classes c.0) }
{
    let classes = program.classes();
    if c.0 < classes && d.0 < classes {
        program.is_in_chain(c, d)
    } else {
        d.0 == c.0
    }
}
