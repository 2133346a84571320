// Texts of a class file by index; where there is none, the empty text.

ghost use Rattle.std.specs.Prelude.{◌≡◌};
ghost use Rattle.fm_world.specs.Causes.{own_name};
ghost use Rattle.fm_world.specs.Declarations.{name_at, text_at};

use fm_code::{ClassDef, Pool};

/// The text at an index.
pub fn text_at(pool: &Pool, index: u16) -> &[u8]
    ensures { result.now ≡ text_at pool.now.entries index }
{
    match pool.utf8(index) {
        Some(text) => text.as_slice(),
        None => &[],
    }
}

/// The name of the class at an index.
pub fn name_at(pool: &Pool, index: u16) -> &[u8]
    ensures { result.now ≡ name_at pool.now.entries index }
{
    match pool.class_name(index) {
        Some(name) => name.as_slice(),
        None => &[],
    }
}

/// The name of the class itself.
pub fn own_name(class: &ClassDef) -> &[u8]
    ensures { result.now ≡ own_name class.now }
{
    name_at(&class.pool, class.this_class)
}
