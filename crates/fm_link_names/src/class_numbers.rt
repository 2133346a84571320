// The numbers of classes by name.

ghost use Rattle.std.specs.Prelude.{◌≡◌, IfOk};
ghost use Rattle.fm_link_names.specs.inner.ClassNumbering.{number_in, NumbersClasses};

use crate::places::number_of;
use fm_base::NoMemory;
use fm_world::{DeclaredClass, NameKey};
use indexmap::IndexMap;
use std::alloc::Global;

/// For each name of a class the number of the first class that has it.
#[derive(Drop)]
pub struct ClassNumbers<'a> {
    numbers: IndexMap<&'a [u8], u32, NameKey>,
}

impl<'a> ClassNumbers<'a> {
    /// The numbers of these classes, whose names are hashed by this key. `NoMemory` where memory runs
    /// out.
    pub fn of(
        alloc: Global,
        key: NameKey,
        classes: &'a [DeclaredClass],
    ) -> Result<ClassNumbers<'a>, NoMemory>
        ensures { IfOk result (λ found. NumbersClasses classes.entry.now found.numbers) }
    {
        let mut numbers = IndexMap::with_hasher(alloc, key);
        let mut left = classes.len();
        while left > 0 {
            left -= 1;
            let number = number_of(left)?;
            numbers.insert(classes[left].name.as_slice(), number)?;
        }
        Ok(ClassNumbers { numbers })
    }

    /// The number of the class of that name.
    pub fn number(&self, name: &[u8]) -> Option<u32>
        ensures { result ≡ number_in self.now.numbers name.now }
    {
        match self.numbers.get(name) {
            Some(number) => Some(*number),
            None => None,
        }
    }
}
