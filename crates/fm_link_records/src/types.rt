// The types of a program by number, in the order in which they are met.

ghost use Rattle.std.specs.Prelude.{◌≡◌, ◌<◌, ◌^◌, IfOk, OnOk, length, map};
ghost use Rattle.std.specs.List.{flat_map, range_with_len};
ghost use Rattle.fm_world.specs.Numbers.{arrays_in, type_number, type_of_class};
ghost use Rattle.fm_link_records.specs.inner.TypeNumbers.{types_by, with_type, with_types};

use fm_base::{Base, ClassId, NoMemory, TypeRef};
use fm_link_names::number_of;
use fm_world::NameKey;
use indexmap::IndexSet;
use std::alloc::Global;

/// Types by number, and numbers by type. The number of a type is its index in the set.
#[derive(Drop)]
pub struct Types {
    pub types: IndexSet<TypeRef, NameKey>,
}

impl Types {
    /// The types of a given number of classes, those that are named, and the arrays that are made,
    /// with the element types of all of them. They are hashed under a digest of all these. `NoMemory`
    /// where memory runs out, or where there are more types than numbers of 32 bits.
    pub fn of(
        alloc: Global,
        classes: usize,
        named: &[TypeRef],
        made: &[TypeRef],
    ) -> Result<Types, NoMemory>
        ensures types { IfOk result
            (λ found. found.types.keys ≡ types_by classes named.now made.now) }
        ensures few { IfOk result (λ found. length found.types.keys < 2 ^ 32) }
    {
        let key = NameKey::of_types(classes, named, made);
        let mut types = Types {
            types: IndexSet::with_hasher(alloc, key),
        };
        types.add_classes(classes)?;
        types.add_all(named)?;
        types.add_all_arrays(named)?;
        types.add_all_arrays(made)?;
        number_of(types.types.len())?;
        Ok(types)
    }

    /// The number of a type.
    pub fn number(&self, named: TypeRef) -> Option<u32>
        requires { length self.now.types.keys < 2 ^ 32 }
        ensures { result ≡ type_number self.now.types.keys named }
    {
        match self.types.get_index_of(&named) {
            Some(index) => Some(index as u32),
            None => None,
        }
    }

    // Gives a type a number, unless it has one.
    fn add(&mut self, named: TypeRef) -> Result<(), NoMemory>
        ensures { OnOk result (self.new.types.keys ≡ with_type self.old.types.keys named) }
    {
        self.types.insert(named)?;
        Ok(())
    }

    // Gives the types of a given number of classes a number each.
    fn add_classes(&mut self, count: usize) -> Result<(), NoMemory>
        ensures { OnOk result (self.new.types.keys
            ≡ with_types self.old.types.keys (map type_of_class (range_with_len 0 count))) }
    {
        for class in 0..count {
            let base = Base::OfClass(ClassId(number_of(class)?));
            self.add(TypeRef { dims: 0, base })?;
        }
        Ok(())
    }

    // Gives all these types a number each.
    fn add_all(&mut self, named: &[TypeRef]) -> Result<(), NoMemory>
        ensures { OnOk result (self.new.types.keys ≡ with_types self.old.types.keys named.now) }
    {
        for one in named {
            self.add(*one)?;
        }
        Ok(())
    }

    // Gives all these arrays, and those of their element types that are arrays, a number each.
    fn add_all_arrays(&mut self, named: &[TypeRef]) -> Result<(), NoMemory>
        ensures { OnOk result (self.new.types.keys
            ≡ with_types self.old.types.keys (flat_map arrays_in named.now)) }
    {
        for one in named {
            self.add_arrays(*one)?;
        }
        Ok(())
    }

    // Gives an array and those of its element types that are arrays a number each.
    fn add_arrays(&mut self, named: TypeRef) -> Result<(), NoMemory>
        ensures { OnOk result
            (self.new.types.keys ≡ with_types self.old.types.keys (arrays_in named)) }
    {
        for fewer in 0..named.dims {
            let dims = named.dims - fewer;
            let base = named.base;
            self.add(TypeRef { dims, base })?;
        }
        Ok(())
    }
}
