// Values with several owners, so that a text which many members have is in memory once.

ghost use Rattle.std.specs.Prelude.{◌≡◌, IfOk, length};
ghost use Rattle.std.specs.Cmp.Lexicographic.{pointwise, lists_per, lists_equiv};
ghost use Rattle.std.specs.Rc.{rc_slice_items};

use fm_base::NoMemory;
use std::alloc::Global;
use std::marker::Model;
use std::rc::RcSlice;

/// Values in order, which are shared by all copies. Contracts see the list of the values.
#[derive(Debug, Drop)]
pub struct Shared<T> {
    items: RcSlice<T>,
}

impl<T> Model for Shared<T> {
    ghost use Rattle.std.specs.Prelude.{List};
    ghost use Rattle.std.specs.Rc.{rc_slice_items};

    ghost Value = { List T };

    ghost view = { λ s. rc_slice_items s.items };
}

impl<T: Drop> Shared<T> {
    /// The values of the vector.
    pub fn new(items: Vec<T>) -> Result<Shared<T>, NoMemory>
        ensures { IfOk result (λ shared. shared ≡ items.items) }
    {
        let items = RcSlice::from_vec(items)?;
        Ok(Shared { items })
    }

    /// The same values with one owner more. `NoMemory` comes where there are too many owners; no value
    /// is copied.
    pub fn copy(&self) -> Result<Shared<T>, NoMemory>
        ensures { IfOk result (λ shared. shared ≡ self.now) }
    {
        let items = self.items.clone()?;
        Ok(Shared { items })
    }
}

impl<T> Shared<T> {
    /// The number of values.
    pub fn len(&self) -> usize
        ensures { result ≡ length self.now }
    {
        self.items.len()
    }

    /// The values as a slice.
    pub fn as_slice(&self) -> &[T]
        ensures { result.now ≡ self.now }
    {
        self.items.as_slice()
    }
}

impl<T: PartialEq> PartialEq for Shared<T> {
    ghost eq = { pointwise T.eq };

    ghost laws = { lists_per T.laws };

    fn eq(&self, other: &Shared<T>) -> bool {
        self.items.as_slice() == other.items.as_slice()
    }
}

impl<T: Eq> Eq for Shared<T> {
    ghost laws = { lists_equiv T.Eq.laws };
}
