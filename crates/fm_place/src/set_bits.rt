// Bits that are set one by one in rows of many items.

ghost use Rattle.std.specs.Prelude.{◌≡◌, ◌<◌, MatchBool, if◌then◌else◌, length, slice_set, true};
ghost use Rattle.fm_flow.specs.inner.LiveWalks.{row_of};
ghost use Rattle.fm_place.specs.inner.PlanRows.{SetsBit};

use fm_base::Row;

/// Sets the bit in the row of the item, if there is such an item.
pub fn set_at(rows: &mut Vec<Row>, item: usize, bit: u32)
    requires { item < length rows.old.items → bit < length (row_of rows.old.items item) }
    ensures { SetsBit item bit rows.old.items rows.new.items }
{
    if item < rows.len() {
        rows[item].set(bit);
    }
}

/// Sets the bit in the row of the item, if there is such an item and the test holds.
pub fn set_at_if(rows: &mut Vec<Row>, item: usize, bit: u32, test: bool)
    requires { item < length rows.old.items → bit < length (row_of rows.old.items item) }
    ensures { MatchBool test (SetsBit item bit rows.old.items rows.new.items)
        (rows.new.items ≡ rows.old.items) }
{
    if test {
        set_at(rows, item, bit);
    }
}

/// Sets the bit of the row, if the test holds.
pub fn set_if(row: &mut Row, bit: u32, test: bool)
    requires { bit < length row.old }
    ensures { row.new ≡ (if test then slice_set row.old bit true else row.old) }
{
    if test {
        row.set(bit);
    }
}
