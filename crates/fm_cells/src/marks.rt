// One bit for each word of memory, 64 in a word: those at which held cells begin are set.

ghost use Rattle.std.specs.Prelude.{◌≡◌, ◌+◌, ◌*◌, ◌/◌, ◌%◌, ◌<◌, ◌≤◌, ◌↔◌, ℕ, length, slice_index, slice_set, IsTrue, OnOk};
ghost use Rattle.fm_cells.specs.inner.Words as spec;

use crate::digits::{digit, with_digit};
use std::alloc::AllocError;

/// Whether a word has its mark. Takes no memory.
#[inline(always)]
pub fn is_marked(marks: &[u64], cell: u32) -> bool
    ensures { IsTrue result ↔ (spec.mark_in marks.now cell ≡ 1) }
{
    match marks.get((cell / 64) as usize) {
        Some(&word) => digit(word, 1, cell % 64) == 1,
        None => false,
    }
}

/// Sets or clears the mark of a word: `mark` is 1 or 0. Takes no memory.
#[inline(always)]
pub fn set_mark(marks: &mut [u64], cell: u32, mark: u64)
    requires within { cell / 64 < length marks.old }
    requires bit { mark < 2 }
    ensures { let word = slice_index marks.old (cell / 64) in
        marks.new ≡ slice_set marks.old (cell / 64) (spec.with_digit 1 (cell % 64) mark word) }
{
    let at = (cell / 64) as usize;
    marks[at] = with_digit(marks[at], 1, cell % 64, mark);
}

/// Makes room for the marks of `words` words. Each mark stays as it was, and new ones aren't set.
pub fn reserve_marks(marks: &mut Vec<u64>, words: usize) -> Result<(), AllocError>
    ensures room { OnOk result (words ≤ 64 * length marks.new.items) }
    ensures same { (k : ℕ) → slice_index marks.new.items k ≡ slice_index marks.old.items k }
    ensures longer { length marks.old.items ≤ length marks.new.items }
{
    let wanted = words / 64 + 1;
    if marks.len() < wanted {
        marks.resize(wanted, 0)?;
    }
    Ok(())
}
