// Marks of numbers, one `bool` for each: for sets that are made once and lie open to their makers.
// No call here takes memory.

ghost use Rattle.std.specs.Prelude.{◌≡◌, slice_set, true};
ghost use Rattle.fm_base.specs.Rows.{has, marked};

/// Whether a number has its mark; none past the end has.
pub fn is_marked(marks: &[bool], number: usize) -> bool
    ensures { result ≡ has marks.now number }
{
    match marks.get(number) {
        Some(mark) => *mark,
        None => false,
    }
}

/// Sets the mark of a number; there is none past the end.
pub fn mark(marks: &mut Vec<bool>, number: usize)
    ensures { marks.new.items ≡ slice_set marks.old.items number true }
{
    if number < marks.len() {
        marks[number] = true;
    }
}

/// Sets the marks of the numbers.
pub fn mark_all(marks: &mut Vec<bool>, numbers: &[u32])
    ensures { marks.new.items ≡ marked marks.old.items numbers.now }
{
    for number in numbers {
        mark(marks, *number as usize);
    }
}

/// Sets the marks of the indices of a pool.
pub fn mark_indices(marks: &mut Vec<bool>, indices: &[u16])
    ensures { marks.new.items ≡ marked marks.old.items indices.now }
{
    for index in indices {
        mark(marks, usize::from(*index));
    }
}
