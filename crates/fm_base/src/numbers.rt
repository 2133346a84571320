// Lists of numbers that are read past their ends.

ghost use Rattle.std.specs.Prelude.{◌≡◌, slice_index};

/// The number at a place of a list; 0 past the end. Takes no memory.
pub fn number_at(numbers: &[u32], place: u32) -> u32
    ensures { result ≡ slice_index numbers.now place }
{
    match numbers.get(place as usize) {
        Some(number) => *number,
        None => 0,
    }
}
