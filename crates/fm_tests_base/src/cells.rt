// The rows that the two memories are tried on.

ghost use Rattle.std.specs.Prelude.{◌^◌, ◌<◌};
ghost use Rattle.fm_cells.specs.Sizes.{IsPack};

use fm_cells::{Cell, Freed, Head, MakeFail, Memory, NotHeld, PlainCells, WordCells};

/// Makes an object of type 7 that isn't fixed.
fn make<M: Memory>(cells: &mut M, len: u32, pack: u8) -> Result<Cell, MakeFail>
    requires len_fits { len < 2 ^ 31 }
    requires pack_is { IsPack pack }
{
    if cells.births() >= 100 {
        return Err(MakeFail::NoMemory);
    }
    cells.make(7, len, pack, false)
}

/// The element at a place, if there is one.
fn element<M: Memory>(cells: &M, cell: Cell, place: u32) -> Option<u64> {
    match cells.head(cell) {
        Some(head) if place < head.len => Some(cells.get(cell, place)),
        _ => None,
    }
}

/// Sets a byte at a place, if there is one.
fn set_byte<M: Memory>(cells: &mut M, cell: Cell, place: u32, byte: u8) {
    match cells.head(cell) {
        Some(head) if place < head.len && head.pack == 8 => cells.put(cell, place, byte as u64),
        _ => (),
    }
}

/// The chain of a cell, if it is held.
fn chain<M: Memory>(cells: &M, cell: Cell) -> Option<Cell> {
    match cells.head(cell) {
        Some(_) => Some(cells.chain(cell)),
        None => None,
    }
}

/// Chains a cell, if it is held.
fn set_chain<M: Memory>(cells: &mut M, cell: Cell, to: Cell) {
    if cells.head(cell).is_some() {
        cells.set_chain(cell, to);
    }
}

#[test]
fn a_freed_cell_serves_again_where_the_store_is_full(rt: HostRuntime) {
    let mut cells = WordCells::new(rt.alloc(), 100, 8);
    assert_eq!(rt; make(&mut cells, 4, 1), Ok(Cell(1)));
    assert_eq!(rt; cells.free(Cell(1)), Ok(Freed::Done));
    assert_eq!(rt; make(&mut cells, 2, 1), Err(MakeFail::Store));
    assert_eq!(rt; make(&mut cells, 4, 1), Ok(Cell(1)));
    assert_eq!(rt; make(&mut cells, 93, 1), Err(MakeFail::Budget));

    let mut plain = PlainCells::new(rt.alloc(), 100, 8);
    assert_eq!(rt; make(&mut plain, 4, 1), Ok(Cell(1)));
    assert_eq!(rt; plain.free(Cell(1)), Ok(Freed::Done));
    assert_eq!(rt; make(&mut plain, 2, 1), Err(MakeFail::Store));
    assert_eq!(rt; make(&mut plain, 4, 1), Err(MakeFail::Store));
    assert_eq!(rt; make(&mut plain, 99, 1), Err(MakeFail::Budget));
}

#[test]
fn the_last_freed_cell_is_taken_first(rt: HostRuntime) {
    let mut cells = WordCells::new(rt.alloc(), 100, 100);
    assert_eq!(rt; make(&mut cells, 1, 1), Ok(Cell(1)));
    assert_eq!(rt; make(&mut cells, 1, 1), Ok(Cell(4)));
    assert_eq!(rt; cells.free(Cell(1)), Ok(Freed::Done));
    assert_eq!(rt; cells.free(Cell(4)), Ok(Freed::Done));
    assert_eq!(rt; make(&mut cells, 1, 1), Ok(Cell(4)));
    assert_eq!(rt; make(&mut cells, 1, 1), Ok(Cell(1)));
    assert_eq!(rt; make(&mut cells, 38, 1), Ok(Cell(7)));
    assert_eq!(rt;
        (cells.made_words(), cells.live_words(), cells.peak_words()),
        (70, 46, 46)
    );
    assert_eq!(rt;
        (
            cells.made(3),
            cells.made(33),
            cells.made(40),
            cells.births()
        ),
        (2, 1, 0, 5)
    );

    let mut plain = PlainCells::new(rt.alloc(), 100, 100);
    assert_eq!(rt; make(&mut plain, 1, 1), Ok(Cell(1)));
    assert_eq!(rt; make(&mut plain, 1, 1), Ok(Cell(2)));
    assert_eq!(rt; plain.free(Cell(1)), Ok(Freed::Done));
    assert_eq!(rt; plain.free(Cell(2)), Ok(Freed::Done));
    assert_eq!(rt; make(&mut plain, 1, 1), Ok(Cell(3)));
    assert_eq!(rt; make(&mut plain, 1, 1), Ok(Cell(4)));
    assert_eq!(rt; make(&mut plain, 38, 1), Ok(Cell(5)));
    assert_eq!(rt;
        (plain.made_words(), plain.live_words(), plain.peak_words()),
        (76, 46, 46)
    );
    assert_eq!(rt;
        (
            plain.made(3),
            plain.made(33),
            plain.made(40),
            plain.births()
        ),
        (4, 1, 0, 5)
    );
}

/// Makes 9 bytes and sets the one at 7: the live words, and the elements 6, 7 and 8.
fn bytes<M: Memory>(cells: &mut M) -> (u64, Option<u64>, Option<u64>, Option<u64>) {
    let cell = match make(cells, 9, 8) {
        Ok(cell) => cell,
        Err(_) => Cell(0),
    };
    set_byte(cells, cell, 7, 255);
    (
        cells.live_words(),
        element(cells, cell, 6),
        element(cells, cell, 7),
        element(cells, cell, 8),
    )
}

#[test]
fn elements_of_one_word_are_apart(rt: HostRuntime) {
    let wanted = (4, Some(0), Some(255), Some(0));
    assert_eq!(rt; bytes(&mut WordCells::new(rt.alloc(), 100, 100)), wanted);
    assert_eq!(rt; bytes(&mut PlainCells::new(rt.alloc(), 100, 100)), wanted);
}

/// Makes an object, chains it, sets its byte and frees it, and makes one again: its chain and its element.
fn made_again<M: Memory>(cells: &mut M) -> (Option<Cell>, Option<Cell>, Option<u64>) {
    let first = match make(cells, 3, 8) {
        Ok(cell) => cell,
        Err(_) => Cell(0),
    };
    set_chain(cells, first, Cell(9));
    set_byte(cells, first, 1, 200);
    let chained = chain(cells, first);
    let _ = cells.free(first);
    let second = match make(cells, 3, 8) {
        Ok(cell) => cell,
        Err(_) => Cell(0),
    };
    (chained, chain(cells, second), element(cells, second, 1))
}

#[test]
fn an_object_is_made_with_no_chain_and_zeros(rt: HostRuntime) {
    let wanted = (Some(Cell(9)), Some(Cell(0)), Some(0));
    assert_eq!(rt;
        made_again(&mut WordCells::new(rt.alloc(), 100, 100)),
        wanted
    );
    assert_eq!(rt;
        made_again(&mut PlainCells::new(rt.alloc(), 100, 100)),
        wanted
    );
}

/// Frees null, a fixed object, another object, and that one again.
fn frees<M: Memory>(cells: &mut M) -> [Result<Freed, NotHeld>; 4] {
    let fixed = match cells.births() {
        0 => cells.make(3, 0, 1, true),
        _ => Err(MakeFail::NoMemory),
    };
    let other = make(cells, 0, 1);
    [
        cells.free(Cell(0)),
        cells.free(fixed.unwrap_or(Cell(0))),
        cells.free(other.unwrap_or(Cell(0))),
        cells.free(other.unwrap_or(Cell(0))),
    ]
}

#[test]
fn null_and_fixed_objects_are_skipped(rt: HostRuntime) {
    let wanted = [
        Ok(Freed::Skipped),
        Ok(Freed::Skipped),
        Ok(Freed::Done),
        Err(NotHeld),
    ];
    let mut cells = WordCells::new(rt.alloc(), 100, 100);
    assert_eq!(rt; frees(&mut cells), wanted);
    assert_eq!(rt;
        cells.head(Cell(1)),
        Some(Head {
            class: 3,
            birth: 0,
            len: 0,
            pack: 1,
            fixed: true
        })
    );
    assert_eq!(rt;
        (cells.head(Cell(0)), cells.head(Cell(3)), cells.budget()),
        (None, None, 100)
    );

    let mut plain = PlainCells::new(rt.alloc(), 100, 100);
    assert_eq!(rt; frees(&mut plain), wanted);
    assert_eq!(rt;
        plain.head(Cell(1)),
        Some(Head {
            class: 3,
            birth: 0,
            len: 0,
            pack: 1,
            fixed: true
        })
    );
    assert_eq!(rt;
        (plain.head(Cell(0)), plain.head(Cell(2)), plain.budget()),
        (None, None, 100)
    );
}
