// A store that just suffices, and one of one word less. No word of the command line says how large the store
// may be, so the classes are run by the call below that of the program.

ghost use Rattle.std.specs.List.{AllByRecursion};
ghost use Rattle.std.specs.Prelude.{◌≤◌, length};
ghost use Rattle.fm_base.specs.declared.limits.TheConstants.{MAX_CLASS_FILES};
ghost use Rattle.fm_code.specs.Profile.{Profile};
ghost use Rattle.fm_load.specs.Taking.{ClassIsSpelled};

use crate::running::run_classes;
use crate::tests::samples::{LENGTH_PLACE, MAKES_NEST, PRINTS_LENGTH, with_byte};
use fm_base::NoMemory;
use fm_code::ClassDef;
use fm_files::{SureFiles, SureSink};
use fm_load::read_classes;
use fm_run_job::Budgets;
use std::alloc::Global;
use std::test::Fail;

// A class file in which one byte is this one, how many words may live and how many the store has, and how
// the run ends.
#[derive(Clone, Copy)]
struct End<'a> {
    file: &'a [u8],
    place: usize,
    byte: u8,
    words: u8,
    store: u8,
    status: u8,
    printed: &'a [u8],
    reported: &'a [u8],
}

// An array of 10 ints takes a cell of 7 words, and one of 76 ints a cell of 64. Words that may live are
// looked at before those of the store.
fn ends<'a>(lengths: &'a [u8]) -> [End<'a>; 7] {
    let short = End {
        file: lengths,
        place: LENGTH_PLACE,
        byte: 10,
        words: 100,
        store: 13,
        status: 0,
        printed: b"10\n",
        reported: b"returned; steps 8, objects 4, frees 0, freed words 0, live words 13, \
            peak words 13, cells made 4\n",
    };
    let long = End {
        byte: 76,
        store: 70,
        printed: b"76\n",
        reported: b"returned; steps 8, objects 4, frees 0, freed words 0, live words 46, \
            peak words 46, cells made 4\n",
        ..short
    };
    let full = End {
        store: 12,
        status: 85,
        printed: b"",
        reported: b"store-full 6 needs 7; steps 1, objects 3, frees 0, freed words 0, \
            live words 6, peak words 6, cells made 3\n",
        ..short
    };
    [
        short,
        full,
        End { store: 6, ..full },
        End {
            store: 5,
            reported: b"store-full 4 needs 2; steps 0, objects 2, frees 0, freed words 0, \
                live words 4, peak words 4, cells made 2\n",
            ..full
        },
        long,
        End {
            byte: 76,
            store: 69,
            reported: b"store-full 6 needs 64; steps 1, objects 3, frees 0, freed words 0, \
                live words 6, peak words 6, cells made 3\n",
            ..full
        },
        End {
            words: 12,
            status: 81,
            reported: b"exhausted 6 needs 7; steps 1, objects 3, frees 0, freed words 0, \
                live words 6, peak words 6, cells made 3\n",
            ..full
        },
    ]
}

// Of two arrays that one step makes the first one stays where the second one finds no room.
fn ends_of_nests<'a>(nests: &'a [u8]) -> [End<'a>; 2] {
    let two = End {
        file: nests,
        place: 0,
        byte: 0xca,
        words: 100,
        store: 12,
        status: 0,
        printed: b"",
        reported: b"returned; steps 6, objects 5, frees 0, freed words 0, live words 12, \
            peak words 12, cells made 5\n",
    };
    [
        two,
        End {
            store: 11,
            status: 85,
            reported: b"store-full 9 needs 3; steps 2, objects 4, frees 0, freed words 0, \
                live words 9, peak words 9, cells made 4\n",
            ..two
        },
    ]
}

// Whether the run of the classes ends so in a store of `end.words` words.
fn run_ends_so(alloc: Global, classes: Vec<ClassDef>, end: End<'_>) -> Result<bool, NoMemory>
    requires spelled { AllByRecursion ClassIsSpelled classes.items }
    requires accepted { AllByRecursion Profile classes.items }
    requires few { length classes.items ≤ MAX_CLASS_FILES }
{
    let budgets = Budgets {
        steps: 100,
        words: u64::from(end.words),
        store: u64::from(end.store),
        frames: 1,
    };
    let mut out = SureSink::new(alloc);
    match run_classes(alloc, classes, "M", budgets, &[], &[], &mut out) {
        Ok(reported) => Ok(
            reported.status == end.status
                && out.bytes() == end.printed
                && reported.line.as_bytes() == end.reported,
        ),
        Err(_) => Ok(false),
    }
}

// Whether that of the class file with the byte does.
fn ends_so(alloc: Global, end: End<'_>) -> Result<bool, NoMemory> {
    let file = with_byte(alloc, end.file, end.place, end.byte)?;
    let mut files = SureFiles::new(alloc);
    files.add("M.class", &file)?;
    match read_classes(alloc, &["M.class"], &mut files) {
        Ok(classes) => run_ends_so(alloc, classes, end),
        Err(_) => Ok(false),
    }
}

#[test]
fn a_store_suffices_or_lacks_one_word(rt: HostRuntime) -> Result<(), Fail> {
    let alloc = rt.alloc();
    let lengths = PRINTS_LENGTH.bytes(alloc)?;
    let nests = MAKES_NEST.bytes(alloc)?;
    for end in ends(&lengths) {
        assert!(rt; ends_so(alloc, end)?, "{} {}", end.store, end.byte);
    }
    for end in ends_of_nests(&nests) {
        assert!(rt; ends_so(alloc, end)?, "{} {}", end.store, end.byte);
    }
    Ok(())
}
