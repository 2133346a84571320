// The main class and its main method.

ghost use Rattle.std.specs.Prelude.{◌≡◌, IfOk};
ghost use Rattle.fm_link_names.specs.inner.Numbering.{texts_in};
ghost use Rattle.fm_link_refusals.specs.Refused.{Refuses};
ghost use Rattle.fm_link_refusals.specs.inner.GivenClasses.{given_in, AreNumbered};
ghost use Rattle.fm_link_refusals.specs.inner.Linking.{IsLinking};
ghost use Rattle.fm_link.specs.inner.MainClass.{is_main_at, is_main_row, main_between, main_found, main_method_in, own_main_in, AreMain};
ghost use Rattle.fm_world.specs.Linking.{refused_main};
ghost use Rattle.fm_world.specs.Programs.{classes_of};

use fm_base::NoMemory;
use fm_code::{ACC_STATIC, has_flag};
use fm_link_members::{MemberRow, Members};
use fm_link_names::{GivenFile, Texts};
use fm_link_refusals::{LinkFail, Linking, bad_of};
use fm_link_supers::given_class;
use std::alloc::Global;

/// The main class and its main method by number, or the refusal of a program that has none.
pub(crate) fn main_of(
    alloc: Global,
    linking: Linking,
    files: &[GivenFile],
    main: &[u8],
) -> Result<(u32, u32), LinkFail>
    requires { AreNumbered (texts_in linking.texts.now) files.now }
    ensures refuses { IsLinking (classes_of (given_in files.now)) linking.entry
        → Refuses (refused_main (given_in files.now) main.now) result }
    ensures main { IsLinking (classes_of (given_in files.now)) linking.entry
        → IfOk result (AreMain (given_in files.now) main.now) }
{
    match found_main(linking, files, main)? {
        Some(found) => Ok(found),
        None => Err(LinkFail::NoMain(bad_of(alloc, main, main)?)),
    }
}

// The main class and its main method, where there are both.
fn found_main(
    linking: Linking,
    files: &[GivenFile],
    main: &[u8],
) -> Result<Option<(u32, u32)>, NoMemory>
    ensures { IsLinking (classes_of (given_in files.now)) linking.entry
        → IfOk result (λ found. found ≡ main_found (classes_of (given_in files.now)) main.now) }
{
    match given_class(files, main)? {
        Some(class) => match main_method(linking, class) {
            Some(method) => Ok(Some((class, method))),
            None => Ok(None),
        },
        None => Ok(None),
    }
}

// The nearest static main([Ljava/lang/String;)V of a class and its superclasses.
fn main_method(linking: Linking, class: u32) -> Option<u32>
    ensures { result ≡ main_method_in linking.entry class }
{
    for above in linking.hierarchy.chain(class) {
        match own_main(linking, *above) {
            Some(method) => return Some(method),
            None => {}
        }
    }
    None
}

// That of a class itself.
fn own_main(linking: Linking, class: u32) -> Option<u32>
    ensures { result ≡ own_main_in linking.entry class }
{
    let (start, end) = linking.methods.members.of_class(class);
    main_between(linking.texts, &linking.methods.members, start, end)
}

// The first one among the methods from a number up to another one.
fn main_between(texts: &Texts, methods: &Members, start: u32, end: u32) -> Option<u32>
    ensures { result ≡ main_between (texts_in texts.now) methods.now.rows.items (start, end) }
{
    for method in start..end {
        if is_main(texts, methods, method) {
            return Some(method);
        }
    }
    None
}

// Whether a method is a static main([Ljava/lang/String;)V.
fn is_main(texts: &Texts, methods: &Members, method: u32) -> bool
    ensures { result ≡ is_main_at (texts_in texts.now) methods.now.rows.items method }
{
    match methods.row(method) {
        Some(row) => is_main_row(texts, row),
        None => false,
    }
}

// The same of its row.
fn is_main_row(texts: &Texts, row: MemberRow) -> bool
    ensures { result ≡ is_main_row (texts_in texts.now) row }
{
    texts.text(row.name) == b"main".as_slice()
        && texts.text(row.descriptor) == b"([Ljava/lang/String;)V".as_slice()
        && has_flag(row.flags, ACC_STATIC)
}
