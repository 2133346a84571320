// What a program records about its methods.

ghost use Rattle.std.specs.Prelude.{◌≡◌, ◌++◌, IfOk, OnOk, None, length, option_copied};
ghost use Rattle.std.specs.List.{slice_index_or};
ghost use Rattle.fm_world.specs.Members.{methods_of};
ghost use Rattle.fm_world.specs.Programs.{body_of};
ghost use Rattle.fm_link_records.specs.inner.Methods.{kind_params, kind_result, method_told, methods_among, methods_told};
ghost use Rattle.fm_link_records.specs.inner.Rows.{lent_codes, lent_kinds};

use fm_base::{ClassId, Kind, NoMemory};
use fm_code::Code;
use fm_link_names::{Kinds, number_of};
use fm_world::{Body, DeclaredClass, DeclaredMethod, MethodInfo, Shared};
use std::alloc::Global;

/// What the program records about each method, by what its descriptor declares and by its code.
pub fn method_infos(
    alloc: Global,
    classes: &[DeclaredClass],
    kinds: &[Option<&Kinds>],
    codes: &[Option<&Code>],
) -> Result<Vec<MethodInfo>, NoMemory>
    ensures { IfOk result (λ infos. infos.items ≡ methods_told
        (lent_kinds kinds.entry.now) (lent_codes codes.entry.now) 0 (methods_of classes.now)) }
{
    let mut infos = Vec::new(alloc);
    for (class, declared) in classes.iter().enumerate() {
        let methods = declared.methods.as_slice();
        add_methods(alloc, &mut infos, number_of(class)?, methods, kinds, codes)?;
    }
    Ok(infos)
}

// Adds what the program records about the methods of one class.
fn add_methods(
    alloc: Global,
    infos: &mut Vec<MethodInfo>,
    class: u32,
    methods: &[DeclaredMethod],
    kinds: &[Option<&Kinds>],
    codes: &[Option<&Code>],
) -> Result<(), NoMemory>
    ensures { OnOk result (infos.new.items ≡ infos.old.items
        ++ methods_told (lent_kinds kinds.entry.now) (lent_codes codes.entry.now)
        (length infos.old.items) (methods_among class methods.now)) }
{
    for method in methods {
        let place = infos.len();
        let info = method_told(
            alloc,
            class,
            method,
            kind_at(kinds, place),
            code_at(codes, place),
        )?;
        infos.push(info)?;
    }
    Ok(())
}

// What the program records about one method.
fn method_told(
    alloc: Global,
    class: u32,
    method: &DeclaredMethod,
    kinds: Option<&Kinds>,
    code: Option<&Code>,
) -> Result<MethodInfo, NoMemory>
    ensures { IfOk result (λ info. info ≡ method_told
        (record { class = class; method = method.now })
        (option_copied kinds.entry) (option_copied code.entry)) }
{
    Ok(MethodInfo {
        class: ClassId(class),
        name: method.name.copy()?,
        descriptor: method.descriptor.copy()?,
        params: params_of(alloc, kinds)?,
        result: result_of(kinds),
        flags: method.flags,
        body: body_of(alloc, method, code)?,
    })
}

// The parameters that are declared.
fn params_of(alloc: Global, kinds: Option<&Kinds>) -> Result<Shared<Kind>, NoMemory>
    ensures { IfOk result (λ params. params ≡ kind_params (option_copied kinds.entry)) }
{
    match kinds {
        Some(kinds) => kinds.params.copy(),
        None => Shared::new(Vec::new(alloc)),
    }
}

// The result that is declared.
fn result_of(kinds: Option<&Kinds>) -> Option<Kind>
    ensures { result ≡ kind_result (option_copied kinds.entry) }
{
    match kinds {
        Some(kinds) => kinds.result,
        None => None,
    }
}

// What a call of the method does.
fn body_of(alloc: Global, method: &DeclaredMethod, code: Option<&Code>) -> Result<Body, NoMemory>
    ensures { IfOk result (λ body. body ≡ body_of method.now (option_copied code.entry)) }
{
    if let Some(row) = method.row {
        return Ok(Body::Native(row));
    }
    match code {
        Some(code) => Ok(Body::Coded(code.copy(alloc)?)),
        None => Ok(Body::Abstract),
    }
}

// What the descriptor of a method declares.
pub(crate) fn kind_at<'a>(kinds: &[Option<&'a Kinds>], place: usize) -> Option<&'a Kinds>
    ensures { option_copied result ≡ slice_index_or (lent_kinds kinds.now) place None }
{
    match kinds.get(place) {
        Some(kinds) => *kinds,
        None => None,
    }
}

// The code of a method.
fn code_at<'a>(codes: &[Option<&'a Code>], place: usize) -> Option<&'a Code>
    ensures { option_copied result ≡ slice_index_or (lent_codes codes.now) place None }
{
    match codes.get(place) {
        Some(code) => *code,
        None => None,
    }
}
