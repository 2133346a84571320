// The codes of all methods.

ghost use Rattle.std.specs.Prelude.{◌≡◌, ◌++◌, IfOk, OnOk, None, map, option_copied, replicate};
ghost use Rattle.std.specs.List.{flat_map};
ghost use Rattle.fm_code.specs.Members.{code_of};
ghost use Rattle.fm_link_records.specs.inner.Rows.{codes_in, lent_codes};
ghost use Rattle.fm_world.specs.BuiltIns.{built_in_methods};

use fm_base::NoMemory;
use fm_code::{Code, Member};
use fm_link_names::GivenFile;
use fm_world::BUILT_IN_METHODS;
use std::alloc::Global;

/// The code of each method, if it has one; a built-in method has none.
pub fn codes_of<'a>(
    alloc: Global,
    files: &[GivenFile<'a>],
) -> Result<Vec<Option<&'a Code>>, NoMemory>
    ensures { IfOk result (λ codes. lent_codes codes.items
        ≡ replicate built_in_methods None ++ flat_map codes_in files.now) }
{
    let mut codes = Vec::new(alloc);
    for _ in 0..BUILT_IN_METHODS {
        codes.push(None)?;
    }
    for file in files {
        add_codes(&mut codes, file.class.methods.as_slice())?;
    }
    Ok(codes)
}

// Adds the codes of some methods.
fn add_codes<'a>(codes: &mut Vec<Option<&'a Code>>, methods: &'a [Member]) -> Result<(), NoMemory>
    ensures { OnOk result (lent_codes codes.new.items
        ≡ lent_codes codes.old.items ++ map code_of methods.entry.now) }
{
    for method in methods {
        codes.push(method.code())?;
    }
    Ok(())
}
