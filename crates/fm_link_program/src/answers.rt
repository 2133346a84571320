// What a program looks up while it runs: superclasses, superinterfaces and methods by signature.

ghost use Rattle.std.specs.Prelude.{◌≡◌, ◌+◌, IfOk, length, map, unwrap_or};
ghost use Rattle.fm_link_supers.specs.inner.Hierarchy.{IsHierarchy};
ghost use Rattle.fm_world.specs.Members.{first_method};
ghost use Rattle.fm_world.specs.inner.Tables.{numbers_below};
ghost use Rattle.fm_link_program.specs.inner.Answers.{AreAnswers};

use crate::member_lists::flags_of;
use fm_base::{NoMemory, Seq};
use fm_link_members::Methods;
use fm_link_records::{displays_of, lists_of, own_tables};
use fm_link_supers::Hierarchy;
use fm_world::Layers;
use std::alloc::Global;
use std::collections::HashMap;

/// For each class its superclasses and superinterfaces, its table of selected methods and its own
/// methods; the signatures of methods; and the class `java/lang/Object`.
#[derive(Drop)]
pub struct Answers {
    pub displays: Vec<Seq<u32>>,
    pub interfaces: Vec<Seq<u32>>,
    pub signatures: Vec<u32>,
    pub selected: Layers,
    pub tops: Vec<u32>,
    pub own: Vec<HashMap<u32, u32>>,
    pub object: u32,
}

/// What is looked up in the classes and their methods.
pub fn answers_of(
    alloc: Global,
    hierarchy: &Hierarchy,
    methods: &Methods,
) -> Result<Answers, NoMemory>
    requires hierarchy { IsHierarchy hierarchy.now.classes.now hierarchy.now }
    requires first { methods.now.members.first.items
        ≡ map (first_method hierarchy.now.classes.now)
        (numbers_below (length hierarchy.now.classes.now + 1)) }
    ensures { IfOk result (AreAnswers hierarchy.now methods.now) }
{
    let rows = methods.members.rows.as_slice();
    let first = methods.members.first.as_slice();
    let listed = flags_of(alloc, rows)?;
    let flags = listed.as_slice();
    let of_members = methods.signatures.of_members.as_slice();
    let own = own_tables(alloc, first, of_members, flags)?;
    let chains = hierarchy.chains.as_slice();
    let displays = displays_of(alloc, chains)?;
    let above = hierarchy.interfaces.as_slice();
    let interfaces = lists_of(alloc, above)?;
    let signatures = Vec::from_slice(alloc, of_members)?;
    let selected = methods.selectable.layers.copy(alloc)?;
    let roots = methods.selectable.tops.as_slice();
    let tops = Vec::from_slice(alloc, roots)?;
    let object = object_of(hierarchy.object);
    Ok(Answers {
        displays,
        interfaces,
        signatures,
        selected,
        tops,
        own,
        object,
    })
}

// The class `java/lang/Object`.
fn object_of(object: Option<u32>) -> u32
    ensures { result ≡ unwrap_or object 0 }
{
    match object {
        Some(object) => object,
        None => 0,
    }
}
