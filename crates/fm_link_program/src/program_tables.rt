// The tables of a program whose classes are linked, and the program.

ghost use Rattle.std.specs.Prelude.{◌≡◌, ◌+◌, ◌<◌, ◌^◌, IfOk, OnOk, length, map};
ghost use Rattle.std.specs.List.{AllByRecursion};
ghost use Rattle.fm_code.specs.Spells.{HasSpelling};
ghost use Rattle.fm_link_names.specs.inner.ClassNumbering.{NumbersClasses};
ghost use Rattle.fm_link_names.specs.inner.DescriptorTypes.{type_of_name};
ghost use Rattle.fm_link_names.specs.inner.Files.{AreFiles};
ghost use Rattle.fm_link_names.specs.inner.Numbering.{texts_in};
ghost use Rattle.fm_link_supers.specs.inner.Hierarchy.{AreSound, IsHierarchy};
ghost use Rattle.fm_link_program.specs.inner.Assembled.{parts_from, AreCounted, IsTables};
ghost use Rattle.fm_link_records.specs.inner.Classes.{bare_outline};
ghost use Rattle.fm_link_refusals.specs.inner.GivenClasses.{given_in, AreNumbered};
ghost use Rattle.fm_link_refusals.specs.inner.Linking.{IsLinking};
ghost use Rattle.fm_world.specs.Members.{first_method};
ghost use Rattle.fm_world.specs.Programs.{class_info, classes_of};
ghost use Rattle.fm_world.specs.inner.Tables.{numbers_below, program_in, AreTables};

use crate::answers::{Answers, answers_of};
use crate::member_infos::{FieldInfos, MemberInfos, member_infos_of};
use crate::named::{Named, named_of};
use fm_base::{ClassId, MethodId, NoMemory, Seq, TypeRef};
use fm_link_members::Methods;
use fm_link_names::{ClassNumbers, GivenFile, number_of};
use fm_link_records::{Types, class_infos, own_sizes, sizes_along};
use fm_link_refusals::Linking;
use fm_link_supers::Hierarchy;
use fm_world::{ClassInfo, DeclaredClass, Parts, Program};
use std::alloc::Global;

/// All parts of a program but its declared classes; `main` has the main class and its main method.
#[derive(Drop)]
pub struct ProgramTables {
    pub classes: Vec<ClassInfo>,
    pub named: Named,
    pub told: MemberInfos,
    pub answers: Answers,
    pub main: (u32, u32),
}

impl ProgramTables {
    /// The program of these classes and their tables. Takes no memory.
    pub fn into_program(self, declared: Vec<DeclaredClass>) -> Program
        requires { AreTables (parts_from declared.items self) }
        ensures { result ≡ program_in (parts_from declared.items self) }
    {
        let ProgramTables {
            classes,
            named,
            told,
            answers,
            main,
        } = self;
        let Named {
            types,
            literals,
            uses,
        } = named;
        let MemberInfos { methods, fields } = told;
        let FieldInfos { infos, statics } = fields;
        let Answers {
            displays,
            interfaces,
            signatures,
            selected,
            tops,
            own,
            object,
        } = answers;
        let Types { types } = types;
        Program::new(Parts {
            declared: Seq::new(declared),
            classes: Seq::new(classes),
            methods: Seq::new(methods),
            fields: Seq::new(infos),
            types,
            texts: Seq::new(literals.units),
            uses: Seq::new(uses),
            main: MethodId(main.1),
            main_class: ClassId(main.0),
            object: ClassId(object),
            statics,
            made: None,
            displays: Seq::new(displays),
            interfaces: Seq::new(interfaces),
            signatures: Seq::new(signatures),
            selected,
            tops: Seq::new(tops),
            own: Seq::new(own),
            known: None,
        })
    }
}

/// The tables of classes that are linked. `by_text` has the type that each text names, and `main` the
/// main class and its main method.
pub fn tables_of(
    alloc: Global,
    numbers: &ClassNumbers,
    linking: Linking,
    by_text: &[Option<TypeRef>],
    files: &[GivenFile],
    main: (u32, u32),
) -> Result<ProgramTables, NoMemory>
    requires linked { IsLinking (classes_of (given_in files.now)) linking }
    requires sound { AreSound (classes_of (given_in files.now)) }
    requires named { NumbersClasses (classes_of (given_in files.now)) numbers.now.numbers }
    requires types { by_text.now
        ≡ map (type_of_name (classes_of (given_in files.now))) (texts_in linking.texts.now) }
    requires files { AreFiles (texts_in linking.texts.now) (given_in files.now) files.now }
    requires numbered { AreNumbered (texts_in linking.texts.now) files.now }
    requires spelled { AllByRecursion HasSpelling (given_in files.now) }
    ensures { IfOk result (IsTables (given_in files.now) main) }
{
    let classes = class_infos_of(alloc, linking.hierarchy, linking.methods)?;
    let named = named_of(alloc, numbers, linking, by_text, files)?;
    let uses = named.uses.as_slice();
    let told = member_infos_of(alloc, numbers, linking, files, uses)?;
    let answers = answers_of(alloc, linking.hierarchy, linking.methods)?;
    few_places(linking.hierarchy.classes, &named, &told)?;
    Ok(ProgramTables {
        classes,
        named,
        told,
        answers,
        main,
    })
}

// Fails as out of memory where a table has 2^32 places or more.
fn few_places(classes: &[DeclaredClass], named: &Named, told: &MemberInfos) -> Result<(), NoMemory>
    ensures { OnOk result (AreCounted classes.now named.now told.now) }
{
    few(classes.len())?;
    few(told.methods.len())?;
    few(told.fields.infos.len())?;
    few(named.literals.units.len())?;
    Ok(())
}

// The same of one table.
fn few(count: usize) -> Result<(), NoMemory>
    ensures { OnOk result (count < 2 ^ 32) }
{
    match number_of(count) {
        Ok(_) => Ok(()),
        Err(error) => Err(error),
    }
}

// What is recorded about all classes.
fn class_infos_of(
    alloc: Global,
    hierarchy: &Hierarchy,
    methods: &Methods,
) -> Result<Vec<ClassInfo>, NoMemory>
    requires hierarchy { IsHierarchy hierarchy.now.classes.now hierarchy.now }
    requires first { methods.now.members.first.items
        ≡ map (first_method hierarchy.now.classes.now)
        (numbers_below (length hierarchy.now.classes.now + 1)) }
    ensures { IfOk result (λ infos. infos.items
        ≡ map (class_info (bare_outline hierarchy.now.classes.now))
        (numbers_below (length hierarchy.now.classes.now))) }
{
    let classes = hierarchy.classes;
    let sizes = own_sizes(alloc, classes)?;
    let own = sizes.as_slice();
    let chains = hierarchy.chains.as_slice();
    let summed = sizes_along(alloc, own, chains)?;
    let along = summed.as_slice();
    let parents = hierarchy.parents.as_slice();
    let listed = hierarchy.listed.as_slice();
    let first = methods.members.first.as_slice();
    class_infos(alloc, classes, parents, listed, first, along)
}
