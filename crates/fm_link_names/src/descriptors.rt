// The types that descriptors and Class entries name (JVMS 4.3, 4.4.1).

ghost use Rattle.std.specs.Prelude.{◌≡◌, ℕ, IfOk, List, [], map, option_and_then, option_copied, slice_get, unwrap_or};
ghost use Rattle.std.specs.Borrow.{Bor};
ghost use Rattle.fm_link_names.specs.inner.ClassNumbering.{NumbersClasses};
ghost use Rattle.fm_link_names.specs.inner.DescriptorTypes.{
  few_kind,
  few_kind_in,
  if_few,
  first_missing,
  last_of,
  missing_name,
  type_of_name,
  DeclaresKinds,
  HaveFewDimensions,
};
ghost use Rattle.fm_link_names.specs.inner.NamedTypes.{base_named, type_named};
ghost use Rattle.fm_world.specs.Descriptors.{
  base_in,
  class_type,
  first_type,
  type_in,
  types_in,
};
ghost use Rattle.fm_world.specs.declared.declarations.DeclaredClass.{DeclaredClass};

use crate::class_numbers::ClassNumbers;
use crate::first_types::{NamedBase, NamedType, first_type};
use fm_base::characters::{
    BOOLEAN_LETTER, BYTE_LETTER, CHAR_LETTER, INT_LETTER, LEFT_BRACKET, LONG_LETTER, SHORT_LETTER,
};
use fm_base::{Base, ClassId, Kind, NoMemory, TypeRef};
use fm_world::Shared;
use std::alloc::Global;

/// The types that a descriptor names from left to right, V among them.
/// `NoMemory` where memory runs out.
pub fn types_in<'a>(alloc: Global, descriptor: &'a [u8]) -> Result<Vec<NamedType<'a>>, NoMemory>
    ensures { IfOk result (λ types. map type_named types.items ≡ types_in descriptor.now) }
{
    let mut types = Vec::new(alloc);
    let mut rest = descriptor;
    while let Some((first, after)) = first_type(rest) {
        types.push(first)?;
        rest = after;
    }
    Ok(types)
}

/// The type that the name of a Class entry names.
pub fn class_type(name: &[u8]) -> NamedType<'_>
    ensures { type_named result ≡ class_type name.now }
{
    if name.first().copied() == Some(LEFT_BRACKET) {
        match first_type(name) {
            Some((first, _)) => first,
            None => no_type(),
        }
    } else {
        NamedType {
            dimensions: 0,
            base: NamedBase::Class(name),
        }
    }
}

// The value for the type of a descriptor that names none.
fn no_type<'a>() -> NamedType<'a>
    ensures { type_named result ≡ first_type [] }
{
    NamedType {
        dimensions: 0,
        base: NamedBase::Letter(0),
    }
}

/// The class of a type, or of its elements, where it isn't there.
pub fn missing_class<'a>(numbers: &ClassNumbers, named: NamedType<'a>) -> Option<&'a [u8]>
    ensures { (classes : List DeclaredClass) → NumbersClasses classes numbers.now.numbers
        → option_copied result ≡ missing_name classes (type_named named.entry) }
{
    match named.base {
        NamedBase::Class(name) => match numbers.number(name) {
            Some(_) => None,
            None => Some(name),
        },
        NamedBase::Letter(_) => None,
    }
}

/// The first class that a descriptor names and that isn't there.
pub fn missing_in<'a>(numbers: &ClassNumbers, descriptor: &'a [u8]) -> Option<&'a [u8]>
    ensures { (classes : List DeclaredClass) → NumbersClasses classes numbers.now.numbers
        → option_copied result ≡ first_missing classes (types_in descriptor.now) }
{
    let mut rest = descriptor;
    while let Some((first, after)) = first_type(rest) {
        if let Some(name) = missing_class(numbers, first) {
            return Some(name);
        }
        rest = after;
    }
    None
}

// The base that a program has for the one that is named.
fn base_in(numbers: &ClassNumbers, base: NamedBase) -> Option<Base>
    ensures { (classes : List DeclaredClass) → NumbersClasses classes numbers.now.numbers
        → result ≡ base_in classes (base_named base.entry) }
{
    match base {
        NamedBase::Class(name) => Some(Base::OfClass(ClassId(numbers.number(name)?))),
        NamedBase::Letter(BOOLEAN_LETTER) => Some(Base::Boolean),
        NamedBase::Letter(BYTE_LETTER) => Some(Base::Byte),
        NamedBase::Letter(CHAR_LETTER) => Some(Base::Char),
        NamedBase::Letter(SHORT_LETTER) => Some(Base::Short),
        NamedBase::Letter(INT_LETTER) => Some(Base::Int),
        NamedBase::Letter(LONG_LETTER) => Some(Base::Long),
        NamedBase::Letter(_) => None,
    }
}

/// The type of objects that is named, where it is one and its class is there.
pub fn type_in(numbers: &ClassNumbers, named: NamedType) -> Option<TypeRef>
    ensures { (classes : List DeclaredClass) → NumbersClasses classes numbers.now.numbers
        → result ≡ if_few (type_named named.entry) (type_in classes (type_named named.entry)) }
{
    let base = base_in(numbers, named.base)?;
    let dims = u8::try_from(named.dimensions).ok()?;
    match base {
        Base::OfClass(_) => Some(TypeRef { dims, base }),
        _ => {
            if dims == 0 {
                None
            } else {
                Some(TypeRef { dims, base })
            }
        }
    }
}

/// The kind of a type; none for V, floats and doubles.
pub fn kind_in(numbers: &ClassNumbers, named: NamedType) -> Option<Kind>
    ensures { (classes : List DeclaredClass) → NumbersClasses classes numbers.now.numbers
        → result ≡ few_kind_in classes (type_named named.entry) }
{
    let base = base_in(numbers, named.base)?;
    let dims = u8::try_from(named.dimensions).ok()?;
    if dims > 0 {
        return Some(Kind::Ref(TypeRef { dims, base }));
    }
    Some(match base {
        Base::Boolean => Kind::Boolean,
        Base::Byte => Kind::Byte,
        Base::Char => Kind::Char,
        Base::Short => Kind::Short,
        Base::Int => Kind::Int,
        Base::Long => Kind::Long,
        Base::OfClass(_) => Kind::Ref(TypeRef { dims, base }),
    })
}

// The kind of a declared type, which a linked program has.
fn declared_kind(numbers: &ClassNumbers, named: NamedType) -> Kind
    ensures { (classes : List DeclaredClass) → NumbersClasses classes numbers.now.numbers
        → result ≡ few_kind classes (type_named named.entry) }
{
    match kind_in(numbers, named) {
        Some(kind) => kind,
        None => Kind::Int,
    }
}

/// The types of the objects that these texts name as Class entries.
/// `NoMemory` where memory runs out.
pub fn types_by_text(
    alloc: Global,
    numbers: &ClassNumbers,
    texts: &[&[u8]],
) -> Result<Vec<Option<TypeRef>>, NoMemory>
    ensures { (classes : List DeclaredClass) → NumbersClasses classes numbers.now.numbers
        → IfOk result (λ types.
        types.items ≡ map (λ (t : Bor (List ℕ)). type_of_name classes t.now) texts.now) }
{
    let mut types = Vec::with_capacity(alloc, texts.len())?;
    for text in texts {
        types.push(type_in(numbers, class_type(*text)))?;
    }
    Ok(types)
}

/// What a descriptor declares: of a method its parameters and its result, of a field its kind.
#[derive(Drop)]
pub struct Kinds {
    pub params: Shared<Kind>,
    pub result: Option<Kind>,
    pub field: Kind,
}

impl Kinds {
    /// What the descriptor declares. `NoMemory` where memory runs out.
    pub fn of(alloc: Global, numbers: &ClassNumbers, descriptor: &[u8]) -> Result<Kinds, NoMemory>
        ensures { (classes : List DeclaredClass) → NumbersClasses classes numbers.now.numbers
            → HaveFewDimensions (types_in descriptor.now)
            → IfOk result (DeclaresKinds classes descriptor.now) }
    {
        let types = types_in(alloc, descriptor)?;
        let mut kinds = kinds_of(alloc, numbers, types.as_slice())?;
        let result = result_of(numbers, types.as_slice());
        let field = field_of(kinds.as_slice());
        let _ = kinds.pop();
        let params = Shared::new(kinds)?;
        Ok(Kinds {
            params,
            result,
            field,
        })
    }
}

// The kinds of declared types.
fn kinds_of(
    alloc: Global,
    numbers: &ClassNumbers,
    types: &[NamedType],
) -> Result<Vec<Kind>, NoMemory>
    ensures { (classes : List DeclaredClass) → NumbersClasses classes numbers.now.numbers
        → IfOk result (λ kinds.
        kinds.items ≡ map (λ t. few_kind classes (type_named t)) types.now) }
{
    let mut kinds = Vec::with_capacity(alloc, types.len())?;
    for named in types {
        kinds.push(declared_kind(numbers, *named))?;
    }
    Ok(kinds)
}

// The kind of a result, the last type of a method's descriptor.
fn result_of(numbers: &ClassNumbers, types: &[NamedType]) -> Option<Kind>
    ensures { (classes : List DeclaredClass) → NumbersClasses classes numbers.now.numbers
        → result ≡ option_and_then (λ t. few_kind_in classes (type_named t)) (last_of types.now) }
{
    kind_in(numbers, *types.last()?)
}

// The kind of a field, of whose descriptor these are the kinds.
fn field_of(kinds: &[Kind]) -> Kind
    ensures { result ≡ unwrap_or (slice_get kinds.now 0) Kind.Int }
{
    match kinds.first() {
        Some(first) => *first,
        None => Kind::Int,
    }
}
