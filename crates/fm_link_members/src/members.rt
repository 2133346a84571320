// The fields, or the methods, of all classes by number, and look-ups of them by name and descriptor.

ghost use Rattle.std.specs.Prelude.{◌≡◌, ◌+◌, ◌<◌, ◌&&◌, ℕ, IfOk, List, Some, length, nat_eq, slice_get, slice_index, slice_set, unwrap_or, if◌then◌else◌};
ghost use Rattle.std.specs.List.{slice_index_or};
ghost use Rattle.fm_link_supers.specs.inner.Hierarchy.{IsHierarchy};
ghost use Rattle.fm_link_members.specs.inner.MemberRows.{no_row, section_of, AreSections};
ghost use Rattle.fm_link_members.specs.inner.MemberTables.{nearest_in, number_of_key, own_in, passes_of, AreNearest, AreSignatures};
ghost use Rattle.fm_link_members.specs.inner.NearestSteps.{top_of, AreTops, HasRooms, PutsMember, PutsSection};
ghost use Rattle.fm_world.specs.declared.declarations.DeclaredClass.{DeclaredClass};
ghost use Rattle.fm_world.specs.inner.Layers.{HasRoom, IsTable, KeepsTables};

use fm_base::NoMemory;
use fm_code::{ACC_PRIVATE, ACC_STATIC, has_flag};
use fm_link_names::{at, number_of};
use fm_link_supers::Hierarchy;
use fm_world::Layers;
use std::alloc::Global;
use std::collections::BTreeMap;

/// A field or a method: its class, its name and its descriptor by the numbers of their texts, its flags.
#[derive(Clone, Copy, Debug)]
pub struct MemberRow {
    pub class: u32,
    pub name: u32,
    pub descriptor: u32,
    pub flags: u16,
}

/// Fields or methods by number, and for each class the number of its first one; at the end their count.
#[derive(Drop)]
pub struct Members {
    pub rows: Vec<MemberRow>,
    pub first: Vec<u32>,
}

impl Members {
    /// The numbers of a class's members: from the first up to the second.
    pub fn of_class(&self, class: u32) -> (u32, u32)
        ensures { result ≡ section_of self.now.first.items class }
    {
        let place = class as usize;
        match (self.first.get(place), self.first.get(place + 1)) {
            (Some(start), Some(end)) => (*start, *end),
            _ => (0, 0),
        }
    }

    /// The member of that number.
    pub fn row(&self, member: u32) -> Option<MemberRow>
        ensures { result ≡ slice_get self.now.rows.items member }
    {
        self.rows.get(member as usize).copied()
    }
}

/// The member of that number; an empty row past the end.
pub fn row_at(rows: &[MemberRow], member: u32) -> MemberRow
    ensures { result ≡ slice_index_or rows.now member no_row }
{
    match rows.get(member as usize) {
        Some(row) => *row,
        None => MemberRow {
            class: 0,
            name: 0,
            descriptor: 0,
            flags: 0,
        },
    }
}

/// A number for each name with a descriptor: that of the first member that has them.
#[derive(Drop)]
pub struct Signatures {
    numbers: BTreeMap<(u32, u32), u32>,
    /// the signature of each member
    pub of_members: Vec<u32>,
    /// all signatures are below
    pub count: u32,
}

impl Signatures {
    /// The signatures of these members.
    pub fn of(alloc: Global, rows: &[MemberRow]) -> Result<Signatures, NoMemory>
        ensures { IfOk result (λ signatures. AreSignatures rows.now signatures) }
    {
        let count = number_of(rows.len())?;
        let mut numbers = BTreeMap::new(alloc);
        let mut of_members = Vec::new(alloc);
        for place in 0..count {
            let row = row_at(rows, place);
            let signature = add_signature(&mut numbers, row.name, row.descriptor, place)?;
            of_members.push(signature)?;
        }
        Ok(Signatures {
            numbers,
            of_members,
            count,
        })
    }

    /// The signature of a member; 0 past the end.
    pub fn of_member(&self, member: u32) -> u32
        ensures { result ≡ slice_index self.now.of_members.items member }
    {
        match self.of_members.get(member as usize) {
            Some(signature) => *signature,
            None => 0,
        }
    }

    /// The signature of a name and a descriptor, where a member has it.
    pub fn number(&self, name: u32, descriptor: u32) -> Option<u32>
        ensures { result ≡ number_of_key self.now.numbers name descriptor }
    {
        self.numbers.get(&(name, descriptor)).copied()
    }
}

/// The number at a key, which is put there where the map has none: for members the signature of a name and
/// a descriptor.
pub(crate) fn add_signature(
    numbers: &mut BTreeMap<(u32, u32), u32>,
    name: u32,
    descriptor: u32,
    fresh: u32,
) -> Result<u32, NoMemory>
    ensures number { IfOk result (λ signature.
        signature ≡ unwrap_or (number_of_key numbers.old name descriptor) fresh) }
    ensures updates { IfOk result (λ signature. (n d : ℕ) → number_of_key numbers.new n d
        ≡ (if nat_eq name n && nat_eq descriptor d then Some signature
        else number_of_key numbers.old n d)) }
{
    match numbers.get(&(name, descriptor)) {
        Some(number) => Ok(*number),
        None => {
            numbers.insert((name, descriptor), fresh)?;
            Ok(fresh)
        }
    }
}

/// For each class a table that has, by signature, the nearest member of it and its superclasses.
#[derive(Drop)]
pub struct Nearest {
    pub layers: Layers,
    pub tops: Vec<u32>,
}

/// Which members a table has.
#[derive(Clone, Copy, Debug)]
pub enum MemberFilter {
    All,
    // Those that aren't static.
    OfObjects,
    // Those that are neither static nor private.
    Selectable,
}

impl Nearest {
    /// The tables of all classes.
    pub fn of(
        alloc: Global,
        members: &Members,
        signatures: &Signatures,
        hierarchy: &Hierarchy,
        kept: MemberFilter,
    ) -> Result<Nearest, NoMemory>
        requires { AreSignatures members.now.rows.items signatures.now }
        ensures { IfOk result (λ nearest. (classes : List DeclaredClass)
            → IsHierarchy classes hierarchy.now → AreSections classes members.now
            → AreNearest classes members.now.rows.items signatures.now.of_members.items
            (passes_of kept) nearest) }
    {
        let mut nearest = Nearest {
            layers: Layers::new(alloc, signatures.count)?,
            tops: vec![in alloc; 0; hierarchy.parents.len()]?,
        };
        for class in &hierarchy.order {
            let parent = at(&hierarchy.parents, *class);
            let top = nearest.top_over(members, signatures, *class, parent, kept)?;
            nearest.set_top(*class, top);
        }
        Ok(nearest)
    }

    // The table of a class; the empty one where there is none.
    fn top(&self, class: Option<u32>) -> u32
        ensures { result ≡ top_of self.now.tops.items class }
    {
        match class {
            Some(class) => match self.tops.get(class as usize) {
                Some(top) => *top,
                None => 0,
            },
            None => 0,
        }
    }

    // Gives a table to a class.
    fn set_top(&mut self, class: u32, top: u32)
        ensures tops { self.new.tops.items ≡ slice_set self.old.tops.items class top }
        ensures layers { self.new.layers ≡ self.old.layers }
    {
        let place = class as usize;
        if place < self.tops.len() {
            self.tops[place] = top;
        }
    }

    // A table with the members of a class over that of its superclass.
    fn top_over(
        &mut self,
        members: &Members,
        signatures: &Signatures,
        class: u32,
        parent: Option<u32>,
        kept: MemberFilter,
    ) -> Result<u32, NoMemory>
        requires signatures { AreSignatures members.now.rows.items signatures.now }
        requires tables { AreTops self.old }
        requires room { HasRooms self.old.layers (length members.now.rows.items) }
        ensures tops { self.new.tops ≡ self.old.tops }
        ensures keeps { KeepsTables self.old.layers self.new.layers }
        ensures puts { IfOk result (PutsSection self.old.layers self.new.layers
            members.now.rows.items signatures.now.of_members.items (passes_of kept)
            (section_of members.now.first.items class) (top_of self.old.tops.items parent)) }
    {
        let inherited = self.top(parent);
        let (start, end) = members.of_class(class);
        put_section(
            &mut self.layers,
            members.rows.as_slice(),
            signatures.of_members.as_slice(),
            (start, end),
            inherited,
            kept,
        )
    }

    /// The nearest member of the signature.
    pub fn get(&self, class: u32, signature: u32) -> Option<u32>
        ensures { result ≡ nearest_in self.now class signature }
    {
        match self.tops.get(class as usize) {
            Some(top) => self.layers.get(*top, signature),
            None => None,
        }
    }

    /// The class's own member of the signature, in a table that has all members.
    pub fn own(&self, members: &Members, class: u32, signature: u32) -> Option<u32>
        ensures { result ≡ own_in self.now members.now.rows.items signature class }
    {
        let member = self.get(class, signature)?;
        let row = members.row(member)?;
        if row.class == class {
            Some(member)
        } else {
            None
        }
    }
}

// A table with members of the numbers from the first up to the second over another one. Of two with one
// signature the first one counts.
fn put_section(
    layers: &mut Layers,
    rows: &[MemberRow],
    signatures: &[u32],
    section: (u32, u32),
    inherited: u32,
    kept: MemberFilter,
) -> Result<u32, NoMemory>
    requires table { IsTable layers.old inherited }
    requires room { (k : ℕ) → k < length signatures.now
        → HasRoom layers.old (slice_index signatures.now k) }
    requires one_each { length signatures.now ≡ length rows.now }
    ensures keeps { KeepsTables layers.old layers.new }
    ensures puts { IfOk result (PutsSection layers.old layers.new rows.now signatures.now
        (passes_of kept) section inherited) }
{
    let (start, end) = section;
    let mut left = end;
    let mut table = inherited;
    while left > start {
        left -= 1;
        table = put_kept(layers, rows, signatures, table, left, kept)?;
    }
    Ok(table)
}

// A table with one member over another one, where the member is kept.
fn put_kept(
    layers: &mut Layers,
    rows: &[MemberRow],
    signatures: &[u32],
    table: u32,
    member: u32,
    kept: MemberFilter,
) -> Result<u32, NoMemory>
    requires table { IsTable layers.old table }
    requires room { (k : ℕ) → k < length signatures.now
        → HasRoom layers.old (slice_index signatures.now k) }
    requires one_each { length signatures.now ≡ length rows.now }
    ensures keeps { KeepsTables layers.old layers.new }
    ensures puts { IfOk result (PutsMember layers.old layers.new rows.now signatures.now
        (passes_of kept) table member) }
{
    let place = member as usize;
    if place < rows.len() && is_kept(rows[place].flags, kept) {
        layers.put(table, signatures[place], member)
    } else {
        Ok(table)
    }
}

// Whether a table has members of these flags.
fn is_kept(flags: u16, kept: MemberFilter) -> bool
    ensures { result ≡ passes_of kept flags }
{
    match kept {
        MemberFilter::All => true,
        MemberFilter::OfObjects => !has_flag(flags, ACC_STATIC),
        MemberFilter::Selectable => !has_flag(flags, ACC_STATIC) && !has_flag(flags, ACC_PRIVATE),
    }
}
