// Which items of a method come by an object that nothing else leads to yet, and which of these objects a
// local is to hold.

ghost use Rattle.std.specs.Prelude.{◌≡◌, ◌++◌, ◌<◌, ◌≤◌, ◌+◌, ℕ, IfOk, None, OnOk, Some, if◌then◌else◌, is_some, length, nat_lt};
ghost use Rattle.std.specs.List.{list_any, range_with_len};
ghost use Rattle.std.specs.Option.{option_copied, option_map};
ghost use Rattle.fm_base.specs.declared.ids.MethodId.{MethodId};
ghost use Rattle.fm_base.specs.declared.limits.TheConstants.{MAX_LOCAL_WORDS};
ghost use Rattle.fm_code.specs.Edges.{insn_of};
ghost use Rattle.fm_code.specs.declared.code_array.Code.{Code};
ghost use Rattle.fm_conn.specs.Classes.{AreClassesOf};
ghost use Rattle.fm_conn.specs.Nodes.{depth_at};
ghost use Rattle.fm_conn.specs.Shapes.{method_with, HasUsesIn, IsCoded};
ghost use Rattle.fm_types.specs.Named.{NamesMember};
ghost use Rattle.fm_conn.specs.Summaries.{linked_by, AreSummariesOf};
ghost use Rattle.fm_conn.specs.inner.PairLists.{IsCallIn};
ghost use Rattle.fm_types.specs.Typed.{state_at, IsTyping};
ghost use Rattle.fm_types.specs.Typings.{known_state, states_of};
ghost use Rattle.fm_world.specs.Members.{methods_of};
ghost use Rattle.fm_world.specs.Programs.{code_at, method_info};
ghost use Rattle.fm_place.specs.FactsBy.{facts_by};
ghost use Rattle.fm_place.specs.Sites.{captured_before, constructs, has_reference_result, holder_after, holder_room, is_captured, is_captured_site, makes_array, may_give_old, names_constructor, receives_new, site_after, site_at, site_class, site_kind, sites_of};
ghost use Rattle.fm_place.specs.inner.SiteTests.{facts_in, has_parameter_in, is_doubled_in, is_old_end, is_old_entry, is_parameter_in, lists_old, new_item_in, typed_in, IsKnown};

use crate::limits::MAX_HOLDING_STACK_WORDS;
use fm_base::limits::MAX_LOCAL_WORDS;
use fm_base::{MethodId, NoMemory};
use fm_check_rows::is_constructor;
use fm_code::{Code, Insn};
use fm_conn::{
    AnalysedMethod, Classes, End2, Summaries, is_reference, is_reference_kind, words_taken,
};
use fm_types::{KnownState, SharedSlots, Slot, Typing};
use fm_world::{Body, Call, Program, Use};
use std::alloc::Global;

/// An item of a method that comes by an object that nothing else leads to yet.
#[derive(Clone, Copy, Debug, PartialEq, Eq)]
pub struct Site {
    pub item: u32,
    /// The class of its object.
    pub class: u32,
    /// Whether no one outside of the method reaches what the class has.
    pub captured: bool,
    /// The number of the local that holds its object, counted from 0 among those that are added.
    pub holder: Option<u16>,
}

/// The sites of a method in the order of its items. Typing, classes and summaries are those of this
/// method. Takes memory for the sites, and for the methods to which one call can lead.
pub fn sites(
    alloc: Global,
    program: &Program,
    method: MethodId,
    typing: &Typing,
    classes: &Classes,
    summaries: &Summaries,
) -> Result<Vec<Site>, NoMemory>
    requires method { method.0 < length (methods_of program.now.outline.classes) }
    requires coded { IsCoded (method_info program.now method.0).body }
    requires uses { HasUsesIn program.now }
    requires typing { IsTyping program.now method.0 (states_of typing.now) }
    requires summaries { AreSummariesOf program.now.outline summaries.now }
    requires classes { (code : Code) → code_at program.now method.0 ≡ Some code
        → AreClassesOf (linked_by summaries.now)
        (method_with program.now method.0 code (states_of typing.now)) classes.now }
    ensures { (code : Code) → code_at program.now method.0 ≡ Some code
        → IfOk result (λ found. found.items ≡ sites_of (facts_by classes.now summaries.now)
        (method_with program.now method.0 code (states_of typing.now))) }
{
    match &program.method(method).body {
        Body::Coded(code) => {
            let method = AnalysedMethod {
                program,
                number: method,
                code,
                typing,
            };
            sites_of(
                alloc,
                &JoinedMethod {
                    method,
                    classes,
                    summaries,
                },
            )
        }
        _ => unreachable!(),
    }
}

// The same of what is known of the method.
#[tactic(auto, unfolding(crate::specs::Sites::sites_of))]
fn sites_of(alloc: Global, known: &JoinedMethod<'_>) -> Result<Vec<Site>, NoMemory>
    requires { IsKnown known.now }
    ensures { IfOk result
        (λ found. found.items ≡ sites_of (facts_in known.now) (typed_in known.now)) }
{
    let mut found = Vec::new(alloc);
    let mut captured = 0;
    let count = item_count(known.method.code)?;
    for item in 0..count {
        captured = known.push_site(alloc, &mut found, captured, item)?;
    }
    Ok(found)
}

/// The number of items; `NoMemory` where it doesn't fit 32 bits, which no code array reaches.
pub fn item_count(code: &Code) -> Result<u32, NoMemory>
    ensures { IfOk result (λ count. count ≡ length code.now.items) }
{
    match u32::try_from(code.items.len()) {
        Ok(count) => Ok(count),
        Err(_) => Err(NoMemory),
    }
}

// A method, its classes, and which ends of the methods that it calls are linked.
#[derive(Clone, Copy)]
pub struct JoinedMethod<'a> {
    pub method: AnalysedMethod<'a>,
    pub classes: &'a Classes,
    pub summaries: &'a Summaries,
}

impl JoinedMethod<'_> {
    // Puts the item after the last site, if it is one. Returns how many captured sites there are now.
    fn push_site(
        &self,
        alloc: Global,
        found: &mut Vec<Site>,
        captured: u32,
        item: u32,
    ) -> Result<u32, NoMemory>
        requires known { IsKnown self.now }
        requires inside { item < length self.now.method.code.now.items }
        requires few { item < 4294967295 }
        requires captured { captured ≡ captured_before (facts_in self.now) (typed_in self.now) item }
        ensures found { OnOk result (found.new.items ≡ found.old.items
            ++ site_at (facts_in self.now) (typed_in self.now) item) }
        ensures captured { IfOk result (λ count. count
            ≡ captured_before (facts_in self.now) (typed_in self.now) (item + 1)) }
    {
        let is_site = self.is_site(alloc, item)?;
        if !is_site {
            return Ok(captured);
        }
        let site = self.site_after(captured, item)?;
        found.push(site)?;
        Ok(count_after(captured, site.captured))
    }

    // A site, before which there are `captured` captured ones.
    fn site_after(&self, captured: u32, item: u32) -> Result<Site, NoMemory>
        requires known { IsKnown self.now }
        requires inside { item < length self.now.method.code.now.items }
        requires few { item < 4294967295 }
        ensures { IfOk result (λ site. site
            ≡ site_after (facts_in self.now) (typed_in self.now) captured item) }
    {
        let class = self.class_of_site(item)?;
        let is_captured = self.is_captured(class);
        let holder = if is_captured {
            holder_in(self.method.code, captured)
        } else {
            None
        };
        Ok(Site {
            item,
            class,
            captured: is_captured,
            holder,
        })
    }

    // The state of an item; none where it can't be reached.
    fn state_at(&self, item: u32) -> Option<&KnownState>
        ensures { option_map known_state (option_copied result)
            ≡ state_at (typed_in self.now).states item }
    {
        match self.method.typing.states.as_slice().get(item as usize) {
            Some(Some(state)) => Some(state),
            _ => None,
        }
    }

    // The class of the object that a site gives, which is on top of the stack at the next item.
    // `NoMemory` where there is no reference, which is at no site of a typed method of a linked
    // program.
    fn class_of_site(&self, item: u32) -> Result<u32, NoMemory>
        requires known { IsKnown self.now }
        requires inside { item < length self.now.method.code.now.items }
        requires few { item < 4294967295 }
        ensures { IfOk result (λ class. class
            ≡ site_class (facts_in self.now) (typed_in self.now) item) }
    {
        let Ok(top) = u16::try_from(self.depth_at(item + 1).saturating_sub(1)) else {
            return Err(NoMemory);
        };
        match self.classes.of_slot(item + 1, top) {
            Some(class) => Ok(class),
            None => Err(NoMemory),
        }
    }

    // How many words the stack has at an item.
    fn depth_at(&self, item: u32) -> usize
        ensures { result ≡ depth_at (typed_in self.now) item }
    {
        match self.state_at(item) {
            Some(state) => state.depth(),
            None => 0,
        }
    }

    // Whether no one outside of the method reaches what the class has.
    fn is_captured(&self, class: u32) -> bool
        requires { IsKnown self.now }
        ensures { result ≡ is_captured (facts_in self.now) (typed_in self.now) class }
    {
        if self.classes.of_global() == class {
            return false;
        }
        if self.classes.of_return() == class {
            return false;
        }
        !self.has_parameter_in(class)
    }

    // Whether a parameter is in the class.
    fn has_parameter_in(&self, class: u32) -> bool
        requires { IsKnown self.now }
        ensures { result ≡ has_parameter_in (facts_in self.now) (typed_in self.now) class
            (state_at (typed_in self.now).states 0) }
    {
        match self.state_at(0) {
            Some(state) => any_parameter_in(self, class, &state.locals),
            None => false,
        }
    }

    // Whether the local holds a reference at first, and is in the class.
    fn is_parameter_in(&self, class: u32, locals: &SharedSlots, k: u16) -> bool
        requires known { IsKnown self.now }
        requires inside { k < self.now.method.code.now.max_locals }
        ensures { result
            ≡ is_parameter_in (facts_in self.now) (typed_in self.now) class locals.now k }
    {
        is_reference(locals.slot(usize::from(k))) && self.classes.of_local(k) == class
    }

    // Whether the item is a site.
    fn is_site(&self, alloc: Global, item: u32) -> Result<bool, NoMemory>
        requires known { IsKnown self.now }
        requires inside { item < length self.now.method.code.now.items }
        ensures { IfOk result (λ is. is
            ≡ is_some (site_kind (facts_in self.now) (typed_in self.now) item)) }
    {
        let Some(state) = self.state_at(item) else {
            return Ok(false);
        };
        let insn = insn_of(self.method.code, item);
        if makes_array(insn) {
            return Ok(true);
        }
        if self.constructs(alloc, insn, state)? {
            return Ok(true);
        }
        match self.method.call_of(insn) {
            Some(call) => self.receives_new(alloc, call),
            None => Ok(false),
        }
    }

    // Whether a constructor is called, and the caller keeps the receiver in the word below it.
    fn constructs(&self, alloc: Global, insn: &Insn, state: &KnownState) -> Result<bool, NoMemory>
        requires { IsKnown self.now }
        ensures { IfOk result (λ is. (j : ℕ)
            → state_at (typed_in self.now).states j ≡ Some (known_state state.now)
            → is ≡ constructs (typed_in self.now) j insn.now) }
    {
        if !matches!(insn, Insn::Special(_)) {
            return Ok(false);
        }
        let resolved = self.method.use_at(insn);
        if !names_constructor(self.method.program, resolved) {
            return Ok(false);
        }
        let taken = words_taken(self.method.program, resolved, insn);
        let words = state.to_words(alloc)?;
        Ok(is_doubled(words.as_slice(), words.len().saturating_sub(taken)))
    }

    // Whether the call gives a reference, may lead to some method, and gives what is new whichever it
    // leads to.
    fn receives_new(&self, alloc: Global, call: Call) -> Result<bool, NoMemory>
        requires known { IsKnown self.now }
        requires call { IsCallIn self.now.method.program.now.outline call }
        ensures { IfOk result (λ is. is
            ≡ receives_new (facts_in self.now) (typed_in self.now) (Some call)) }
    {
        if !has_reference_result(self.method.program, call.method) {
            return Ok(false);
        }
        let targets = self.method.program.targets(alloc, call)?;
        if targets.is_empty() {
            return Ok(false);
        }
        Ok(!any_gives_old(self.summaries, targets.as_slice()))
    }
}

// Whether one of the methods may give what is old.
fn any_gives_old(summaries: &Summaries, targets: &[MethodId]) -> bool
    ensures { result ≡ list_any (λ (m : MethodId). lists_old summaries.now m.0) targets.now }
{
    for target in targets {
        if may_give_old(summaries, *target) {
            return true;
        }
    }
    false
}

// Whether one of the locals holds a reference at first, and is in the class.
fn any_parameter_in(known: &JoinedMethod<'_>, class: u32, locals: &SharedSlots) -> bool
    requires { IsKnown known.now }
    ensures { result ≡ list_any (is_parameter_in (facts_in known.now) (typed_in known.now) class locals.now)
        (range_with_len 0 known.now.method.code.now.max_locals) }
{
    let count = known.method.code.max_locals;
    for k in 0..count {
        if known.is_parameter_in(class, locals, k) {
            return true;
        }
    }
    false
}

// The number of the holder of a captured site before which there are `captured` others, where there
// is room.
fn holder_in(code: &Code, captured: u32) -> Option<u16>
    ensures { result ≡ (if nat_lt captured (holder_room code.now) then Some captured else None) }
{
    if captured < holder_room(code) {
        Some(captured as u16)
    } else {
        None
    }
}

// The instruction of an item.
fn insn_of(code: &Code, item: u32) -> &Insn
    requires { item < length code.now.items }
    ensures { insn_of code.now item ≡ Some result.now }
{
    &code.items.as_slice()[item as usize].insn
}

// How many captured sites there are after one more site.
fn count_after(captured: u32, is_captured: bool) -> u32
    requires { captured < 4294967295 }
    ensures { result ≡ captured + (if is_captured then 1 else 0) }
{
    if is_captured { captured + 1 } else { captured }
}

// How many sites are held at most.
fn holder_room(code: &Code) -> u32
    ensures room { result ≡ holder_room code.now }
    ensures few { result ≤ MAX_LOCAL_WORDS }
{
    if code.max_stack > MAX_HOLDING_STACK_WORDS {
        0
    } else {
        u32::from(MAX_LOCAL_WORDS.saturating_sub(code.max_locals))
    }
}

// Whether an array is made.
fn makes_array(insn: &Insn) -> bool
    ensures { result ≡ makes_array insn.now }
{
    matches!(
        insn,
        Insn::NewArray(_) | Insn::NewRefs(_) | Insn::MultiArray(..)
    )
}

// Whether what is named is a constructor.
fn names_constructor(program: &Program, resolved: Use) -> bool
    requires { NamesMember program.now.outline resolved }
    ensures { result ≡ names_constructor program.now.outline resolved }
{
    match resolved {
        Use::OfMethod(method, _) => is_constructor(program, method),
        _ => false,
    }
}

// The item of the `new` whose object is in this word, before its constructor has returned.
fn new_item_in(words: &[Slot], depth: usize) -> Option<u32>
    ensures { result ≡ new_item_in words.now depth }
{
    match words.get(depth) {
        Some(Slot::Uninit(item)) => Some(*item),
        _ => None,
    }
}

// Whether the word at this depth and the one below it hold the object of the same `new`.
fn is_doubled(words: &[Slot], depth: usize) -> bool
    ensures { result ≡ is_doubled_in words.now depth }
{
    if depth == 0 {
        return false;
    }
    match (new_item_in(words, depth), new_item_in(words, depth - 1)) {
        (Some(item), Some(below)) => item == below,
        _ => false,
    }
}

// Whether the method gives a reference.
#[tactic(auto, unfolding(fm_world::specs::Programs::method_info))]
fn has_reference_result(program: &Program, method: MethodId) -> bool
    requires { method.0 < length (methods_of program.now.outline.classes) }
    ensures { result ≡ has_reference_result program.now.outline method.0 }
{
    match program.method(method).result {
        Some(kind) => is_reference_kind(kind),
        None => false,
    }
}

// Whether the method's result may be, or lead to or from, what a parameter or a static field leads to.
fn may_give_old(summaries: &Summaries, method: MethodId) -> bool
    ensures { result ≡ lists_old summaries.now method.0 }
{
    if method.0 as usize >= summaries.methods.len() {
        return false;
    }
    let ends = &summaries.methods.as_slice()[method.0 as usize].ends;
    any_old(summaries, method, ends.as_slice())
}

// Whether one of the ends that it lists is another one than Return, and linked with it.
fn any_old(summaries: &Summaries, method: MethodId, entries: &[(End2, u32)]) -> bool
    requires { method.0 < length summaries.now.methods }
    ensures { result ≡ list_any (is_old_entry summaries.now method.0) entries.now }
{
    for entry in entries {
        if is_old(summaries, method, entry.0) {
            return true;
        }
    }
    false
}

// Whether the end is another one than Return, and linked with it.
fn is_old(summaries: &Summaries, method: MethodId, listed: End2) -> bool
    requires { method.0 < length summaries.now.methods }
    ensures { result ≡ is_old_end summaries.now method.0 listed }
{
    match listed {
        End2::Return => false,
        End2::Parameter(_) | End2::Global => summaries.linked(method, End2::Return, listed),
    }
}
