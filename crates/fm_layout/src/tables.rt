// The tables of a method whose items have moved (JVMS 4.7.3, 4.7.12 to 4.7.14).

ghost use Rattle.std.specs.Prelude.{◌≡◌, IfOk, map};
ghost use Rattle.std.specs.List.{filter_map};
ghost use Rattle.fm_code.specs.Edges.{MeetsCodeRules};
ghost use Rattle.fm_layout.specs.Tables.{AreAnchors, moved_attribute, moved_handler, moved_line, moved_number, moved_tables, moved_var};

use crate::laying::Laid;
use fm_base::{NoMemory, Seq, number_at};
use fm_code::{Code, CodeAttr, Handler, Line, Var};
use std::alloc::Global;

/// The exception table, and the attributes that are kept of a Code attribute.
#[derive(Debug, PartialEq, Eq, Drop)]
pub struct Tables {
    pub handlers: Seq<Handler>,
    pub attributes: Seq<CodeAttr>,
}

/// The tables of laid-out code, in their order. A number of an old item, or of their end, goes to what
/// its anchor was laid out to; anchors are the new items to which jumps to the old ones go. Attributes
/// other than lines and variables are dropped.
pub fn move_tables(
    alloc: Global,
    code: &Code,
    laid: &Laid,
    anchors: &[u32],
) -> Result<Tables, NoMemory>
    requires spelled { MeetsCodeRules code.now }
    requires anchors { AreAnchors code.now laid.now anchors.now }
    ensures { IfOk result (λ tables. tables ≡ moved_tables code.now laid.now anchors.now) }
{
    let firsts = laid.firsts.as_slice();
    Ok(Tables {
        handlers: Seq::new(moved_handlers(alloc, firsts, anchors, &code.handlers)?),
        attributes: Seq::new(moved_attributes(alloc, firsts, anchors, &code.attributes)?),
    })
}

/// The laid item to which the number of an old item goes.
fn moved_number(firsts: &[u32], anchors: &[u32], number: u32) -> u32
    ensures { result ≡ moved_number firsts.now anchors.now number }
{
    number_at(firsts, number_at(anchors, number))
}

/// The moved entry of the exception table.
fn moved_handler(firsts: &[u32], anchors: &[u32], handler: Handler) -> Handler
    ensures { result ≡ moved_handler firsts.now anchors.now handler }
{
    Handler {
        start: moved_number(firsts, anchors, handler.start),
        end: moved_number(firsts, anchors, handler.end),
        handler: moved_number(firsts, anchors, handler.handler),
        catch_class: handler.catch_class,
    }
}

/// The moved line.
fn moved_line(firsts: &[u32], anchors: &[u32], line: Line) -> Line
    ensures { result ≡ moved_line firsts.now anchors.now line }
{
    Line {
        item: moved_number(firsts, anchors, line.item),
        line: line.line,
    }
}

/// The moved variable.
fn moved_var(firsts: &[u32], anchors: &[u32], var: Var) -> Var
    ensures { result ≡ moved_var firsts.now anchors.now var }
{
    Var {
        start: moved_number(firsts, anchors, var.start),
        end: moved_number(firsts, anchors, var.end),
        name: var.name,
        kind: var.kind,
        index: var.index,
    }
}

/// The moved entries of the exception table.
fn moved_handlers(
    alloc: Global,
    firsts: &[u32],
    anchors: &[u32],
    entries: &[Handler],
) -> Result<Vec<Handler>, NoMemory>
    ensures { IfOk result
        (λ moved. moved.items ≡ map (moved_handler firsts.now anchors.now) entries.now) }
{
    let mut moved = Vec::with_capacity(alloc, entries.len())?;
    for entry in entries {
        moved.push(moved_handler(firsts, anchors, *entry))?;
    }
    Ok(moved)
}

/// The moved lines.
fn moved_lines(
    alloc: Global,
    firsts: &[u32],
    anchors: &[u32],
    entries: &[Line],
) -> Result<Vec<Line>, NoMemory>
    ensures { IfOk result
        (λ moved. moved.items ≡ map (moved_line firsts.now anchors.now) entries.now) }
{
    let mut moved = Vec::with_capacity(alloc, entries.len())?;
    for entry in entries {
        moved.push(moved_line(firsts, anchors, *entry))?;
    }
    Ok(moved)
}

/// The moved variables.
fn moved_vars(
    alloc: Global,
    firsts: &[u32],
    anchors: &[u32],
    entries: &[Var],
) -> Result<Vec<Var>, NoMemory>
    ensures { IfOk result
        (λ moved. moved.items ≡ map (moved_var firsts.now anchors.now) entries.now) }
{
    let mut moved = Vec::with_capacity(alloc, entries.len())?;
    for entry in entries {
        moved.push(moved_var(firsts, anchors, *entry))?;
    }
    Ok(moved)
}

/// The moved attribute, or `None` for one that is dropped.
fn moved_attribute(
    alloc: Global,
    firsts: &[u32],
    anchors: &[u32],
    attribute: &CodeAttr,
) -> Result<Option<CodeAttr>, NoMemory>
    ensures { IfOk result
        (λ moved. moved ≡ moved_attribute firsts.now anchors.now attribute.now) }
{
    match attribute {
        CodeAttr::Lines(name, lines) => {
            let lines = moved_lines(alloc, firsts, anchors, lines)?;
            Ok(Some(CodeAttr::Lines(*name, Seq::new(lines))))
        }
        CodeAttr::Vars(name, types, vars) => {
            let vars = moved_vars(alloc, firsts, anchors, vars)?;
            Ok(Some(CodeAttr::Vars(*name, *types, Seq::new(vars))))
        }
        CodeAttr::Other(_) => Ok(None),
    }
}

/// The moved attributes that are kept.
fn moved_attributes(
    alloc: Global,
    firsts: &[u32],
    anchors: &[u32],
    attributes: &[CodeAttr],
) -> Result<Vec<CodeAttr>, NoMemory>
    ensures { IfOk result (λ moved. moved.items
        ≡ filter_map (moved_attribute firsts.now anchors.now) attributes.now) }
{
    let mut moved = Vec::new(alloc);
    for attribute in attributes {
        if let Some(kept) = moved_attribute(alloc, firsts, anchors, attribute)? {
            moved.push(kept)?;
        }
    }
    Ok(moved)
}
