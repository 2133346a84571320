// The tables of a Code attribute (JVMS 4.7.3, 4.7.13, 4.7.14). They name offsets in the code, and the
// records name items. After `NoMemory` `out` may hold only some of the bytes.

ghost use Rattle.std.specs.Prelude.{◌≡◌, ◌++◌, length, IfOk, OnOk};
ghost use Rattle.std.specs.List.{AllByRecursion};
ghost use Rattle.fm_code.specs.ClassBytes.{counted, handler_bytes, line_bytes, offset_of, var_bytes};
ghost use Rattle.fm_code.specs.Fits.{FitsTwo};
ghost use Rattle.fm_write.specs.inner.Writable.{OffsetsFit, RangeRises};

use fm_base::NoMemory;
use fm_code::{Code, Handler, Line, Var, put_u16};
use std::alloc::Global;

/// The offset at which an item begins, or the code's length after the last one.
fn offset_at(code: &Code, index: u32) -> u16
    requires { OffsetsFit code.now }
    ensures { result ≡ offset_of code.now index }
{
    match code.items.get(index as usize) {
        Some(item) => item.offset as u16,
        None => code.length as u16,
    }
}

/// Appends the exception table after the number of its entries.
pub(crate) fn put_handlers(code: &Code, out: &mut Vec<u8>) -> Result<(), NoMemory>
    requires offsets { OffsetsFit code.now }
    requires count { FitsTwo (length code.now.handlers) }
    ensures { OnOk result
        (out.new.items ≡ out.old.items ++ counted (handler_bytes code.now) code.now.handlers) }
{
    put_u16(code.handlers.len() as u16, out)?;
    for handler in &code.handlers {
        put_handler(code, handler, out)?;
    }
    Ok(())
}

/// Appends an entry of the exception table.
fn put_handler(code: &Code, handler: &Handler, out: &mut Vec<u8>) -> Result<(), NoMemory>
    requires { OffsetsFit code.now }
    ensures { OnOk result (out.new.items ≡ out.old.items ++ handler_bytes code.now handler.now) }
{
    put_u16(offset_at(code, handler.start), out)?;
    put_u16(offset_at(code, handler.end), out)?;
    put_u16(offset_at(code, handler.handler), out)?;
    put_u16(handler.catch_class, out)
}

/// The bytes of a LineNumberTable after its length.
pub(crate) fn lines_body(alloc: Global, code: &Code, lines: &[Line]) -> Result<Vec<u8>, NoMemory>
    requires offsets { OffsetsFit code.now }
    requires count { FitsTwo (length lines.now) }
    ensures { IfOk result (λ bytes. bytes.items ≡ counted (line_bytes code.now) lines.now) }
{
    let mut out = Vec::new(alloc);
    put_u16(lines.len() as u16, &mut out)?;
    for line in lines {
        put_u16(offset_at(code, line.item), &mut out)?;
        put_u16(line.line, &mut out)?;
    }
    Ok(out)
}

/// The bytes of a LocalVariableTable or a LocalVariableTypeTable after its length.
pub(crate) fn vars_body(alloc: Global, code: &Code, vars: &[Var]) -> Result<Vec<u8>, NoMemory>
    requires offsets { OffsetsFit code.now }
    requires count { FitsTwo (length vars.now) }
    requires ranges { AllByRecursion (RangeRises code.now) vars.now }
    ensures { IfOk result (λ bytes. bytes.items ≡ counted (var_bytes code.now) vars.now) }
{
    let mut out = Vec::new(alloc);
    put_u16(vars.len() as u16, &mut out)?;
    for var in vars {
        put_var(code, var, &mut out)?;
    }
    Ok(out)
}

/// Appends an entry of a LocalVariableTable or a LocalVariableTypeTable.
fn put_var(code: &Code, var: &Var, out: &mut Vec<u8>) -> Result<(), NoMemory>
    requires offsets { OffsetsFit code.now }
    requires range { RangeRises code.now var.now }
    ensures { OnOk result (out.new.items ≡ out.old.items ++ var_bytes code.now var.now) }
{
    let start = offset_at(code, var.start);
    put_u16(start, out)?;
    put_u16(offset_at(code, var.end) - start, out)?;
    put_u16(var.name, out)?;
    put_u16(var.kind, out)?;
    put_u16(var.index, out)
}
