// The shapes of all methods of a program.

ghost use Rattle.std.specs.Prelude.{◌≡◌, ◌<◌, IfOk, Some, length};
ghost use Rattle.fm_summ_shapes.specs.Analysed.{AreAnalysable, AreLeastShapes, IsLeastShape, IsLeastShapeOf};
ghost use Rattle.fm_world.specs.Members.{methods_of};
ghost use Rattle.fm_world.specs.Programs.{code_at};

use crate::typed::Typed;
use fm_base::{MethodId, NoMemory, Seq};
use fm_code::Code;
use fm_conn::{Shape, shape};
use fm_world::{Body, Program};
use std::alloc::Global;

/// The shapes of all methods in their order, by least typings: an empty one of a method without code.
/// Takes memory for all shapes, and for the typing and the pairs of one method at a time.
pub fn shapes_of(alloc: Global, program: &Program) -> Result<Vec<Shape>, NoMemory>
    requires { AreAnalysable program.now }
    ensures { IfOk result (λ shapes. AreLeastShapes program.now shapes.items) }
{
    let mut shapes = Vec::new(alloc);
    for number in 0..program.methods() {
        let made = shape_of(alloc, program, MethodId(number))?;
        shapes.push(made)?;
    }
    Ok(shapes)
}

// The shape of one method.
fn shape_of(alloc: Global, program: &Program, method: MethodId) -> Result<Shape, NoMemory>
    requires analysable { AreAnalysable program.now }
    requires inside { method.0 < length (methods_of program.now.outline.classes) }
    ensures { IfOk result (IsLeastShape program.now method.0) }
{
    match &program.method(method).body {
        Body::Coded(code) => shape_of_code(alloc, program, method, code),
        _ => {
            Ok(Shape {
                ends: Seq::empty(alloc),
                calls: Seq::empty(alloc),
            })
        }
    }
}

// The same of a method with this code.
fn shape_of_code(
    alloc: Global,
    program: &Program,
    method: MethodId,
    code: &Code,
) -> Result<Shape, NoMemory>
    requires analysable { AreAnalysable program.now }
    requires code { code_at program.now method.0 ≡ Some code.now }
    ensures { IfOk result (IsLeastShapeOf program.now method.0 code.now) }
{
    let typed = Typed::of(alloc, program, method, code)?;
    shape(alloc, program, method, &typed.typing, &typed.flow)
}
