// The connectivity classes of a method, for given summaries.

ghost use Rattle.std.specs.Prelude.{◌≡◌, ◌<◌, IfOk, Some, length};
ghost use Rattle.fm_code.specs.declared.code_array.Code.{Code};
ghost use Rattle.fm_flow.specs.Flow.{IsFlowOf};
ghost use Rattle.fm_types.specs.Typed.{IsTyping};
ghost use Rattle.fm_types.specs.Typings.{states_of};
ghost use Rattle.fm_world.specs.Members.{methods_of};
ghost use Rattle.fm_world.specs.Programs.{code_at, method_info};
ghost use Rattle.fm_conn.specs.Classes.{AreClassesOf};
ghost use Rattle.fm_conn.specs.Shapes.{method_with, HasUsesIn, IsCoded, IsFlowAt};
ghost use Rattle.fm_conn.specs.Summaries.{linked_by, AreSummariesOf};
ghost use Rattle.fm_conn.specs.inner.PairLists.{method_in, IsAsked, IsTypedAs};

use crate::analysed_method::AnalysedMethod;
use crate::class_numbers::Classes;
use crate::links::push_calls;
use crate::nodes::Nodes;
use crate::pairs::own_pairs;
use crate::summaries::Summaries;
use fm_base::{MethodId, NoMemory, components};
use fm_flow::Flow;
use fm_types::Typing;
use fm_world::{Body, Program};
use std::alloc::Global;

/// The classes of a method with these states and this flow, as the summaries link the ends of the
/// methods that it calls. Takes memory for two words of 32 bits for each node and each pair.
pub fn classes(
    alloc: Global,
    program: &Program,
    method: MethodId,
    typing: &Typing,
    flow: &Flow,
    summaries: &Summaries,
) -> Result<Classes, NoMemory>
    requires method { method.0 < length (methods_of program.now.outline.classes) }
    requires coded { IsCoded (method_info program.now method.0).body }
    requires uses { HasUsesIn program.now }
    requires typing { IsTyping program.now method.0 (states_of typing.now) }
    requires flow { IsFlowAt program.now method.0 flow.now }
    requires summaries { AreSummariesOf program.now.outline summaries.now }
    ensures { (code : Code) → code_at program.now method.0 ≡ Some code
        → IfOk result (AreClassesOf (linked_by summaries.now)
        (method_with program.now method.0 code (states_of typing.now))) }
{
    match &program.method(method).body {
        Body::Coded(code) => {
            let method = AnalysedMethod {
                program,
                number: method,
                code,
                typing,
            };
            classes_of(alloc, &method, flow, summaries)
        }
        _ => unreachable!(),
    }
}

// The same of the method with its code.
fn classes_of(
    alloc: Global,
    method: &AnalysedMethod<'_>,
    flow: &Flow,
    summaries: &Summaries,
) -> Result<Classes, NoMemory>
    requires asked { IsAsked method.now }
    requires typed { IsTypedAs method.now }
    requires flow { IsFlowOf method.now.code.now flow.now }
    requires summaries { AreSummariesOf method.now.program.now.outline summaries.now }
    ensures { IfOk result (AreClassesOf (linked_by summaries.now) (method_in method.now)) }
{
    let nodes = Nodes::of(alloc, method.code.max_locals, method.typing)?;
    let mut pairs = own_pairs(alloc, method, &nodes, flow)?;
    push_calls(alloc, &mut pairs, method, &nodes, summaries)?;
    let least = components(alloc, nodes.count(), pairs.as_slice())?;
    Ok(Classes { nodes, least })
}
