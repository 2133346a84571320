// Which ends of methods are linked, by numbers: equal ones are linked.

ghost use Rattle.std.specs.Prelude.{◌≡◌, ◌<◌, length};
ghost use Rattle.fm_conn.specs.Summaries.{end_number, is_linked, is_same_end, links};

use crate::ends::End2;
use fm_base::{MethodId, Seq};

/// Ends of one method, each once and with a number: two of them are linked where they have the same.
#[derive(Debug, Drop)]
pub struct Ends {
    pub ends: Seq<(End2, u32)>,
}

/// The ends of each method of a program, by the method's number.
#[derive(Debug, Drop)]
pub struct Summaries {
    pub methods: Seq<Ends>,
}

impl Summaries {
    /// Whether two ends of a method are linked. An end is linked with itself, and what isn't an end of
    /// the method with nothing. Takes no memory.
    pub fn linked(&self, m: MethodId, a: End2, b: End2) -> bool
        requires { m.0 < length self.now.methods }
        ensures { result ≡ is_linked self.now m.0 a b }
    {
        links(self.methods.as_slice()[m.0 as usize].ends.as_slice(), a, b)
    }
}

/// Whether both ends are listed with one number.
pub fn links(ends: &[(End2, u32)], a: End2, b: End2) -> bool
    ensures { result ≡ links ends.now a b }
{
    match (end_number(ends, a), end_number(ends, b)) {
        (Some(m), Some(n)) => m == n,
        _ => false,
    }
}

/// The number of an end, where it is listed.
pub fn end_number(ends: &[(End2, u32)], wanted: End2) -> Option<u32>
    ensures { result ≡ end_number ends.now wanted }
{
    for entry in ends {
        if is_same_end(entry.0, wanted) {
            return Some(entry.1);
        }
    }
    None
}

// Whether both are one end.
fn is_same_end(a: End2, b: End2) -> bool
    ensures { result ≡ is_same_end a b }
{
    match (a, b) {
        (End2::Parameter(k), End2::Parameter(l)) => k == l,
        (End2::Return, End2::Return) => true,
        (End2::Global, End2::Global) => true,
        _ => false,
    }
}
