// Laws of the edges of code and of live locals, each as the contract of a function that does nothing.

ghost use Rattle.std.specs.Prelude.{◌≡◌, ℕ, ◌↔◌, Some, Contains, map};
ghost use Rattle.std.specs.List.{range_with_len};
ghost use Rattle.fm_code.specs.Edges.{MeetsCodeRules, IsEdge, edges_listed, IsReachable, FallsOff};
ghost use Rattle.fm_code.specs.EdgesExample.{example_code, example_edges, falling_code};
ghost use Rattle.fm_code.specs.Live.{Keeps, Live, Loads};
ghost use Rattle.fm_code.specs.Members.{code_of};
ghost use Rattle.fm_code.specs.Spells.{HasSpelling};
ghost use Rattle.fm_code.specs.declared.class_file.ClassDef.{ClassDef};
ghost use Rattle.fm_code.specs.declared.class_file.Member.{Member};
ghost use Rattle.fm_code.specs.declared.code_array.Code.{Code};

/// The code of a method meets the rules of a Code attribute, where some bytes spell its record.
pub fn law_code_of_method()
    ensures { (c : ClassDef) (m : Member) (code : Code)
        → HasSpelling c → Contains c.methods m → code_of m ≡ Some code → MeetsCodeRules code }
{}

/// The edges of an item are those of a list that computes, and at a code that is written out they are
/// the ones that its reader expects: of a loop, a switch and a handler. The handler is reached by its
/// edge alone, and by that edge a local is live which it loads; one isn't live where it is stored over.
/// Control falls off the end of a second code.
pub fn law_edges()
    ensures listed { (code : Code) (j next : ℕ)
        → (IsEdge code j next) ↔ (Contains (edges_listed code j) next) }
    ensures example_meets_rules { MeetsCodeRules example_code }
    ensures example { map (edges_listed example_code) (range_with_len 0 13) ≡ example_edges }
    ensures handler_reached { IsReachable example_code 7 }
    ensures live_by_handler { Live example_code 0 3 }
    ensures stored_over { ¬ Live example_code 2 7 }
    ensures falling_meets_rules { MeetsCodeRules falling_code }
    ensures falls_off { FallsOff falling_code }
{}

/// A local is live at an item that loads from it, and at an item that doesn't store over it and has an
/// edge to one where it is live.
pub fn law_live()
    ensures at_load { (code : Code) (k j : ℕ) → Loads code k j → Live code k j }
    ensures before_edge { (code : Code) (k j next : ℕ)
        → IsEdge code j next → Live code k next → Keeps code k j → Live code k j }
{}
