// The pairs of a plan: an item, and the number of a holder.

ghost use Rattle.std.specs.Prelude.{◌≡◌, ◌≤◌, ℕ, Bool, List, length};
ghost use Rattle.fm_place_weave.specs.ByPlan.{here, later, leading};
ghost use Rattle.fm_place_weave.specs.Conditions.{AreFlagged, AreLocals};

/// How many pairs, from the first one on, are of this item.
#[tactic(auto, using(crate::proofs::PairLemmas::leading_within))]
pub(crate) fn leading(pairs: &[(u32, u16)], item: usize) -> usize
    ensures count { result ≡ leading item pairs.now }
    ensures within { result ≤ length pairs.now }
{
    let mut count = 0;
    for pair in pairs {
        if pair.0 as usize != item {
            return count;
        }
        count += 1;
    }
    count
}

/// These pairs.
#[tactic(auto, using(crate::proofs::PairLemmas::locals_here, crate::proofs::PairLemmas::flags_here))]
pub fn here(pairs: &[(u32, u16)], item: usize) -> &[(u32, u16)]
    ensures is { result.now ≡ here item pairs.now }
    ensures locals { (first : ℕ) → AreLocals first pairs.now → AreLocals first result.now }
    ensures flags { (looped : List Bool) → AreFlagged looped pairs.now → AreFlagged looped result.now }
{
    &pairs[..leading(pairs, item)]
}

/// The pairs after them.
#[tactic(auto, using(crate::proofs::PairLemmas::locals_later, crate::proofs::PairLemmas::flags_later))]
pub fn later(pairs: &[(u32, u16)], item: usize) -> &[(u32, u16)]
    ensures is { result.now ≡ later item pairs.now }
    ensures locals { (first : ℕ) → AreLocals first pairs.now → AreLocals first result.now }
    ensures flags { (looped : List Bool) → AreFlagged looped pairs.now → AreFlagged looped result.now }
{
    &pairs[leading(pairs, item)..]
}
