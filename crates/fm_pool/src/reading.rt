// A constant pool read from its bytes.

ghost use Rattle.std.specs.Prelude.{◌≡◌, ◌↔◌, ℕ, ◌≤◌, length, take, IfOk, IsTrue, MatchResult};
ghost use Rattle.std.specs.List.{AllByRecursion};
ghost use Rattle.fm_code.specs.ConstantPool.{EntryIsValid, SpellsPool};
ghost use Rattle.fm_code.specs.declared.constant_pool.Pool.{Pool as PoolRecord};

use crate::entries::take_entries;
use crate::error::PoolFail;
use crate::known_entries::KnownEntries;
use crate::rules::{all_names_are_valid, texts_are_valid};
use fm_base::{NoMemory, Seq};
use fm_code::{Entry, Pool};
use fm_pool_texts::facts_of_entries;
use std::alloc::Global;

/// The constant pool that the bytes begin with, from constant_pool_count on, and the number of bytes
/// that spell it (JVMS 4.4). `Malformed` comes exactly where no pool spells a prefix of the bytes. Each
/// text is judged once, and no memory is taken for a length that the bytes only claim.
pub fn read_pool(alloc: Global, bytes: &[u8]) -> Result<(Pool, usize), PoolFail>
    // What is read is spelled by the bytes up to that number.
    ensures found { IfOk result (λ x. SpellsPool (take x.1 bytes.now) x.0) }
    ensures within { IfOk result (λ x. x.1 ≤ length bytes.now) }
    // What a prefix of the bytes spells is read, unless memory runs out.
    ensures read { (pool : PoolRecord) (n : ℕ) → SpellsPool (take n bytes.now) pool
        → MatchResult result (λ x. x.0 ≡ pool) (λ e. e ≡ PoolFail.NoMemory) }
    ensures malformed { result ≡ Err PoolFail.Malformed
        → (pool : PoolRecord) (n : ℕ) → ¬ SpellsPool (take n bytes.now) pool }
{
    let (entries, rest) = take_entries(alloc, bytes)?;
    let valid = are_valid(alloc, entries.as_slice())?;
    if !valid {
        return Err(PoolFail::Malformed);
    }
    let pool = Pool {
        entries: Seq::new(entries),
    };
    Ok((pool, bytes.len() - rest.len()))
}

/// Whether each entry meets its rule.
fn are_valid(alloc: Global, entries: &[Entry]) -> Result<bool, NoMemory>
    ensures { IfOk result (λ r. IsTrue r ↔ AllByRecursion (EntryIsValid entries.now) entries.now) }
{
    if !texts_are_valid(entries) {
        return Ok(false);
    }
    let facts = facts_of_entries(alloc, entries)?;
    Ok(all_names_are_valid(KnownEntries {
        entries,
        facts: facts.as_slice(),
    }))
}
