// The entries by which instructions call the static methods of FreeMe:
// free(Ljava/lang/Object;)V, link(Ljava/lang/Object;Ljava/lang/Object;)Ljava/lang/Object; and
// freeChain(Ljava/lang/Object;)V.

ghost use Rattle.std.specs.Prelude.{◌≡◌, ◌+◌, ◌≤◌, ◌<◌, ◌^◌, length, IfErr, IfOk, OnOk};
ghost use Rattle.fm_chain.specs.ChainEntries.{calls_with, IsRefused, sought_chain, with_chains};
ghost use Rattle.fm_chain.specs.inner.ChainPlaces.{missing_in, places_in};
ghost use Rattle.fm_code.specs.ClassBytes.{pool_bytes};
ghost use Rattle.fm_code.specs.ConstantPool.{SpellsPool};

use crate::calls::Calls;
use fm_base::NoMemory;
use fm_code::{ClassDef, Pool};
use fm_pool::{
    AddFail, FREE_CLASS, FREE_DESCRIPTOR, FreePlaces, MAX_INDICES, MethodPlaces, Missing,
};
use std::alloc::Global;

const LINK_NAME: &[u8] = b"link";

const LINK_DESCRIPTOR: &[u8] = b"(Ljava/lang/Object;Ljava/lang/Object;)Ljava/lang/Object;";

// Its descriptor is that of free.
const CHAIN_NAME: &[u8] = b"freeChain";

/// A pool with the entries of the methods of FreeMe.
#[derive(Debug, Drop)]
pub struct ChainPool {
    pub pool: Pool,
    /// The indices of the Methodrefs.
    pub calls: Calls,
}

impl ChainPool {
    /// The pool of the class with what is missing: each of the thirteen entries is looked for by its content,
    /// at its lowest index, and what isn't there is put behind the others. `Full` comes exactly where it
    /// would have more than 65,535 indices.
    pub fn of(alloc: Global, class: &ClassDef) -> Result<ChainPool, AddFail>
        requires { SpellsPool (pool_bytes class.now.pool) class.now.pool }
        ensures pool { IfOk result (λ made. made.pool.entries ≡ with_chains class.now.pool.entries) }
        ensures calls { IfOk result (λ made. made.calls ≡ calls_with class.now.pool.entries) }
        ensures fits { OnOk result (length (with_chains class.now.pool.entries) ≤ 65535) }
        ensures refused { IfErr result (IsRefused (with_chains class.now.pool.entries)) }
    {
        let places = ChainPlaces::of(&class.pool);
        let count = class.pool.entries.len() + places.missing();
        if count > MAX_INDICES {
            return Err(AddFail::Full(count as u32));
        }
        let (calls, missing) = places.missing_entries(alloc, &class.pool)?;
        let mut pool = class.pool.copy(alloc)?;
        missing.append_to(alloc, &mut pool)?;
        Ok(ChainPool { pool, calls })
    }
}

// The lowest index of each of the thirteen entries in a pool.
#[derive(Clone, Copy, Debug)]
struct ChainPlaces {
    free: FreePlaces,
    link: MethodPlaces,
    // Its descriptor is that of free.
    free_chain: MethodPlaces,
}

impl ChainPlaces {
    // Where the entries are in the pool.
    fn of(pool: &Pool) -> ChainPlaces
        requires { length pool.now.entries < 2 ^ 16 }
        ensures { result ≡ places_in pool.now.entries }
    {
        ChainPlaces {
            free: FreePlaces::of(pool),
            link: MethodPlaces::of(pool, FREE_CLASS, LINK_NAME, LINK_DESCRIPTOR),
            free_chain: MethodPlaces::of(pool, FREE_CLASS, CHAIN_NAME, FREE_DESCRIPTOR),
        }
    }

    // How many of the entries are missing: the descriptor of freeChain isn't one of its own.
    fn missing(self) -> usize
        ensures is { result ≡ missing_in self }
        ensures few { result ≤ 14 }
    {
        self.free.missing() + self.link.missing() + self.free_chain.with_descriptor(0).missing()
    }

    // The indices of the Methodrefs, and what is missing in the pool, in order.
    fn missing_entries(self, alloc: Global, pool: &Pool) -> Result<(Calls, Missing), NoMemory>
        requires found { self ≡ places_in pool.now.entries }
        requires room { length pool.now.entries + missing_in self < 2 ^ 16 }
        ensures calls { IfOk result (λ x. x.0 ≡ calls_with pool.now.entries) }
        ensures missing { IfOk result (λ x.
            x.1.entries.items ≡ (sought_chain pool.now.entries).missing) }
    {
        let (free, mut missing) = self.free.missing_entries(alloc, pool)?;
        let link = missing.place_method(alloc, free.class, self.link, LINK_NAME, LINK_DESCRIPTOR)?;
        let free_chain = missing.place_method(
            alloc,
            free.class,
            self.free_chain.with_descriptor(free.descriptor),
            CHAIN_NAME,
            FREE_DESCRIPTOR,
        )?;
        let calls = Calls {
            free: free.method,
            link: link.0,
            free_chain: free_chain.0,
        };
        Ok((calls, missing))
    }
}
