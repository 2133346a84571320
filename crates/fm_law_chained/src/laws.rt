// Laws of the definitions, each as the contract of a function that does nothing.

ghost use Rattle.fm_law_chained.specs.Called.{ChainsFault, ChainsFree, LinksFault, LinksJoin, LinksPassOver};
ghost use Rattle.fm_law_chained.specs.Laws.{ChainingKeepsPaired, EachChainIsFreed, ChainsAreLinked, ChainsAreWalked, ChainsStayLinked, LinksStay};

/// The walk from the first cell of a chain finds the cells of all its objects, each once.
pub fn law_walked()
    ensures { ChainsAreWalked }
{}

/// An object that is linked to a chain which doesn't have it is the first one of a longer chain; all other
/// chains stay, and so does a chain whose objects stay where they are, with their links.
pub fn law_linked()
    ensures first { ChainsAreLinked }
    ensures others { ChainsStayLinked }
    ensures stay { LinksStay }
{}

/// Where the second of two memories links an object of its own to another, the memories and all frames stay
/// paired.
pub fn law_paired()
    ensures { ChainingKeepsPaired }
{}

/// Where the second of two memories frees a chain, no free meets a cell that isn't held; the memories and all
/// frames stay paired, just the objects of the chain are gone, and all others stay where they are.
pub fn law_freed()
    ensures { EachChainIsFreed }
{}

/// A step that calls FreeMe.link returns the chain where the other operand is null or lives for ever; it puts an
/// object that may be freed before the chain, and returns that; and it ends in a fault at a cell that isn't held,
/// and changes nothing else.
pub fn law_link_called()
    ensures passed { LinksPassOver }
    ensures joined { LinksJoin }
    ensures lost { LinksFault }
{}

/// A step that calls FreeMe.freeChain frees all cells that the walk along the chain finds, or ends in a fault at the
/// first one where it finds none, and frees none.
pub fn law_chain_called()
    ensures freed { ChainsFree }
    ensures lost { ChainsFault }
{}
