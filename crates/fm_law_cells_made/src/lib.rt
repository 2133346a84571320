// How many cells a run makes: of each size class as many as were held at once.
#![tactic(auto)]

ghost use Rattle.fm_law_cells_made.specs.MostHeld.{MadeIsMostHeld, MadeSinceIsMostHeld, OpenedIsLastReused};

/// In each state of a run on memory that takes the last freed cell, of each size class as many cells are made
/// as were held at once so far, whatever the program frees.
pub fn law_most_held()
    ensures { MadeIsMostHeld }
{}

/// From each state on such memory on, of each size class as many cells are made as were made before or held
/// at once since; and a run as it is opened is on such memory.
pub fn law_made_since()
    ensures since { MadeSinceIsMostHeld }
    ensures opened { OpenedIsLastReused }
{}
