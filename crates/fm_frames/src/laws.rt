// Effects of the machine that are worked out by computation.

ghost use Rattle.std.specs.Prelude.{◌≡◌, [], ◌∷◌};
ghost use Rattle.fm_frames.specs.Example.{catching, dividing, effects_in, main_number, object_effects, object_handler, object_items, object_seen, program_with, sum_effects, sum_items, sum_seen};
ghost use Rattle.fm_frames.specs.Natives.{natives};
ghost use Rattle.fm_frames.specs.States.{ref};
ghost use Rattle.fm_frames.specs.Steps.{caught, InFrames};
ghost use Rattle.fm_frames.specs.declared.natives.TheConstants.{NATIVES};
ghost use Rattle.fm_world.specs.Numbers.{type_of_class};

/// The effects of a main that prints the sum of 2 and 3, instruction by instruction.
pub fn law_sum_example()
    ensures { effects_in (program_with sum_items []) main_number sum_seen ≡ sum_effects }
{}

/// The effects of a main that makes an object and divides by 0, and where the exception is caught.
pub fn law_object_example()
    ensures effects { effects_in (program_with object_items (object_handler ∷ [])) main_number
        object_seen ≡ object_effects }
    ensures caught { caught (program_with object_items (object_handler ∷ []))
        (type_of_class 13) (ref 9) (dividing ∷ []) ≡ InFrames (catching ∷ []) }
{}

/// The built-in methods of the code are those of the table, in its order.
pub fn law_natives()
    ensures { NATIVES ≡ natives }
{}
