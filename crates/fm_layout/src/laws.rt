// Laws of the definitions, each as the contract of a function that does nothing.

ghost use Rattle.std.specs.Prelude.{◌≡◌, ◌≤◌, ◌+◌, ℕ, length, nat_lt, slice_get, slice_index, ◌∷◌, [], List, Some, None, true, false};
ghost use Rattle.std.specs.List.{filter_map, flat_map};
ghost use Rattle.fm_code.specs.ClassBytes.{item_bytes};
ghost use Rattle.fm_code.specs.declared.code_array.Item.{Item};
ghost use Rattle.fm_code.specs.declared.code_array.TheConstants.{MAX_CODE_BYTES};
ghost use Rattle.fm_code.specs.declared.operations.Test.TheVariants as test;
ghost use Rattle.fm_layout.specs.Example.{goto_back, goto_over, loop_bytes, loop_new, loop_old, switch_bytes, switch_new, switch_old, two_gotos, wide_goto};
ghost use Rattle.fm_layout.specs.Conditions.{AreNewItems, AreOldItems};
ghost use Rattle.fm_layout.specs.Laid.{IsCode, laid_length, laid_of, marks_of, wide_items};
ghost use Rattle.fm_layout.specs.Stands.{Stands};
ghost use Rattle.fm_layout.specs.Tables.{AreAnchors, AreValid, moved_tables};
ghost use Rattle.fm_code.specs.declared.code_array.Code.{Code};
ghost use Rattle.fm_code.specs.declared.constant_pool.Entry.{Entry};
ghost use Rattle.fm_layout.specs.declared.new_items.NewItem.{NewItem};
ghost use Rattle.fm_layout.specs.Rooms.{narrow, round_after, widened_rooms};
ghost use Rattle.fm_layout.specs.declared.rooms.Condition.TheVariants as condition;
ghost use Rattle.fm_layout.specs.declared.rooms.Room.{Room};
ghost use Rattle.fm_layout.specs.declared.rooms.Room.TheVariants as room;

/// After the last round a further one widens no branch.
pub fn law_settled()
    ensures { (rooms : List Room) → widened_rooms rooms ≡ round_after (widened_rooms rooms) }
{}

/// Laid-out code that isn't too long is code, whose bytes spell its items.
pub fn law_spelled()
    ensures { (old : List Item) (items : List NewItem) → AreOldItems old → AreNewItems old items
        → laid_length old items ≤ MAX_CODE_BYTES → IsCode (laid_of old items) }
{}

/// Each new item is among the laid ones: as it is, with laid items for targets, or split into the
/// opposite test and a goto_w. Each laid item has a mark, and those that aren't inserted are the kept
/// items in their order.
pub fn law_laid_items()
    ensures stands { (old : List Item) (items : List NewItem) (k : ℕ) (new : NewItem)
        → slice_get items k ≡ Some new
        → let laid = laid_of old items in
        Stands laid.items laid.firsts (slice_index laid.firsts k) (nat_lt (k + 1) (length items))
        new.insn }
    ensures one_each { (old : List Item) (items : List NewItem)
        → length (marks_of old items) ≡ length (laid_of old items).items }
    ensures in_order { (old : List Item) (items : List NewItem)
        → filter_map (λ mark. mark) (marks_of old items)
        ≡ filter_map (λ (new : NewItem). new.kept) items }
{}

/// The tables of laid-out code are valid where those of the old code are: ranges aren't empty, and
/// what they name are laid items.
pub fn law_moved_tables()
    ensures { (entries : List Entry) (code : Code) (items : List NewItem) (anchors : List ℕ)
        → AreAnchors code (laid_of code.items items) anchors
        → AreValid entries (length code.items)
        (record { handlers = code.handlers; attributes = code.attributes })
        → AreValid entries (length (laid_of code.items items).items)
        (moved_tables code (laid_of code.items items) anchors) }
{}

/// Codes that were laid out by hand: a loop and a switch; branches at both ends of their reach, and
/// one that is widened since another one was; and widened branches with an item after them and
/// without.
pub fn law_example()
    ensures loop_laid { flat_map item_bytes (laid_of loop_old loop_new).items ≡ loop_bytes }
    ensures switch_laid { flat_map item_bytes (laid_of switch_old switch_new).items ≡ switch_bytes }
    ensures reaches { widened_rooms (goto_over 32764) ≡ goto_over 32764 }
    ensures over { widened_rooms (goto_over 32765)
        ≡ wide_goto 2 ∷ room.Plain 32765 ∷ room.Plain 1 ∷ [] }
    ensures reaches_back { widened_rooms (goto_back 32768) ≡ goto_back 32768 }
    ensures back { widened_rooms (goto_back 32769) ≡ room.Plain 32769 ∷ wide_goto 0 ∷ [] }
    ensures rounds { widened_rooms two_gotos
        ≡ room.Plain 32764 ∷ wide_goto 4 ∷ wide_goto 0 ∷ room.Plain 32768 ∷ room.Plain 1 ∷ [] }
    ensures one_round { round_after two_gotos
        ≡ room.Plain 32764 ∷ wide_goto 4 ∷ narrow None 0 ∷ room.Plain 32768 ∷ room.Plain 1 ∷ [] }
    ensures wide { flat_map item_bytes (wide_items 3 3 true (Some (condition.Int test.Eq)) 32785 9)
        ≡ 154 ∷ 0 ∷ 8 ∷ 200 ∷ 0 ∷ 0 ∷ 128 ∷ 11 ∷ [] }
    ensures wide_last { flat_map item_bytes
        (wide_items 32776 9 false (Some (condition.Int test.Eq)) 2 2)
        ≡ 154 ∷ 0 ∷ 3 ∷ 200 ∷ 255 ∷ 255 ∷ 127 ∷ 247 ∷ [] }
{}
