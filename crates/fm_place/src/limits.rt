// How far a method may be changed.

/// A method whose operand stack has more words (max_stack) gets nothing inserted: what is inserted
/// takes two words more at most (one, where no holder is looped).
pub const MAX_HOLDING_STACK_WORDS: u16 = 1_022;
