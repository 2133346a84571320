// What holds of the program that classes make with what is inserted into their methods: it has the outline
// of the old one, and it links where that does.
#![tactic(auto)]

mod laws;

pub use laws::{law_codes, law_links, law_outline, law_rows, law_uses};
