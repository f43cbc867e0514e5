// What programs make of the capture on standard input: the rows of a match as a table (`court`), or a line a call (`edges`, `replay`).
#![tactic(auto)]

mod as_lines;
mod as_table;
mod cells;

pub use as_lines::Lines;
pub use as_table::Table;
