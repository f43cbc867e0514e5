// No code: what stands in specs/ serves every crate above. The lowest number that a test accepts, a test of every
// number below a bound, a test of every entry of a table, and the two ways of a condition.
#![tactic(auto)]
