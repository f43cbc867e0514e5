// No code: what stands in specs/ computes document 01's worked examples W1 to W11, and three of its "Tempting and wrong", on the
// definitions of `rules` and of what these stand on. A crate of its own, so that an edit of a definition is not paid for with them.
#![tactic(auto)]
