// No code: what stands in specs/ says when the books are sound, and that every change of them keeps it: live buffers lie
// in the pool and share no byte, and what another buffer holds stays as it was.
#![tactic(auto)]
