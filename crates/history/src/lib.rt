// No code: specs/ says what a history is, and what every history keeps: the rows of the accepted pushes, in order, are those taken, then those
// queued, then those buffered.
#![tactic(auto)]
