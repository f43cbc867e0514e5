// Laws only: a push beside its trial. What the trial keeps of state and books is alike to what the push makes of them, so that both lack room
// at the same step.
#![tactic(auto)]
