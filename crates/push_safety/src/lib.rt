// No code: specs/ says what holds of state and memories while a push goes on, and that every step keeps it, for all states within the
// ranges of 14. Every place that a push reads or writes is in bounds by these laws.
#![tactic(auto)]
