// No code: specs/ says what holds of state and memories between any two calls of a history, and that every step of every call keeps it,
// together with what each row shows.
#![tactic(auto)]
