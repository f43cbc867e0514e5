// No code: specs/ says that what the functions promise is what the histories are made of, so that every theorem over histories is one of the code;
// and that two outcomes that keep a promise are the same.
#![tactic(auto)]
