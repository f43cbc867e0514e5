// No code: specs/ says what the strip is after every history: the queue worked out from the pushed rows in push order, however they were cut into batches.
#![tactic(auto)]
