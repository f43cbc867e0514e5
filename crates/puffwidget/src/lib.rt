// The archive libpuffwidget.a: each call of the C layer by its symbol in include/puffwidget.h. Each export calls the library's function of its name and
// states its clauses again; what the call does, and its proof, stand in the library.
#![tactic(auto)]

mod batch_calls;
mod buffer_calls;
mod front_calls;
mod read_calls;
mod set_up_calls;
mod state_calls;
mod strip_calls;
