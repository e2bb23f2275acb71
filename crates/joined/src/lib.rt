// The joined machine (document 01, section 6): either transition machine with one handoff, one pitch and one kept thrust.
// It is reached by `new`, four calls, one `call` over them, and the entry `enter`.
// Every exported function is total: what document 01 turns down is an answer, and the state is handed back as it was.
#![tactic(auto)]

pub mod answer;
pub mod call;
pub mod joined;
pub mod machine;
pub mod settings;
mod thrust;
