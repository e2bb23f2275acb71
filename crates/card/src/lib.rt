// The flight card (document 01, section 7): its records, the check of its chain (section 9), and the transcript of its run over the joined machine; and the writer of cards (document 02, 2.1).
// `check`, `run` and `write` are total: what the documents turn down is an answer.
#![tactic(auto)]

mod bytes;
pub mod chain;
mod encode;
pub mod kind;
pub mod record;
pub mod refusal;
pub mod run;
mod text;
pub mod write;
