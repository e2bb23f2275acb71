// What the gate's programs `replay` and `replay_entry` share: the records of their lists, and the words of the lines that they print.
// A record is laid out as a flight card's is (document 01, section 7). Every kind and option is taken here: which are calls is for the program to say.
#![tactic(auto)]

pub mod record;
pub mod words;
