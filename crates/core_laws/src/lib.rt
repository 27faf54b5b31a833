//! The laws of the core over plain lists: what each kind of step of a caller keeps of all callers, their walks, the lock
//! words, the ports and the room of the journal. None of them speaks of code. Each stands on a public function with an
//! empty body, whose contract is the law.
//!
//! Definitions: `specs/`, above all `Core.antt`, what is kept between two steps, and `Behind.antt`, where all stand behind
//! a step. The lemmas stand in `proofs/` by subject; those that the core cites are passed on by `proofs/Laws.antt`.
#![tactic(auto)]

mod lines;
mod locks;
mod messages;
mod opening;
mod ready;
mod refusals;
mod words;

pub use lines::the_whole_over_a_line;
pub use locks::the_whole_over_locks;
pub use messages::{a_message_fits, the_whole_over_a_message};
pub use opening::an_opening_keeps_the_whole;
pub use ready::someone_is_ready;
pub use refusals::the_whole_over_a_refusal;
pub use words::{
    changed_channels_are_told, lock_words_answer_each_look, looks_stay_while_others_turn,
};
