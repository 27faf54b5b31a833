//! The tools that run over the bus, after i2c-tools: the lines of a script, what the command of each asks for, and what it
//! prints of the replies.
//!
//! Its public contract, in three parts:
//!
//! - Lines. The grammar is one tree (`grammar` of `specs/Commands.antt`, written by `specs/Grammars.antt`), and its lines
//!   are a set (`script_lines`, with `specs/LineSets.antt`). `read_line` gives exactly the command of a line, or the first
//!   word that the grammar refuses (`line_read` of `specs/Lines.antt`); a line is read exactly where it is in the grammar
//!   (`each_line_is_read`), and a refused word stands behind the longest front that begins a line
//!   (`the_refused_word_is_behind_the_longest_front`). `read_line` keeps no more words than the longest line has, and one,
//!   and these decide (`the_first_words_decide`).
//! - Commands. A `ToolRun` is a command as it runs, with what the board says of it (`run_of` of `specs/Commands.antt`, which
//!   has a row for each command, whose own definitions are a file beside it: `specs/Gets.antt` of `i2cget`, `specs/Sets.antt` of
//!   `i2cset`, `specs/Combined.antt` of `i2ctransfer`, `specs/Dumps.antt` of `i2cdump`, `specs/Detects.antt` of `i2cdetect`). It has
//!   one of a few forms, and each form is a dialogue (`dialogue_of` of `specs/Runs.antt`): places with a transfer each, where it goes
//!   on after a reply, the lines that it prints, and the room for them (`specs/Dialogues.antt`). Its caller keeps its place and its
//!   replies. `specs/Values.antt` tells how values are printed, and `specs/Tables.antt` how the rows of a table are;
//!   `specs/DumpTables.antt` is the dialogue of `i2cdump` with its tables, and `specs/Scans.antt` that of `i2cdetect`.
//! - Texts. `cut_line` tells the first line of a text, and `push_echo` prints a line's words (`specs/Splits.antt`).
//!   `skip_gaps` and `first_word` take the words off any text, with whatever bytes a `Gap` says between them
//!   (`specs/Words.antt`), and `number_in` reads the number in a word (`specs/Numbers.antt`).
#![tactic(auto)]

pub mod command;
mod examples;
mod fault;
mod laws;
mod line;
mod line_examples;
mod lists;
mod number;
mod octets;
mod options;
mod reader;
mod replies;
mod run;
mod split;
mod text;
mod value;
mod words;

pub use command::{
    At24Read, At24Write, Cmd, Combined, DriverCmd, HandleCmd, Lm75Read, Lm75Write, RegName, ToolCmd,
};
pub use examples::{
    a_block_ends_at_its_limit, a_block_is_printed_without_its_count,
    a_bus_that_is_missing_is_told_alone, a_byte_is_received_where_eeproms_stand,
    a_line_that_is_too_long_is_refused_behind_the_longest, a_mode_tells_the_values,
    a_range_of_words_is_printed_in_its_columns, a_refused_device_has_no_table,
    a_suffix_tells_the_bytes_behind_it, a_table_tells_who_answers,
    a_word_is_printed_high_byte_first, a_wrong_code_is_told_with_the_right_one,
    a_wrong_range_or_option_is_refused, an_address_holds_until_the_next, an_error_ends_a_command,
    each_byte_has_a_sign, each_read_has_a_line, last_is_not_below_first,
    messages_end_at_their_limits, reserved_addresses_are_not_probed,
    the_buses_are_listed_by_number, the_number_is_sent_and_a_byte_is_received,
    without_the_number_no_register_is_read, writes_alone_are_told_to_be_done,
};
pub use fault::LineFault;
pub use laws::{
    each_field_is_in_range, each_line_is_read, the_first_words_decide,
    the_refused_word_is_behind_the_longest_front,
};
pub use line::read_line;
pub use line_examples::{a_handle_has_its_number, a_temperature_is_half_degrees, bytes_end_a_line};
pub use lists::{Desc, DescOp, Descs, Items, Octets, Words};
pub use number::number_in;
pub use replies::Window;
pub use run::ToolRun;
pub use run::call::{Callee, HeldBlock, HeldCall, HeldOp};
pub use run::lines::KnownLines;
pub use run::messages::Messages;
pub use split::{LineWords, cut_line, push_echo};
pub use text::Text;
pub use words::{Gap, first_word, skip_gaps};
