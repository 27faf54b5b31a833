//! Worked examples, computed by the checker itself: each function has an empty body.
ghost use Rattle.std.specs.Prelude.{◌≡◌, ◌∷◌, [], Err, None, Ok, Some, codes};
ghost use Rattle.tools.specs.declared.command.Cmd.{Cmd};
ghost use Rattle.caller_core.specs.Scripts.{at_most};
ghost use Rattle.i2c_session.specs.Inputs.{lines_in};
ghost use Rattle.i2c_session.specs.Sessions.{Empty, Ran, Refused, answer_text};

/// A line ends at a line feed, without a carriage return before it; what stands behind the last line feed is a line where there is
/// something, and nothing where there isn't.
pub fn an_input_is_cut_into_lines()
    ensures some { lines_in (Some (97 ∷ 13 ∷ 10 ∷ 10 ∷ 98 ∷ [])) ≡ Some ((97 ∷ []) ∷ [] ∷ (98 ∷ []) ∷ []) }
    ensures over { lines_in (Some (97 ∷ 10 ∷ [])) ≡ Some ((97 ∷ []) ∷ []) }
    ensures none { lines_in (Some []) ≡ Some [] }
{}

/// An answer ends with the number of commands so far, or is the refused word.
pub fn an_answer_ends_with_its_number()
    ensures ran { answer_text (Ran (codes "0x11\n") 1) ≡ codes "0x11\ncommand 1\n" }
    ensures empty { answer_text (Empty 0) ≡ codes "command 0\n" }
    ensures refused { answer_text (Refused 3) ≡ codes "word 3\n" }
{}

/// The thousandth command is the last: one more is refused at its first word, whatever its own refused word is; a line without a
/// command is read behind it too.
pub fn a_thousand_commands_are_the_most()
    ensures last { (c : Cmd) → at_most 999 (Ok (Some c)) ≡ Ok (Some c) }
    ensures more { (c : Cmd) → at_most 1000 (Ok (Some c)) ≡ Err 0 }
    ensures refused { at_most 1000 (Err 5) ≡ Err 0 }
    ensures empty { at_most 1000 (Ok None) ≡ Ok None }
{}
