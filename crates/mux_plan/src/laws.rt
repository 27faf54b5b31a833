//! Laws of what a step changes of marks and kept channels.
ghost use Rattle.std.specs.Prelude.{ℕ, Bool, List, Option};
ghost use Rattle.bus_spec.specs.Slots.{Slots};
ghost use Rattle.bus_spec.specs.Walk.{Act, ActOutcome, Note};
ghost use Rattle.mux_plan.specs.Plans.{slots_after, TellsMarks};
ghost use Rattle.mux_plan.specs.Marks.{updates_after, applied, MayMark, AreOn};

/// The marks that a step changes: with them the marks of all buses tell what is known after the step; and each is of a
/// bus that is held, where the buses are that the step switches on and that its failure marks.
pub fn changed_marks_are_told()
    ensures told { (act : Option Act) (note : Note) (out : ActOutcome) (v : Slots) (marks : List (Option ℕ)) → TellsMarks v marks
        → TellsMarks (slots_after act note out v) (applied (updates_after act note out) marks) }
    ensures held { (held : ℕ → Bool) (act : Option Act) (note : Note) (out : ActOutcome) → MayMark held act note → AreOn held (updates_after act note out) }
{}
