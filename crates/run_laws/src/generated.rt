//! What a plan makes of a generated run: an accepted board, scripts that are read whole and cost little, and a schedule of their callers.
ghost use Rattle.std.specs.Prelude.{◌≡◌, ℕ, ◌<◌, ◌≤◌, List, All, Ok, Some, length};
ghost use Rattle.caller_core.specs.Scripts.{commands_of, script_read};
ghost use Rattle.caller_core.specs.View.{script_on};
ghost use Rattle.i2c_base.specs.Limits.{MOST_CALLERS};
ghost use Rattle.i2c_gen.specs.Boards.{made_board};
ghost use Rattle.i2c_gen.specs.Scripts.{IsPlan, schedule_of, scripts_of};
ghost use Rattle.i2c_gen.specs.declared.plan.Plan.{Plan};
ghost use Rattle.i2c_spec.specs.Plain.{IsPlainBoard};
ghost use Rattle.i2c_spec.specs.Rules.{MeetsRules};
ghost use Rattle.i2c_top.specs.Runs.{MOST_COST, cost_of_texts};
ghost use Rattle.i2c_top.specs.forms.Generations.{plan_in};

/// Generated scripts are read whole: whatever plan the words of a call of `gen` name, each of its scripts is in the grammar over its
/// board, with as many commands as the plan has lines.
///
/// So a run of these scripts, which a success of `gen` tells of, is one of all their lines: a text outside the grammar would count as no
/// commands there. The board is accepted, there is a script for each caller, what the scripts cost together is within the limit of a
/// run, and each word of the schedule names one of the callers.
///
/// Of the board and the scripts of a plan without a root or a line, or with more than the most of them, it says nothing; no words of a
/// call name such a plan.
pub fn generated_scripts_are_read_whole()
    ensures plan { (words : List (List ℕ)) (plan : Plan) → plan_in words ≡ Some plan → IsPlan plan }
    ensures accepted { (plan : Plan) → IsPlan plan → IsPlainBoard (made_board plan.roots) × MeetsRules (made_board plan.roots) }
    ensures callers { (plan : Plan) → length (scripts_of plan) ≡ MOST_CALLERS }
    ensures grammar { (plan : Plan) → IsPlan plan → All (λ text. script_read (script_on (made_board plan.roots) text)
        ≡ Ok (commands_of (script_on (made_board plan.roots) text))) (scripts_of plan) }
    ensures lines { (plan : Plan) → IsPlan plan → All (λ text. length (commands_of (script_on (made_board plan.roots) text)) ≡ plan.lines)
        (scripts_of plan) }
    ensures cheap { (plan : Plan) → IsPlan plan → cost_of_texts (made_board plan.roots) (scripts_of plan) ≤ MOST_COST }
    ensures named { (plan : Plan) → All (λ c. c < length (scripts_of plan)) (schedule_of plan) }
{}
