//! The form `atr BOARD MAP SCHEDULE SCRIPT...`: a replay over a board of which some gpio muxes stand for address translators.
ghost use Rattle.std.specs.Prelude.{◌≡◌, true, map, string_bytes, IfOk, IfErr, IsTrue};
ghost use Rattle.i2c_top.specs.Endings.{CameToRefusal, CameToSuccess, HasEndedAs};
ghost use Rattle.i2c_top.specs.Runs.{AreOpened};
ghost use Rattle.i2c_top.specs.Traces.{shelf_view, rig_view, outside};
ghost use Rattle.i2c_top.specs.forms.Atrs.{atr_form, behind_of, is_atr, HasTranslated};
ghost use Rattle.i2c_top.specs.forms.Extras.{extra_names, extra_told, AreExtraPlaced};
ghost use Rattle.i2c_top.specs.declared.status.Status.TheVariants as status;

use crate::Status;
use crate::cost::limit_of;
use crate::ending::write_outcome;
use crate::extra::{ExtraFiles, ExtraWords, is_extra, read_files};
use crate::run::run_callers;
use crate::text::ReportText;
use addr_atr::{AtrCaller, AtrMap, scripts_behind_translators_are_fair};
use caller_core::Script;
use i2c_base::NoMemory;
use i2c_outside::{Rig, Shelf, Sink};
use std::alloc::Global;

/// Whether the words are in this form, with a board, a map, a schedule, and 1 to `MOST_CALLERS` scripts.
pub fn is_atr(words: &[String]) -> bool
    ensures { result ≡ is_atr (map string_bytes words.now) }
{
    is_extra("atr", words)
}

// Each script as a caller behind the translators.
fn behind<'m>(
    alloc: Global,
    translators: &'m AtrMap,
    scripts: Vec<Script>,
) -> Result<Vec<AtrCaller<'m>>, NoMemory>
    requires { AreOpened translators.now.board scripts.items }
    ensures { IfOk result (λ callers. callers.items ≡ map (behind_of translators.now) scripts.items) }
{
    let mut callers = Vec::with_capacity(alloc, scripts.len())?;
    for script in scripts {
        callers.push_reserved(AtrCaller::open(translators, script));
    }
    Ok(callers)
}

// Reads the files and runs the scripts behind the translators, by the schedule: the report, or the refusal.
fn atr<S: Shelf, R: Rig>(
    alloc: Global,
    names: &ExtraWords<'_>,
    shelf: &mut S,
    rig: &mut R,
) -> Result<ReportText, Status>
    requires placed { AreExtraPlaced (S.words shelf.old) (extra_told names.now) }
    ensures done { IfOk result (λ text. CameToSuccess (atr_form (extra_told names.now))
        (shelf_view S.Shelf shelf.old) (shelf_view S.Shelf shelf.new)
        (rig_view R.Rig R.P.tells rig.old) (rig_view R.Rig R.P.tells rig.new) text) }
    ensures refused { IfErr result (CameToRefusal (atr_form (extra_told names.now))
        (shelf_view S.Shelf shelf.old) (shelf_view S.Shelf shelf.new)
        (rig_view R.Rig R.P.tells rig.old) (rig_view R.Rig R.P.tells rig.new)) }
{
    let ExtraFiles {
        board,
        scripts,
        extra: map,
        words,
    } = read_files::<AtrMap, S>(alloc, names, shelf)?;
    let limit = limit_of(&board, scripts.as_slice());
    let callers = behind(alloc, &map, scripts)?;
    scripts_behind_translators_are_fair();
    run_callers(alloc, map.lowered(), callers, limit, words.as_slice(), rig)
}

/// Runs 1 to 8 scripts over a board of which some gpio muxes stand for address translators, after Linux's i2c-atr, by a schedule, and
/// writes the report; a refusal writes its line. The words are those of the form, and the shelf's. The files are read in the order board,
/// scripts, map, schedule; then the scripts' cost is tested.
///
/// It returns on every input. A transfer on a translator's child bus is sent on the mux's own bus, each paired address as its alias. The
/// scripts are read, and print, over the board as written. The rig is plugged at most once, with the lowered board, and is not left plugged.
/// `Map` is told exactly where that is the first thing that is wrong with the map; being out of memory has a status of its own.
pub fn atr_call<S: Shelf, K: Sink, R: Rig>(
    alloc: Global,
    words: &[String],
    shelf: &mut S,
    sink: &mut K,
    rig: &mut R,
) -> Status
    requires words { S.words shelf.old ≡ map string_bytes words.now }
    requires form { is_atr (map string_bytes words.now) ≡ true }

    // The cause of each status and each status of a cause, what was written, and what is kept.
    ensures ended { HasEndedAs (atr_form (extra_names (map string_bytes words.now)))
        (outside S.Shelf K.Sink R.Rig R.P.tells shelf.old sink.old rig.old)
        (outside S.Shelf K.Sink R.Rig R.P.tells shelf.new sink.new rig.new) result }

    // The report of a run over the lowered board that is legal, complete and followed by the flat world.
    ensures translated { IsTrue S.tells → IsTrue K.tells → IsTrue R.tells → IsTrue R.P.tells → result ≡ status.Ok
        → HasTranslated (S.file shelf.old) (extra_names (map string_bytes words.now))
        (K.bytes sink.old) (K.bytes sink.new) (R.logs rig.new) (R.states rig.new) (R.port_faults rig.new) }
{
    let names = ExtraWords::of(words);
    let outcome = atr(alloc, &names, shelf, rig);
    write_outcome(alloc, words, outcome, sink)
}
