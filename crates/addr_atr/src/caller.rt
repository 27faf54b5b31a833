//! A script behind translators: it asks for what the script asks for, translated.
ghost use Rattle.std.specs.Prelude.{◌≡◌, ◌≤◌, []};
ghost use Rattle.i2c_spec.specs.Plain.{IsPlainBoard};
ghost use Rattle.i2c_spec.specs.Rules.{MeetsRules};
ghost use Rattle.caller_core.specs.Scripts.{cost_of_script};
ghost use Rattle.addr_atr.specs.Callers.{AtrView, AtrCallersAreFair, left_of};

use crate::map::AtrMap;
use caller_core::Script;
use i2c_base::{Caller, NoMemory, ReplyHead, Transfer, TransferKind};
use std::marker::Model;

/// What it is opened with, as contracts see it: the map's translators and the script. No value of it is made.
pub struct AtrData {}

impl Model for AtrData {
    ghost use Rattle.std.specs.Prelude.{[]};
    ghost use Rattle.addr_atr.specs.Callers.{AtrView};

    ghost Value = { AtrView };

    ghost view = { λ d. record { script = record { board = record { version = 1; roots = []; muxes = []; devices = [] }; text = [] }; translators = [] } };
}

/// A script over the board as written, whose transfers go to the lowered board. A contract sees the script, and the translators.
#[derive(Drop)]
pub struct AtrCaller<'m> {
    map: &'m AtrMap,
    script: Script,
}

impl<'m> Model for AtrCaller<'m> {
    ghost use Rattle.std.specs.Prelude.{◌≡◌};
    ghost use Rattle.addr_atr.specs.Callers.{AtrCallerView};

    ghost Value = { AtrCallerView };

    ghost view = { λ c. record { script = c.script; translators = c.map.now.translators } };

    ghost invariant = { λ c. c.map.now.board ≡ c.script.script.board };
}

impl<'m> AtrCaller<'m> {
    /// A script that was opened with the board that the map is of.
    pub fn open(map: &'m AtrMap, script: Script) -> Self
        requires { map.now.board ≡ script.script.board }
        ensures { result ≡ record { script = script; translators = map.now.translators } }
    {
        AtrCaller { map, script }
    }

    /// The script, with what it has printed.
    pub fn script(&self) -> &Script
        ensures { result.now ≡ self.now.script }
    {
        &self.script
    }
}

impl<'m> Caller for AtrCaller<'m> {
    ghost use Rattle.addr_atr.specs.Callers.{data_of, board_of, asked_by, owed_by};

    type Script = AtrData;

    ghost script = { data_of };

    ghost board = { board_of };

    ghost taken = { λ c. c.script.taken };

    ghost asked = { asked_by };

    ghost left = { left_of };

    ghost owed = { owed_by };

    ghost spare = { λ c. c.script.spare };

    fn next(&self) -> Option<Transfer> {
        let mut transfer = Transfer::new(0, TransferKind::Smbus, false);
        if !self.refill(&mut transfer) {
            return None;
        }
        Some(transfer)
    }

    fn refill(&self, transfer: &mut Transfer) -> bool {
        if !self.script.refill(transfer) {
            return false;
        }
        self.map.translate(transfer);
        true
    }

    fn reserve(&mut self) -> Result<(), NoMemory> {
        self.script.reserve()
    }

    fn take(&mut self, head: ReplyHead, bytes: &[u8]) {
        self.script.take(head, bytes);
    }
}

/// Scripts behind translators are fair callers, whatever they are opened with. On an accepted board they cost no more than the scripts.
pub fn scripts_behind_translators_are_fair()
    ensures fair { AtrCallersAreFair }
    ensures covered { (s : AtrView) → IsPlainBoard s.script.board → MeetsRules s.script.board → left_of s [] ≤ cost_of_script s.script }
{}
