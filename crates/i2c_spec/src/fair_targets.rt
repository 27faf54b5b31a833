//! What the tables of the targets promise: laws, each on a function that does nothing.

ghost use Rattle.i2c_base.specs.Board.{DeviceView};
ghost use Rattle.i2c_base.specs.declared.board.MuxSpec.{MuxSpec};
ghost use Rattle.i2c_spec.specs.Chips.{chip_table, chip_opening};
ghost use Rattle.i2c_spec.specs.Plain.{IsPlainDevice};
ghost use Rattle.i2c_spec.specs.Targets.{IsFairTable, IsQuiet, HoldsBytes, KeepsBytes, state_table, opening_state};

/// After a stop a mux chip stays as it is until its next start, and it sends what it says.
pub fn chips_are_fair()
    ensures { IsFairTable chip_table }
{}

/// After a stop a device stays as it is until its next start, and it sends what it says.
pub fn states_are_fair()
    ensures { IsFairTable state_table }
{}

/// What a device holds are bytes: as its board opens it, after each event that puts a byte or none, in what it sends, and in
/// for how many looks it holds the clock.
pub fn devices_hold_bytes()
    ensures opened { (d : DeviceView) → IsPlainDevice d → HoldsBytes (opening_state d) }
    ensures kept { KeepsBytes state_table HoldsBytes }
{}

/// Every target is opened so that starts for others and stops leave it as it is.
pub fn openings_are_quiet()
    ensures devices { (d : DeviceView) → IsQuiet state_table (opening_state d) }
    ensures chips { (m : MuxSpec) → IsQuiet chip_table (chip_opening m) }
{}
