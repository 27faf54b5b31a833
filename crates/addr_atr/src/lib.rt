//! Address translators, after Linux's i2c-atr: a board with the devices behind them at their aliases, and transfers that go there.
//!
//! Its public contract: `read_map` gives the map that a TOML text spells over an accepted board, or its first fault, but for want of
//! memory (`Gives`). A map's type keeps that it is one of that board, and that the lowered board is accepted (`IsKept`). `AtrMap::lowered`
//! is that board, and `AtrMap::translate` sends a transfer there (`translated`), without taking memory. `AtrCaller` is a script whose
//! transfers are translated, as a fair caller, which costs no more than the script (`scripts_behind_translators_are_fair`).
//!
//! Its laws are in `src/laws.rt`: a transfer on a child bus whose addresses are all paired gets the same reply, and leaves the same
//! devices, as on the board as written, and changes none but those behind its translator.
//!
//! Definitions: `specs/Maps.antt` (which mux stands for a translator, and where its child bus leads), `specs/Lowering.antt` (the lowered
//! board, a translated transfer, and what a map has to be), `specs/MapTexts.antt` (the map that a text spells), `specs/Callers.antt` (a
//! script behind translators), `specs/Runs.antt` (callers behind translators), `specs/Kept.antt` (what the type of a map keeps). The pairs
//! of addresses, and a transfer that goes elsewhere, are in `Alias.antt` of `i2c_base`.
#![tactic(auto)]

mod caller;
mod check;
mod examples;
mod fault;
mod laws;
mod lower;
mod map;
mod text;

pub use caller::{AtrCaller, AtrData, scripts_behind_translators_are_fair};
pub use examples::{
    a_device_behind_stands_at_its_alias, a_mux_is_one_of_the_board, a_pair_is_two_addresses,
    a_table_has_two_keys, a_transfer_goes_to_the_aliases, any_other_transfer_stays,
    one_alias_for_two_clashes, the_mux_of_a_translator_is_single,
    the_pairs_are_of_the_devices_behind, the_top_is_an_array_of_tables,
};
pub use fault::MapFault;
pub use laws::{
    a_history_behind_translators_is_the_same, a_lowered_board_opens_the_same,
    a_paired_address_leads_to_the_same_device, a_translated_transfer_costs_no_more,
    a_translated_transfer_does_the_same, a_translated_transfer_stays_on_its_root,
    an_own_address_leads_to_its_device,
};
pub use map::{AtrMap, Translator};
pub use text::read_map;
