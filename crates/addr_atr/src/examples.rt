//! Worked examples, computed by the checker itself: each function has an empty body. The boards and tables are in `specs/Examples.antt`.

ghost use Rattle.std.specs.Prelude.{◌≡◌, true, false, map, Some, None, [], ◌∷◌, codes, Ok, Err, negsuc, replicate};
ghost use Rattle.toml.specs.Data.{array, integer, item, member, no_items, no_members, string, table};
ghost use Rattle.i2c_base.specs.Transfer.{written, plain_read};
ghost use Rattle.i2c_base.specs.declared.board.DeviceKind.TheVariants as kind;
ghost use Rattle.i2c_spec.specs.Rules.{clashes, item_at};
ghost use Rattle.i2c_base.specs.declared.rules.Item.TheVariants as item_name;
ghost use Rattle.addr_atr.specs.Examples as example;
ghost use Rattle.addr_atr.specs.Lowering.{fault_after, lowered, lowered_device, translated};
ghost use Rattle.addr_atr.specs.MapTexts.{tested_rows, translator_value};
ghost use Rattle.addr_atr.specs.declared.fault.MapFault.TheVariants.{Key, Mux, Pairs, Value};

/// A device on a translator's child bus stands on the mux's bus at its alias; any other stays where it is, also behind a mux that no
/// translator names.
pub fn a_device_behind_stands_at_its_alias()
    ensures first { lowered_device example.two_muxes example.both (example.regs 1 0x20) ≡ example.regs 0 0x40 }
    ensures second { lowered_device example.two_muxes example.both (example.regs 2 0x20) ≡ example.regs 0 0x41 }
    ensures beside { lowered_device example.two_muxes example.both (example.device 0 0x48 (kind.Lm75 0)) ≡ example.device 0 0x48 (kind.Lm75 0) }
    ensures unnamed { lowered_device example.two_muxes (example.first ∷ []) (example.regs 2 0x20) ≡ example.regs 2 0x20 }
    ensures board { lowered example.two_muxes example.both
        ≡ example.board (example.gpio 0 1 ∷ example.gpio 0 1 ∷ []) (example.regs 0 0x40 ∷ example.regs 0 0x41 ∷ example.device 0 0x48 (kind.Lm75 0) ∷ []) }
{}

/// A transfer on a child bus goes to the mux's bus, and each of its messages to the alias of its address. An address in no pair stays.
pub fn a_transfer_goes_to_the_aliases()
    ensures every_message { translated example.two_muxes example.both (example.sent 1 (written 0x20 1 ∷ plain_read 0x20 1 ∷ []))
        ≡ example.sent 0 (written 0x40 1 ∷ plain_read 0x40 1 ∷ []) }
    ensures other_child { translated example.two_muxes example.both (example.sent 2 (written 0x20 1 ∷ plain_read 0x20 1 ∷ []))
        ≡ example.sent 0 (written 0x41 1 ∷ plain_read 0x41 1 ∷ []) }
    ensures unpaired { translated example.two_muxes example.both (example.sent 1 (written 0x21 1 ∷ [])) ≡ example.sent 0 (written 0x21 1 ∷ []) }
    ensures mixed { translated example.two_muxes example.both (example.sent 1 (written 0x21 1 ∷ plain_read 0x20 1 ∷ []))
        ≡ example.sent 0 (written 0x21 1 ∷ plain_read 0x40 1 ∷ []) }
{}

/// A transfer on the mux's bus, behind a mux that no translator names, or on a bus that the board lacks, stays as it is.
pub fn any_other_transfer_stays()
    ensures root { translated example.two_muxes example.both (example.sent 0 (written 0x20 1 ∷ [])) ≡ example.sent 0 (written 0x20 1 ∷ []) }
    ensures unnamed { translated example.two_muxes (example.first ∷ []) (example.sent 2 (written 0x20 1 ∷ [])) ≡ example.sent 2 (written 0x20 1 ∷ []) }
    ensures missing { translated example.two_muxes example.both (example.sent 3 (written 0x20 1 ∷ [])) ≡ example.sent 3 (written 0x20 1 ∷ []) }
{}

/// The mux of a translator is a gpio mux of one channel that no earlier one names, with no mux on its child bus.
pub fn the_mux_of_a_translator_is_single()
    ensures fits { fault_after example.two_muxes [] example.both ≡ None }
    ensures lacking { fault_after example.two_muxes [] (example.at 2 [] ∷ []) ≡ Some (Mux 0) }
    ensures chip { fault_after (example.board (example.arbitrator ∷ []) (example.regs 1 0x20 ∷ [])) [] (example.first ∷ []) ≡ Some (Mux 0) }
    ensures channels { fault_after (example.board (example.gpio 0 2 ∷ []) (example.regs 1 0x20 ∷ [])) [] (example.first ∷ []) ≡ Some (Mux 0) }
    ensures twice { fault_after example.two_muxes [] (example.first ∷ example.first ∷ []) ≡ Some (Mux 1) }
    ensures above { fault_after example.mux_behind [] (example.at 0 [] ∷ []) ≡ Some (Mux 0) }
    ensures below { fault_after example.mux_behind [] (example.at 1 (example.to 0x20 0x40 ∷ []) ∷ []) ≡ None }
{}

/// The addresses of the pairs are those of the devices on the child bus, each once, and no smbus device stands there. Translators are
/// tested one after the other, and of each the mux before the pairs.
pub fn the_pairs_are_of_the_devices_behind()
    ensures lacking { fault_after example.two_muxes [] (example.at 0 [] ∷ []) ≡ Some (Pairs 0) }
    ensures nobody { fault_after example.two_muxes [] (example.at 0 (example.to 0x20 0x40 ∷ example.to 0x48 0x41 ∷ []) ∷ []) ≡ Some (Pairs 0) }
    ensures twice { fault_after example.two_muxes [] (example.at 0 (example.to 0x20 0x40 ∷ example.to 0x20 0x41 ∷ []) ∷ []) ≡ Some (Pairs 0) }
    ensures smbus { fault_after example.smbus_behind [] (example.first ∷ []) ≡ Some (Pairs 0) }
    ensures smbus_beside { fault_after example.smbus_beside [] (example.first ∷ []) ≡ None }
    ensures second { fault_after example.two_muxes [] (example.first ∷ example.at 1 [] ∷ []) ≡ Some (Pairs 1) }
    ensures first_table { fault_after example.two_muxes [] (example.at 0 [] ∷ example.at 0 [] ∷ []) ≡ Some (Pairs 0) }
    ensures mux_first { fault_after example.two_muxes [] (example.at 2 (example.to 0x20 0x40 ∷ []) ∷ []) ≡ Some (Mux 0) }
{}

/// Two devices that get one alias are a map of the board, but clash on the lowered board; with an alias each they don't.
pub fn one_alias_for_two_clashes()
    ensures fits { fault_after example.two_muxes [] (example.first ∷ example.at 1 (example.to 0x20 0x40 ∷ []) ∷ []) ≡ None }
    ensures clash { clashes (lowered example.two_muxes (example.first ∷ example.at 1 (example.to 0x20 0x40 ∷ []) ∷ [])) 2 3 ≡ true }
    ensures items { map (item_at example.two_muxes) (2 ∷ 3 ∷ []) ≡ item_name.Device 0 ∷ item_name.Device 1 ∷ [] }
    ensures apart { clashes (lowered example.two_muxes example.both) 2 3 ≡ false }
{}

/// The top has the key `atr` alone, an array of 1 to 32 tables.
pub fn the_top_is_an_array_of_tables()
    ensures fits { tested_rows 2 (example.document (example.good ∷ [])) ≡ Ok (example.good ∷ []) }
    ensures most { tested_rows 2 (example.document (replicate 32 example.good)) ≡ Ok (replicate 32 example.good) }
    ensures lacking { tested_rows 2 no_members ≡ Err (Key 0) }
    ensures other { tested_rows 2 (member (codes "mux") (example.number 0) (example.document (example.good ∷ []))) ≡ Err (Key 0) }
    ensures no_array { tested_rows 2 (member (codes "atr") (table example.good) no_members) ≡ Err (Value 0) }
    ensures no_table { tested_rows 2 (member (codes "atr") (array (item (example.number 0) no_items)) no_members) ≡ Err (Value 0) }
    ensures none { tested_rows 2 (example.document []) ≡ Err (Value 0) }
    ensures many { tested_rows 2 (example.document (replicate 33 example.good)) ≡ Err (Value 0) }
{}

/// A table has the keys `mux` and `pairs`, and no other. Tables are told by their place, the first first.
pub fn a_table_has_two_keys()
    ensures no_mux { tested_rows 2 (example.document (example.good ∷ member (codes "pairs") (example.one_pair (example.two (example.number 0x20) (example.number 0x40))) no_members ∷ []))
        ≡ Err (Key 1) }
    ensures no_pairs { tested_rows 2 (example.document (example.good ∷ member (codes "mux") (example.number 0) no_members ∷ [])) ≡ Err (Key 1) }
    ensures other { tested_rows 2 (example.document (member (codes "bus") (example.number 0) example.good ∷ [])) ≡ Err (Key 0) }
    ensures key_first { tested_rows 2 (example.document (member (codes "mux") (example.number 9) no_members ∷ [])) ≡ Err (Key 0) }
    ensures table_first { tested_rows 2 (example.document (example.entry (example.number 9) (example.number 0) ∷ no_members ∷ [])) ≡ Err (Value 0) }
{}

/// `mux` is a mux of the board.
pub fn a_mux_is_one_of_the_board()
    ensures last { tested_rows 2 (example.document (example.entry (example.number 1) (example.one_pair (example.two (example.number 0x20) (example.number 0x40))) ∷ []))
        ≡ Ok (example.entry (example.number 1) (example.one_pair (example.two (example.number 0x20) (example.number 0x40))) ∷ []) }
    ensures past { tested_rows 2 (example.document (example.entry (example.number 2) (example.one_pair (example.two (example.number 0x20) (example.number 0x40))) ∷ []))
        ≡ Err (Value 0) }
    ensures negative { tested_rows 2 (example.document (example.entry (integer (negsuc 0)) (example.one_pair (example.two (example.number 0x20) (example.number 0x40))) ∷ []))
        ≡ Err (Value 0) }
    ensures word { tested_rows 2 (example.document (example.entry (string (codes "0")) (example.one_pair (example.two (example.number 0x20) (example.number 0x40))) ∷ []))
        ≡ Err (Value 0) }
    ensures without_any { tested_rows 0 (example.document (example.good ∷ [])) ≡ Err (Value 0) }
{}

/// `pairs` has at least one pair of addresses from 0x08 to 0x77, and the first of a pair is the device's own.
pub fn a_pair_is_two_addresses()
    ensures value { translator_value (example.entry (example.number 1) (example.one_pair (example.two (example.number 0x08) (example.number 0x77))))
        ≡ example.at 1 (example.to 0x08 0x77 ∷ []) }
    ensures ends { tested_rows 2 (example.document (example.entry (example.number 1) (example.one_pair (example.two (example.number 0x08) (example.number 0x77))) ∷ []))
        ≡ Ok (example.entry (example.number 1) (example.one_pair (example.two (example.number 0x08) (example.number 0x77))) ∷ []) }
    ensures low { tested_rows 2 (example.document (example.entry (example.number 1) (example.one_pair (example.two (example.number 0x07) (example.number 0x77))) ∷ []))
        ≡ Err (Value 0) }
    ensures high { tested_rows 2 (example.document (example.entry (example.number 1) (example.one_pair (example.two (example.number 0x08) (example.number 0x78))) ∷ []))
        ≡ Err (Value 0) }
    ensures one { tested_rows 2 (example.document (example.entry (example.number 1) (example.one_pair (array (item (example.number 0x20) no_items))) ∷ []))
        ≡ Err (Value 0) }
    ensures three { tested_rows 2 (example.document (example.entry (example.number 1)
        (example.one_pair (array (item (example.number 0x20) (item (example.number 0x40) (item (example.number 0x41) no_items))))) ∷ [])) ≡ Err (Value 0) }
    ensures flat { tested_rows 2 (example.document (example.entry (example.number 1) (example.two (example.number 0x20) (example.number 0x40)) ∷ [])) ≡ Err (Value 0) }
    ensures none { tested_rows 2 (example.document (example.entry (example.number 1) (array no_items) ∷ [])) ≡ Err (Value 0) }
{}
