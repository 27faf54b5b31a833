//! The keys of a board file, and which of them each table may have.
ghost use Rattle.std.specs.Prelude.{◌≡◌, ◌<◌, length, map};
ghost use Rattle.toml.specs.View.{table_view};
ghost use Rattle.i2c_boardtext.specs.Keys.{bus_rule, set_rule, top_rules, root_rules, every_mux, chip_mux, mux_rules};
ghost use Rattle.i2c_boardtext.specs.Rules.{key_rule, table_fault};

use crate::fault::TableFault;
use crate::numbers::{ADDRESS, CHANNELS, FOREIGN, VERSION};
use crate::rule::{Rule, Test, may_have, needs, table_fault};
use arrayvec::ArrayVec;
use i2c_base::MuxKind;
use toml::Table;

/// The rules of a table: no table has more.
pub type Rules = ArrayVec<Rule, 8>;

/// The bus, one of those so far.
pub fn bus(buses: u16) -> Rule
    requires some { 0 < buses }
    ensures { key_rule result ≡ bus_rule buses }
{
    needs("bus", Test::Range(0, u32::from(buses) - 1))
}

/// The runs that are written into a memory of this size.
pub fn runs(size: u32) -> Rule
    ensures { key_rule result ≡ set_rule size }
{
    may_have("set", Test::Runs(size))
}

// The keys of the top of a document.
fn top_rules() -> Rules
    ensures { map key_rule result.items ≡ top_rules }
{
    let mut rules: Rules = ArrayVec::new();
    rules.push(VERSION.has_to_say());
    rules.push(may_have("root", Test::Tables));
    rules.push(may_have("mux", Test::Tables));
    rules.push(may_have("device", Test::Tables));
    rules
}

/// What is wrong with the top of a document.
pub fn top_fault(table: &Table) -> Option<TableFault>
    ensures { result ≡ table_fault top_rules (table_view table.now) }
{
    table_fault(table, top_rules().as_slice())
}

/// What is wrong with a root.
pub fn root_fault(table: &Table) -> Option<TableFault>
    ensures { result ≡ table_fault root_rules (table_view table.now) }
{
    table_fault(table, &[may_have("offers", Test::Offers)])
}

// The keys of every mux: its bus and its kind, which locks a transfer through it takes, and what it does after one.
fn every_mux(buses: u16) -> Rules
    requires some { 0 < buses }
    ensures rules { map key_rule result.items ≡ every_mux buses }
    ensures few { length result.items ≡ 4 }
{
    let mut rules: Rules = ArrayVec::new();
    rules.push(bus(buses));
    rules.push(needs("kind", Test::Kind));
    rules.push(may_have("lock", Test::Lock));
    rules.push(may_have("idle", Test::Idle));
    rules
}

// The keys of the muxes with a chip, but for an arbitrator's own: the board may have a place for it, but no chip.
fn chip_mux(buses: u16) -> Rules
    requires some { 0 < buses }
    ensures rules { map key_rule result.items ≡ chip_mux buses }
    ensures few { length result.items ≡ 6 }
{
    let mut rules = every_mux(buses);
    rules.push(ADDRESS.has_to_say());
    rules.push(may_have("absent", Test::Flag));
    rules
}

// The keys of a mux of this kind.
fn mux_rules(buses: u16, mux: MuxKind) -> Rules
    requires some { 0 < buses }
    ensures { map key_rule result.items ≡ mux_rules buses mux }
{
    let facts = mux.facts();
    if facts.by_line {
        let mut rules = every_mux(buses);
        rules.push(CHANNELS.has_to_say());
        rules
    } else if facts.asks {
        let mut rules = chip_mux(buses);
        rules.push(FOREIGN.may_say());
        rules
    } else {
        chip_mux(buses)
    }
}

/// What is wrong with a mux of this kind, with these buses before its channels.
pub fn mux_fault(table: &Table, buses: u16, mux: MuxKind) -> Option<TableFault>
    requires some { 0 < buses }
    ensures { result ≡ table_fault (mux_rules buses mux) (table_view table.now) }
{
    table_fault(table, mux_rules(buses, mux).as_slice())
}
