//! What stands at the keys of a table: flags, words, an address, a bus.
ghost use Rattle.std.specs.Prelude.{◌≡◌, ◌<◌, true, false, codes};
ghost use Rattle.toml.specs.Data.{get_member};
ghost use Rattle.toml.specs.View.{view, table_view};
ghost use Rattle.i2c_base.specs.declared.board.Idle.TheVariants.{Disconnect};
ghost use Rattle.i2c_base.specs.declared.board.LockMode.TheVariants.{Parent};
ghost use Rattle.i2c_spec.specs.Numbers.{address_key};
ghost use Rattle.i2c_boardtext.specs.Items.{flag_in};
ghost use Rattle.i2c_boardtext.specs.Keys.{bus_rule};
ghost use Rattle.i2c_boardtext.specs.Names.{offers_named, lock_named, idle_named};
ghost use Rattle.i2c_boardtext.specs.Numbers.{number_at};
ghost use Rattle.i2c_boardtext.specs.Rules.{fits_if_there};
ghost use Rattle.i2c_boardtext.specs.Values.{word_or, bus_in};

use crate::find::{find, number};
use crate::names::{idle_in, lock_in, offers_in};
use crate::numbers::{ADDRESS, number_at};
use i2c_base::{Addr, Idle, LockMode, SegId};
use toml::Table;

/// Whether a flag is set; one that is missing isn't.
pub fn flag(table: &Table, key: &str) -> bool
    ensures { result ≡ flag_in (get_member key.now (table_view table.now)) }
{
    match find(table, key) {
        Some(value) => value.as_bool().unwrap_or(false),
        None => false,
    }
}

/// Whether a root offers SMBus calls alone.
pub fn offers(table: &Table) -> bool
    ensures { result ≡ word_or offers_named false (get_member (codes "offers") (table_view table.now)) }
{
    match find(table, "offers") {
        Some(value) => offers_in(value).unwrap_or(false),
        None => false,
    }
}

/// Which locks a transfer through a mux takes.
pub fn lock(table: &Table) -> LockMode
    ensures { result ≡ word_or lock_named Parent (get_member (codes "lock") (table_view table.now)) }
{
    match find(table, "lock") {
        Some(value) => lock_in(value).unwrap_or(LockMode::Parent),
        None => LockMode::Parent,
    }
}

/// What a mux does after a transfer.
pub fn idle(table: &Table) -> Idle
    ensures { result ≡ word_or idle_named Disconnect (get_member (codes "idle") (table_view table.now)) }
{
    match find(table, "idle") {
        Some(value) => idle_in(value).unwrap_or(Idle::Disconnect),
        None => Idle::Disconnect,
    }
}

/// The address of a target, at its required key.
pub fn address(table: &Table) -> Addr
    ensures { result ≡ number_at address_key (table_view table.now) }
{
    match Addr::new(number_at(table, ADDRESS) as u8) {
        Some(addr) => addr,
        None => unreachable!(),
    }
}

/// A bus below this number, at its required key.
pub fn bus(table: &Table, buses: u16) -> SegId
    requires some { 0 < buses }
    requires fits { fits_if_there (bus_rule buses).test (get_member (codes "bus") (table_view table.now)) ≡ true }
    ensures value { result ≡ bus_in (table_view table.now) }
    ensures placed { result < buses }
{
    match find(table, "bus") {
        Some(value) => SegId(number(value) as u16),
        None => SegId(0),
    }
}
