//! The line `sensors`: the temperature of each sensor that a driver is bound to.

ghost use Rattle.std.specs.Prelude.{◌≡◌, ℕ, ◌+◌, ◌*◌, ◌<◌, ◌≤◌, ◌++◌, List, map, zip, length, IfOk};
ghost use Rattle.std.specs.List.{flat_map};
ghost use Rattle.bus_journal.specs.Reports.{line_ended};
ghost use Rattle.i2c_base.specs.Fitting.{Fits};
ghost use Rattle.i2c_base.specs.Replies.{reply_by};
ghost use Rattle.smb_emul.specs.Calls.{messages_of_call};
ghost use Rattle.i2c_drivers.specs.Bound.{sensors_of};
ghost use Rattle.i2c_drivers.specs.Lm75.{read_call};
ghost use Rattle.i2c_drivers.specs.Sensors.{line_of, senses, sensor_line, sensor_name};
ghost use Rattle.tools.specs.declared.command.driver.lm75.RegName.TheVariants.{Temp};
ghost use Rattle.tools.specs.Dialogues.{MOST_PLACES, AreReplies, next_place};

use crate::bound::{Sensor, bound_sensors};
use crate::text::push_number;
use bus_journal::hex_digit;
use i2c_base::{NoMemory, ReplyHead, Transfer};
use i2c_board::Board;
use std::alloc::Global;
use std::marker::Model;
use tools::{RegName, Text, Window};

/// The sensors of a board that a driver is bound to. A contract sees the list of them.
#[derive(Drop)]
pub struct Sensors {
    list: Vec<Sensor>,
}

impl Model for Sensors {
    ghost use Rattle.std.specs.Prelude.{◌≤◌, List, length};
    ghost use Rattle.i2c_base.specs.Limits.{MOST_DEVICES};
    ghost use Rattle.i2c_drivers.specs.declared.bound.Sensor.{Sensor as TheSensor};

    ghost Value = { List TheSensor };

    ghost view = { λ s. s.list.items };

    ghost invariant = { λ s. length s.list.items ≤ MOST_DEVICES };
}

// The most bytes of a line with its end.
const MOST_OF_LINE: usize = 22;

impl Sensors {
    /// The sensors of a board. Being out of memory is the only failure.
    pub fn open(alloc: Global, board: &Board) -> Result<Self, NoMemory>
        ensures { IfOk result (λ s. s ≡ sensors_of board.now) }
    {
        let list = bound_sensors(alloc, board)?;
        Ok(Sensors { list })
    }

    /// How many places it has: one a sensor.
    pub fn places(&self) -> u16
        ensures value { result ≡ (senses self.now).places }
        ensures few { result ≤ MOST_PLACES }
    {
        self.list.len() as u16
    }

    /// Puts the transfer at a place in place of another.
    pub fn put(&self, place: u16, transfer: &mut Transfer)
        requires { place < (senses self.now).places }
        ensures { transfer.new ≡ (senses self.now).at place }
    {
        if let Some(sensor) = self.list.get(usize::from(place)) {
            sensor.put_read(RegName::Temp, transfer);
        }
    }

    /// The place after a reply, whatever it is.
    pub fn behind(&self, place: u16) -> u16
        requires { place < (senses self.now).places }
        ensures { result ≡ place + 1 }
    {
        let _ = &self.list;
        place + 1
    }

    /// Prints a line a sensor.
    pub fn print(&self, replies: Window<'_>, out: &mut Text)
        requires fit { AreReplies (senses self.now) 0 replies }
        requires room { (senses self.now).most ≤ out.old.room }
        ensures bytes { out.new.bytes ≡ out.old.bytes ++ flat_map line_ended ((senses self.now).lines replies.entry) }
        ensures room { out.old.room ≤ out.new.room + (senses self.now).most }
    {
        push_lines(out, self.list.as_slice(), &replies);
    }

    /// The most bytes that it prints.
    pub fn most(&self) -> usize
        ensures { result ≡ (senses self.now).most }
    {
        MOST_OF_LINE * self.list.len()
    }
}

// Prints what stands before the temperature of a sensor: its bus and its address.
#[tactic(auto, using(bus_journal::proofs::Decimal::wide_digits))]
fn push_name(out: &mut Text, sensor: &Sensor)
    requires { 11 ≤ out.old.room }
    ensures bytes { out.new.bytes ≡ out.old.bytes ++ sensor_name sensor.now }
    ensures room { out.old.room ≤ out.new.room + 11 }
{
    push_number(out, u32::from(sensor.bus));
    let addr = sensor.addr.get();
    out.push(&[
        b'-',
        b'0',
        b'0',
        hex_digit(addr / 16),
        hex_digit(addr % 16),
        b' ',
    ]);
}

// Prints the line of a sensor.
fn push_line(out: &mut Text, sensor: &Sensor, head: ReplyHead, bytes: &[u8])
    requires fits { Fits (messages_of_call (read_call sensor.now Temp)) (reply_by head bytes.now) }
    requires room { 22 ≤ out.old.room }
    ensures bytes { out.new.bytes ≡ out.old.bytes ++ line_ended (sensor_line sensor.now (reply_by head bytes.now)) }
    ensures room { out.old.room ≤ out.new.room + 22 }
{
    push_name(out, sensor);
    sensor.push_reading(out, RegName::Temp, head, bytes);
    out.push_byte(b'\n');
}

// Prints a line for each of these sensors that was answered.
fn push_lines(out: &mut Text, sensors: &[Sensor], replies: &Window<'_>)
    requires fit { AreReplies (senses sensors.now) 0 replies.now }
    requires room { 22 * length sensors.now ≤ out.old.room }
    ensures bytes { out.new.bytes ≡ out.old.bytes ++ flat_map line_ended (map line_of (zip sensors.now replies.now)) }
    ensures room { out.old.room ≤ out.new.room + 22 * length sensors.now }
{
    for (place, sensor) in sensors.iter().enumerate() {
        match replies.get(place) {
            Some((head, bytes)) => push_line(out, sensor, head, bytes),
            None => return,
        }
    }
}
