//! Whether devices are the same, by what they answer.

use i2c_base::{Answer, Event, Target};
use std::alloc::Global;
use targets::DeviceState;

/// How many bytes are read of each device: as many as a register device has.
const LENGTH: u16 = 256;

/// How many pointers a temperature sensor has.
const POINTERS: u8 = 4;

/// Both are one answer.
pub fn same_answer(one: Answer, other: Answer) -> bool {
    match (one, other) {
        (Answer::Byte(one), Answer::Byte(other)) => one == other,
        (Answer::Ack, Answer::Ack)
        | (Answer::Nack, Answer::Nack)
        | (Answer::Slow, Answer::Slow)
        | (Answer::Nothing, Answer::Nothing) => true,
        _ => false,
    }
}

// Both answer alike to an event.
fn same_at(one: &mut DeviceState, other: &mut DeviceState, event: Event) -> bool {
    same_answer(one.on(event), other.on(event))
}

// Both answer alike to so many gets.
fn same_bytes(one: &mut DeviceState, other: &mut DeviceState) -> bool {
    for _ in 0..LENGTH {
        if !same_at(one, other, Event::Get { ack: true }) {
            return false;
        }
    }
    true
}

/// Both answer alike to a start that reads, to a get for each byte, and to a stop.
pub fn same_device(alloc: Global, one: &DeviceState, other: &DeviceState) -> bool {
    match (one.copied(alloc), other.copied(alloc)) {
        (Ok(mut one), Ok(mut other)) => {
            same_at(&mut one, &mut other, Event::Start { reading: true })
                && same_bytes(&mut one, &mut other)
                && same_at(&mut one, &mut other, Event::Stop)
        }
        _ => false,
    }
}

/// These devices are in the same states.
pub fn same_devices(alloc: Global, devices: &[DeviceState], others: &[DeviceState]) -> bool {
    for (one, other) in devices.iter().zip(others.iter()) {
        if !same_device(alloc, one, other) {
            return false;
        }
    }
    devices.len() == others.len()
}

// Both answer alike to a write of a pointer, to a start that reads, to a get of each byte of a word, and to a stop.
fn same_word(one: &mut DeviceState, other: &mut DeviceState, pointer: u8) -> bool {
    same_at(one, other, Event::Start { reading: false })
        && same_at(one, other, Event::Put(pointer))
        && same_at(one, other, Event::Start { reading: true })
        && same_at(one, other, Event::Get { ack: true })
        && same_at(one, other, Event::Get { ack: false })
        && same_at(one, other, Event::Stop)
}

/// These devices hold the same words after their first pointers, as many as a temperature sensor has.
pub fn same_registers(alloc: Global, devices: &[DeviceState], others: &[DeviceState]) -> bool {
    for (one, other) in devices.iter().zip(others.iter()) {
        let (Ok(mut one), Ok(mut other)) = (one.copied(alloc), other.copied(alloc)) else {
            return false;
        };
        for pointer in 0..POINTERS {
            if !same_word(&mut one, &mut other, pointer) {
                return false;
            }
        }
    }
    devices.len() == others.len()
}
