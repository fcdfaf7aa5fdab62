//! Numbers in unsigned LEB128, in room of bytes.

ghost use Rattle.std.specs.Prelude.{◌≡◌, ◌+◌, ◌++◌, ◌∷◌, [], ◌<◌, ◌≤◌, ◌^◌, length};
ghost use Rattle.event_buffer.specs.Rooms.{room_of};
ghost use Rattle.event_buffer.specs.Records.{leb128};
ghost use Rattle.event_buffer.specs.Reading.{number_in, behind_number};

use crate::room::Room;

/// Appends a byte that there is room for.
#[inline(always)]
pub(crate) fn put_byte(bytes: &mut Room, byte: u8)
    requires room { length bytes.old.items < bytes.old.capacity }
    ensures { bytes.new ≡ room_of (bytes.old.items ++ byte ∷ []) bytes.old.capacity }
{
    bytes.push_back(byte);
}

/// How many bytes a number has, byte after byte.
fn length_of_bytes(number: u64) -> usize
    ensures length { result ≡ length (leb128 number) }
    ensures short { result ≤ 10 }
    ensures narrow { number < 2 ^ 32 → result ≤ 5 }
{
    if number < 128 {
        1
    } else {
        1 + length_of_bytes(number / 128)
    }
}

/// The same; a small number, as mostly, has one.
#[inline(always)]
pub(crate) fn length_of_number(number: u64) -> usize
    ensures length { result ≡ length (leb128 number) }
    ensures short { result ≤ 10 }
    ensures narrow { number < 2 ^ 32 → result ≤ 5 }
{
    if number < 128 {
        1
    } else {
        length_of_bytes(number)
    }
}

/// Appends a number that there is room for, byte after byte.
fn put_bytes(bytes: &mut Room, number: u64)
    requires room { length bytes.old.items + length (leb128 number) ≤ bytes.old.capacity }
    ensures { bytes.new ≡ room_of (bytes.old.items ++ leb128 number) bytes.old.capacity }
{
    if number < 128 {
        put_byte(bytes, number as u8);
    } else {
        put_byte(bytes, (number % 128 + 128) as u8);
        put_bytes(bytes, number / 128);
    }
}

/// The same; of a small number, as mostly, it is one byte.
#[inline(always)]
pub(crate) fn put_number(bytes: &mut Room, number: u64)
    requires room { length bytes.old.items + length (leb128 number) ≤ bytes.old.capacity }
    ensures { bytes.new ≡ room_of (bytes.old.items ++ leb128 number) bytes.old.capacity }
{
    if number < 128 {
        put_byte(bytes, number as u8);
    } else {
        put_bytes(bytes, number);
    }
}

/// Takes the number at the front, byte after byte.
fn take_bytes(bytes: &mut Room) -> u64
    requires { number_in bytes.old.items < 2 ^ 64 }
    ensures value { result ≡ number_in bytes.old.items }
    ensures rest { bytes.new ≡ room_of (behind_number bytes.old.items) bytes.old.capacity }
{
    match bytes.pop_front() {
        None => 0,
        Some(byte) => {
            if byte < 128 {
                byte as u64
            } else {
                (byte - 128) as u64 + 128 * take_bytes(bytes)
            }
        }
    }
}

/// The same; of a small number, as mostly, it is one byte.
#[inline(always)]
pub(crate) fn take_number(bytes: &mut Room) -> u64
    requires { number_in bytes.old.items < 2 ^ 64 }
    ensures value { result ≡ number_in bytes.old.items }
    ensures rest { bytes.new ≡ room_of (behind_number bytes.old.items) bytes.old.capacity }
{
    match bytes.pop_front() {
        None => 0,
        Some(byte) => {
            if byte < 128 {
                byte as u64
            } else {
                (byte - 128) as u64 + 128 * take_bytes(bytes)
            }
        }
    }
}
