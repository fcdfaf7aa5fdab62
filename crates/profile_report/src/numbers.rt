//! Numbers in decimal.

ghost use Rattle.std.specs.Prelude.{◌≡◌, ◌++◌, OnOk};
ghost use Rattle.std.specs.Fmt.{decimal, signed_decimal};

use itoa::Buffer;
use jf_bytes::NoMemory;

/// Adds a number.
pub fn push_number(out: &mut Vec<u8>, number: u64) -> Result<(), NoMemory>
    ensures { OnOk result (out.new.items ≡ out.old.items ++ decimal number) }
{
    let mut buffer = Buffer::new();
    out.extend_from_slice(buffer.format(number).as_bytes())?;
    Ok(())
}

/// Adds a sum of numbers.
pub fn push_sum(out: &mut Vec<u8>, sum: u128) -> Result<(), NoMemory>
    ensures { OnOk result (out.new.items ≡ out.old.items ++ decimal sum) }
{
    let mut buffer = Buffer::new();
    out.extend_from_slice(buffer.format(sum).as_bytes())?;
    Ok(())
}

/// Adds an int, with its sign where it is below 0.
pub fn push_int(out: &mut Vec<u8>, int: i32) -> Result<(), NoMemory>
    ensures { OnOk result (out.new.items ≡ out.old.items ++ signed_decimal int) }
{
    let mut buffer = Buffer::new();
    out.extend_from_slice(buffer.format(int).as_bytes())?;
    Ok(())
}
