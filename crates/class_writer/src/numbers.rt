//! Big-endian numbers (JVM Specification 4).

ghost use Rattle.std.specs.Prelude.{◌≡◌, ◌++◌, OnOk};
ghost use Rattle.const_pool.specs.Pool.{u1, u2, u4, u8 as u8_bytes};

use byteorder::{BigEndian, ByteOrder};
use jf_bytes::NoMemory;

/// Appends a u1.
pub(crate) fn push_u8(out: &mut Vec<u8>, number: u8) -> Result<(), NoMemory>
    ensures { OnOk result (out.new.items ≡ out.old.items ++ u1 number) }
{
    out.push(number)?;
    Ok(())
}

/// Appends a u2.
pub(crate) fn push_u16(out: &mut Vec<u8>, number: u16) -> Result<(), NoMemory>
    ensures { OnOk result (out.new.items ≡ out.old.items ++ u2 number) }
{
    let mut bytes = [0; 2];
    BigEndian::write_u16(&mut bytes, number);
    out.extend_from_slice(&bytes)?;
    Ok(())
}

/// Appends a u4.
pub(crate) fn push_u32(out: &mut Vec<u8>, number: u32) -> Result<(), NoMemory>
    ensures { OnOk result (out.new.items ≡ out.old.items ++ u4 number) }
{
    let mut bytes = [0; 4];
    BigEndian::write_u32(&mut bytes, number);
    out.extend_from_slice(&bytes)?;
    Ok(())
}

/// Appends the eight bytes of a Long or a Double.
pub(crate) fn push_u64(out: &mut Vec<u8>, number: u64) -> Result<(), NoMemory>
    ensures { OnOk result (out.new.items ≡ out.old.items ++ u8_bytes number) }
{
    let mut bytes = [0; 8];
    BigEndian::write_u64(&mut bytes, number);
    out.extend_from_slice(&bytes)?;
    Ok(())
}
