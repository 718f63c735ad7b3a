// A reading out of bytes.
ghost use Rattle.std.specs.Prelude.{◌≡◌};
ghost use Rattle.readings.specs.Unpack.{unpack_of, unpack_number};
ghost use Rattle.readings.specs.Kinds.{depth_in, fault_in};

use readings::{Measured, Reading};

// The reading that the whole slice is; 1 where its length is wrong, 2 for an unknown kind, 3 where the depth is outside.
pub fn unpack(s: &[u8]) -> Result<Reading, u32>
    ensures { result ≡ unpack_of s.now }
{
    if s.len() < 4 {
        return Err(1);
    }
    let told = usize::from(octet::read_u16_le(s, 0));
    if s.len() != 2 + told {
        return Err(1);
    }
    let kind = octet::read_u16_le(s, 2);
    if kind == 1 {
        return unpack_depth(s);
    }
    if kind == 2 {
        return unpack_fault(s);
    }
    Err(2)
}

// The same, once the kind is known to be 1, or 2.
fn unpack_depth(s: &[u8]) -> Result<Reading, u32>
    ensures { result ≡ depth_in s.now }
{
    if s.len() != 16 {
        return Err(1);
    }
    let bits = octet::read_u32_le(s, 4);
    let inflow = octet::read_u32_le(s, 8);
    let outflow = octet::read_u32_le(s, 12);
    readings::depth_reading(bits, inflow, outflow)
}

fn unpack_fault(s: &[u8]) -> Result<Reading, u32>
    ensures { result ≡ fault_in s.now }
{
    if s.len() != 14 {
        return Err(1);
    }
    let fault = octet::read_u16_le(s, 4);
    let inflow = octet::read_u32_le(s, 6);
    let outflow = octet::read_u32_le(s, 10);
    Ok(Reading {
        measured: Measured::Fault(fault),
        inflow,
        outflow,
    })
}

// 0 with a reading.
pub fn unpack_number(answer: Result<Reading, u32>) -> u32
    ensures { result ≡ unpack_number answer }
{
    match answer {
        Ok(_) => 0,
        Err(number) => number,
    }
}
