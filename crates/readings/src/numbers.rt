// A reading as plain numbers, as a caller in C has it: kind, measure (the bits of a depth, or the number of a fault), litres
// in, litres out.
ghost use Rattle.std.specs.Prelude.{◌≡◌, true};
ghost use Rattle.readings.specs.Reading.{kind_of, measure_of, fine};
ghost use Rattle.readings.specs.Numbers.{depth_reading, reading_of};

use crate::depth::{bits_of, depth_of_bits};
use crate::{Measured, Reading};

// A reading of kind 1, or 3 where the depth is outside.
pub fn depth_reading(bits: u32, inflow: u32, outflow: u32) -> Result<Reading, u32>
    ensures { result ≡ depth_reading bits inflow outflow }
{
    let Some(depth) = depth_of_bits(bits) else {
        return Err(3);
    };
    Ok(Reading {
        measured: Measured::Depth(depth),
        inflow,
        outflow,
    })
}

// The reading of these numbers; 1 where a fault number does not fit its two bytes, 2 for an unknown kind, 3 where the depth
// is outside.
pub fn reading_of(kind: u32, measure: u32, inflow: u32, outflow: u32) -> Result<Reading, u32>
    ensures { result ≡ reading_of kind measure inflow outflow }
{
    if kind == 1 {
        return depth_reading(measure, inflow, outflow);
    }
    if kind != 2 {
        return Err(2);
    }
    if 65535 < measure {
        return Err(1);
    }
    Ok(Reading {
        measured: Measured::Fault(measure as u16),
        inflow,
        outflow,
    })
}

pub fn kind_of(reading: Reading) -> u32
    ensures { result ≡ kind_of reading.measured }
{
    match reading.measured {
        Measured::Depth(_) => 1,
        Measured::Fault(_) => 2,
    }
}

pub fn measure_of(reading: Reading) -> u32
    ensures { result ≡ measure_of reading.measured }
{
    match reading.measured {
        Measured::Depth(depth) => bits_of(depth),
        Measured::Fault(fault) => u32::from(fault),
    }
}

// The same of a reading that may be written, whose depth is a number.
pub fn measure_allowed(reading: Reading) -> u32
    requires { fine reading.measured ≡ true }
    ensures { result ≡ measure_of reading.measured }
{
    match reading.measured {
        Measured::Depth(depth) => f32::to_bits(depth),
        Measured::Fault(fault) => u32::from(fault),
    }
}
