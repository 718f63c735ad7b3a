// A reading into bytes. Every refusal comes before the first byte.
ghost use Rattle.std.specs.Prelude.{◌≡◌, true, ◌++◌, ◌+◌, ◌≤◌, length};
ghost use Rattle.octet.specs.Number.{digits_le};
ghost use Rattle.octet.specs.Part.{splice};
ghost use Rattle.readings.specs.Depth.{allowed};
ghost use Rattle.readings.specs.Reading.{depth_of, fault_of, fine, Typed};
ghost use Rattle.readings.specs.Pack.{pack_handed, pack_of, pack_number};

use readings::{Measured, Reading};

// Writes the reading to the start of `out`; 1 where there is no room, 3 where the depth is outside. Every reading that a program
// can hand in is one of those that the theorems speak of.
pub fn pack(reading: Reading, out: &mut [u8]) -> Result<usize, u32>
    ensures out_after { pack_handed result out.new ≡ pack_of reading out.old }
    ensures typed { Typed reading }
{
    match reading.measured {
        Measured::Depth(depth) => pack_depth(depth, reading.inflow, reading.outflow, out),
        Measured::Fault(fault) => pack_fault(fault, reading.inflow, reading.outflow, out),
    }
}

// The same of a reading that may be written, as those are that were read or made of numbers: nothing is left to be asked
// of its depth but the bits.
pub fn pack_allowed(reading: Reading, out: &mut [u8]) -> Result<usize, u32>
    requires { fine reading.measured ≡ true }
    ensures { pack_handed result out.new ≡ pack_of reading out.old }
{
    match reading.measured {
        Measured::Depth(depth) => put_depth(depth, reading.inflow, reading.outflow, out),
        Measured::Fault(fault) => pack_fault(fault, reading.inflow, reading.outflow, out),
    }
}

fn pack_depth(depth: f32, inflow: u32, outflow: u32, out: &mut [u8]) -> Result<usize, u32>
    ensures out_after { pack_handed result out.new ≡ pack_of (depth_of depth inflow outflow) out.old }
    ensures typed { Typed (depth_of depth inflow outflow) }
{
    if out.len() < 16 {
        return Err(1);
    }
    if !readings::is_allowed(depth) {
        return Err(3);
    }
    put_depth(depth, inflow, outflow, out)
}

// Of a depth that is allowed; 1 where there is no room.
fn put_depth(depth: f32, inflow: u32, outflow: u32, out: &mut [u8]) -> Result<usize, u32>
    requires { allowed depth ≡ true }
    ensures { pack_handed result out.new ≡ pack_of (depth_of depth inflow outflow) out.old }
{
    if out.len() < 16 {
        return Err(1);
    }
    put_head(out, 14, 1);
    octet::write_u32_le(out, 4, f32::to_bits(depth));
    put_litres(out, 8, inflow, outflow);
    Ok(16)
}

fn pack_fault(fault: u16, inflow: u32, outflow: u32, out: &mut [u8]) -> Result<usize, u32>
    ensures out_after { pack_handed result out.new ≡ pack_of (fault_of fault inflow outflow) out.old }
    ensures typed { Typed (fault_of fault inflow outflow) }
{
    if out.len() < 14 {
        return Err(1);
    }
    put_head(out, 12, 2);
    octet::write_u16_le(out, 4, fault);
    put_litres(out, 6, inflow, outflow);
    Ok(14)
}

// The length of what follows it, and the kind.
fn put_head(out: &mut [u8], size: u16, kind: u16)
    requires { 4 ≤ length out.old }
    ensures { out.new ≡ splice 0 (digits_le 256 2 size ++ digits_le 256 2 kind) out.old }
{
    octet::write_u16_le(out, 0, size);
    octet::write_u16_le(out, 2, kind);
}

// Litres in, litres out.
fn put_litres(out: &mut [u8], at: usize, inflow: u32, outflow: u32)
    requires { at + 8 ≤ length out.old }
    ensures { out.new ≡ splice at (digits_le 256 4 inflow ++ digits_le 256 4 outflow) out.old }
{
    octet::write_u32_le(out, at, inflow);
    octet::write_u32_le(out, at + 4, outflow);
}

// 0 where it was written.
pub fn pack_number(answer: Result<usize, u32>) -> u32
    ensures { result ≡ pack_number answer }
{
    match answer {
        Ok(_) => 0,
        Err(number) => number,
    }
}
