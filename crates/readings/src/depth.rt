// Depths: which are allowed, and their bits.
ghost use Rattle.std.specs.Prelude.{◌≡◌};
ghost use Rattle.std.specs.Float.{binary32};
ghost use Rattle.std.specs.Float.Ieee.{of_bits, to_bits};
ghost use Rattle.readings.specs.Depth.{allowed, metres_of};

// Are these bits those of an allowed depth? Whole numbers are compared and no floats: a host may have set the processor
// to take the smallest floats for 0 (flush to zero, denormals are zero), and then the greatest below 0, 0x80000001, would
// pass. The bits of 20 are 0x41A00000, and those of all from 0 up to it stand below; negative zero has the sign alone.
fn bits_allowed(bits: u32) -> bool
    ensures { result ≡ allowed (of_bits binary32 bits) }
{
    if bits == 0x8000_0000 {
        return true;
    }
    bits <= 0x41A0_0000
}

// From 0 to 20 metres with both ends. 0 and -0 are one number; what is not a number is in no order, so it is refused.
// The language promises no bits of it, so it is told apart first, by what no setting of the processor changes.
pub fn is_allowed(depth: f32) -> bool
    ensures { result ≡ allowed depth }
{
    if depth != depth {
        return false;
    }
    bits_allowed(f32::to_bits(depth))
}

// The depth of any 32 bits, where it is allowed.
pub fn depth_of_bits(bits: u32) -> Option<f32>
    ensures { result ≡ metres_of bits }
{
    if !bits_allowed(bits) {
        return None;
    }
    Some(f32::from_bits(bits))
}

// The bits of a depth. What is not a number has those that the definition gives it, whatever its own were.
pub fn bits_of(depth: f32) -> u32
    ensures { result ≡ to_bits binary32 depth }
{
    if depth != depth {
        return 0x7FC0_0000;
    }
    f32::to_bits(depth)
}
