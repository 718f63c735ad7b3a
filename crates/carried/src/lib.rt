// Readings carried in the answers: an AUTHORITY with a reading as its extended payload, and the reading that one carries. Two
// numbers are given, and never mixed: document 01's for the message, document 02's for the reading.
#![tactic(auto)]

mod payload;
mod whole;

ghost use Rattle.std.specs.Prelude.{◌≡◌};
ghost use Rattle.readings.specs.Numbers.{reading_of};
ghost use Rattle.readings.specs.Balance.{balance_of};
ghost use Rattle.carried.specs.Carry.{carry, carry_handed, carry_call};
ghost use Rattle.carried.specs.Take.{take_call};

// What writing a reading into an AUTHORITY answers: 01's number, how many bytes were written, 02's number.
#[repr(C)]
#[derive(Clone, Copy)]
pub struct Carry {
    pub number: u32,
    pub length: u32,
    pub reading: u32,
}

// What taking one out answers: 01's number, 02's; the kind, 0 where none is carried; the depth's bits or the fault; litres.
#[repr(C)]
#[derive(Clone, Copy)]
pub struct Taken {
    pub number: u32,
    pub reading: u32,
    pub kind: u32,
    pub measure: u32,
    pub litres_in: u32,
    pub litres_out: u32,
}

// What is answered of a datagram that is no AUTHORITY.
fn unread(number: u32) -> Carry
    ensures { result ≡ carry number 0 0 }
{
    Carry {
        number,
        length: 0,
        reading: 0,
    }
}

// The same AUTHORITY with this reading as its payload, at the start of the output.
pub fn gauge_carry(
    major: u8,
    authority: &[u8],
    kind: u32,
    measure: u32,
    litres_in: u32,
    litres_out: u32,
    output: &mut [u8],
) -> Carry
    ensures { carry_handed result output.new ≡ carry_call major authority.now
        (reading_of kind measure litres_in litres_out) output.old }
{
    if let Some(number) = whole::other_number(major, authority) {
        return unread(number);
    }
    match wire_read::read_authority(authority) {
        Err(number) => unread(u32::from(number)),
        Ok(m) => payload::put_reading(
            major, authority, m, kind, measure, litres_in, litres_out, output,
        ),
    }
}

// The reading that an AUTHORITY carries.
pub fn gauge_carried(major: u8, datagram: &[u8]) -> Taken
    ensures { result ≡ take_call major datagram.now }
{
    if let Some(number) = whole::other_number(major, datagram) {
        return payload::nothing(number, 0);
    }
    match wire_read::read_authority(datagram) {
        Err(number) => payload::nothing(u32::from(number), 0),
        Ok(m) => payload::take_reading(major, datagram, m),
    }
}

// Litres in minus litres out.
pub fn gauge_balance(litres_in: u32, litres_out: u32) -> i64
    ensures { result ≡ balance_of litres_in litres_out }
{
    readings::balance(litres_in, litres_out)
}
