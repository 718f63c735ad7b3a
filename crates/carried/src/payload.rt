// An AUTHORITY that was read: a reading put in as its payload, and the one that it has taken out.
ghost use Rattle.std.specs.Prelude.{◌≡◌, true, ◌≤◌};
ghost use Rattle.wire_read.specs.Answers.{read_in};
ghost use Rattle.wire_read.specs.Meaning.{message_of};
ghost use Rattle.wire_read.specs.declared.Incoming.TheVariants.{Authority as TheAuthority};
ghost use Rattle.readings.specs.Reading.{fine};
ghost use Rattle.readings.specs.Numbers.{reading_of};
ghost use Rattle.carried.specs.Carry.{carry, carry_handed, carry_as};
ghost use Rattle.carried.specs.Take.{taken, taken_as, taken_by, nothing as nothingTaken};

use crate::{Carry, Taken};
use readings::Reading;
use wire_read::messages::Authority;
use wire_write::Written;

// What writing gave, as C sees it: no datagram is longer than 1,232 bytes.
fn told(done: Written) -> Carry
    requires { done.length ≤ 1232 }
    ensures { result ≡ carry done.number done.length 0 }
{
    Carry {
        number: u32::from(done.number),
        length: done.length as u32,
        reading: 0,
    }
}

fn refused(number: u32) -> Carry
    ensures { result ≡ carry 0 0 number }
{
    Carry {
        number: 0,
        length: 0,
        reading: number,
    }
}

// The reading of these numbers, written where the payload stands.
pub(crate) fn put_reading(
    major: u8,
    d: &[u8],
    m: Authority,
    kind: u32,
    measure: u32,
    inflow: u32,
    outflow: u32,
    output: &mut [u8],
) -> Carry
    requires { read_in d.now major ≡ TheAuthority m }
    ensures { carry_handed result output.new ≡ carry_as (message_of major d.now (TheAuthority m))
        (reading_of kind measure inflow outflow) output.old }
{
    let made = readings::reading_of(kind, measure, inflow, outflow);
    match made {
        Err(number) => refused(number),
        Ok(reading) => put_packed(major, d, m, reading, output),
    }
}

// A reading that may be written has room in 16 bytes.
fn put_packed(major: u8, d: &[u8], m: Authority, reading: Reading, output: &mut [u8]) -> Carry
    requires major_value { read_in d.now major ≡ TheAuthority m }
    requires measured_value { fine reading.measured ≡ true }
    ensures { carry_handed result output.new ≡ carry_as (message_of major d.now (TheAuthority m))
        (Ok reading) output.old }
{
    let mut image = [0u8; 16];
    let packed = packing::pack_allowed(reading, &mut image);
    match packed {
        Err(number) => refused(number),
        Ok(n) => {
            let done = wire_payload::write_payload(output, major, m, d, &image[..n]);
            told(done)
        }
    }
}

// No reading.
pub(crate) fn nothing(number: u32, reading: u32) -> Taken
    ensures { result ≡ nothingTaken number reading }
{
    Taken {
        number,
        reading,
        kind: 0,
        measure: 0,
        litres_in: 0,
        litres_out: 0,
    }
}

// A reading as C sees it. One that was read is one that may be written.
fn shown(reading: Result<Reading, u32>) -> Taken
    requires { (r : Reading) → reading ≡ Ok r → fine r.measured ≡ true }
    ensures { result ≡ taken_by reading }
{
    match reading {
        Err(number) => nothing(0, number),
        Ok(found) => Taken {
            number: 0,
            reading: 0,
            kind: readings::kind_of(found),
            measure: readings::measure_allowed(found),
            litres_in: found.inflow,
            litres_out: found.outflow,
        },
    }
}

// The reading that stands as the payload, or none.
pub(crate) fn take_reading(major: u8, d: &[u8], m: Authority) -> Taken
    requires { read_in d.now major ≡ TheAuthority m }
    ensures { result ≡ taken_as (message_of major d.now (TheAuthority m)) }
{
    let Some(place) = m.fields.payload else {
        return nothing(0, 0);
    };
    shown(packing::unpack(&d[place.start..place.start + place.len]))
}
