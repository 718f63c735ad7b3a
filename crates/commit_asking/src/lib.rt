// The record of a route entry is inquired about, whatever message the entry stands in: the INQUIRE and its place.
#![tactic(auto)]

ghost use Rattle.std.specs.Prelude.{◌≡◌, true, ◌+◌, ◌≤◌, ◌<◌, length};
ghost use Rattle.octet.specs.Part.{part, splice};
ghost use Rattle.record.specs.Entry.{entry_form, record_of};
ghost use Rattle.table.specs.Rows.{rows, bytes_of, Laid};
ghost use Rattle.waiting.specs.Place.{inquiry_place};
ghost use Rattle.waiting.specs.Open.{opened};
ghost use Rattle.wire_write.specs.Making.{inquire_made};
ghost use Rattle.asking.specs.Ids.{id_after};

use wire_sent::Heading;

// A place that waits for the answer about a record opens.
fn open_inquiry(waiting: &mut [u8], used: usize, id: u32, r: &[u8])
    requires { (used < 16) × (length waiting.old ≡ 2240) × Laid 140 used waiting.old × (length r.now ≡ 100) }
    ensures { waiting.new
        ≡ bytes_of 2240 (opened (inquiry_place id r.now) (rows 140 used waiting.old)) }
{
    waiting::open(
        waiting,
        used,
        id,
        waiting::INQUIRY,
        waiting::TRIES,
        &r[0..32],
        r,
    );
}

// The INQUIRE for the key of a record, at a place of the output.
fn send_inquire(output: &mut [u8], at: usize, head: Heading, r: &[u8], nonce: &[u8])
    requires { (at + 76 ≤ length output.old) × (length r.now ≡ 100) × (length nonce.now ≡ 16) }
    ensures { output.new
        ≡ splice at (inquire_made head.major head.minor head.id (part 0 32 r.now) nonce.now).bytes
        output.old }
{
    wire_sent::write_inquire(&mut output[at..], head, &r[0..32], nonce);
}

// The INQUIRE for the key of an entry, written at a place of the output, and the place that waits for its
// answer.
pub fn ask(
    waiting: &mut [u8],
    used: usize,
    head: Heading,
    nonce: &[u8],
    entry: &[u8],
    output: &mut [u8],
    at: usize,
)
    requires { (used < 16) × (length waiting.old ≡ 2240) × Laid 140 used waiting.old × (length nonce.now ≡ 16)
        × (entry_form entry.now ≡ true) × (at + 76 ≤ length output.old) }
    ensures waiting_after { waiting.new
        ≡ bytes_of 2240 (opened (inquiry_place (id_after head.id) (record_of entry.now))
        (rows 140 used waiting.old)) }
    ensures output_after { output.new ≡ splice at (inquire_made head.major head.minor (id_after head.id)
        (part 0 32 (record_of entry.now)) nonce.now).bytes output.old }
{
    let next = Heading {
        id: asking::id_after(head.id),
        ..head
    };
    let mut named = [0u8; record::RECORD_LEN];
    record::put_record(&mut named, 0, entry, 0, entry.len());
    open_inquiry(waiting, used, next.id, &named);
    send_inquire(output, at, next, &named, nonce);
}
