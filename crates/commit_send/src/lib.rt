// What was planned for a FLOOD to send is done. Nothing here can refuse.
#![tactic(auto)]

ghost use Rattle.std.specs.Prelude.{◌≡◌, true, false, [], ◌∷◌, ◌+◌, ◌*◌, ◌≤◌, ◌<◌, length};
ghost use Rattle.octet.specs.Part.{part};
ghost use Rattle.record.specs.Record.{record_form};
ghost use Rattle.table.specs.Rows.{rows, bytes_of, Laid};
ghost use Rattle.waiting.specs.Place.{flood_place};
ghost use Rattle.waiting.specs.Open.{opened};
ghost use Rattle.wire_write.specs.Making.{flood_made};
ghost use Rattle.plan_send.specs.Send.{record_sent, flood_room};
ghost use Rattle.gauge_commit.specs.Sending.{lengths, sending};

use gauge_commit::Answer;
use wire_sent::Heading;

// A place that waits for a neighbour's ACK opens.
fn open_flood(waiting: &mut [u8], used: usize, id: u32, key: &[u8])
    requires { (used < 16) × (length waiting.old ≡ 2240) × Laid 140 used waiting.old × (length key.now ≡ 32) }
    ensures { waiting.new
        ≡ bytes_of 2240 (opened (flood_place id key.now) (rows 140 used waiting.old)) }
{
    let no_record = [0u8; record::RECORD_LEN];
    waiting::open(
        waiting,
        used,
        id,
        waiting::FLOOD,
        waiting::TRIES,
        key,
        &no_record,
    );
}

// The FLOOD to the neighbour of a key, of the record at a place, at the output's start.
fn send_flood(output: &mut [u8], head: Heading, key: &[u8], s: &[u8], at: usize) -> Answer
    requires { (length key.now ≡ 32) × (at + 100 ≤ length s.now) × (record_form (part at 100 s.now) ≡ true)
        × (flood_room (part at 100 s.now) ≤ length output.old) }
    ensures value { result
        ≡ lengths ((flood_made head.major head.minor head.id key.now (part at 100 s.now) 0).bytes ∷ []) }
    ensures output_after { output.new
        ≡ sending ((flood_made head.major head.minor head.id key.now (part at 100 s.now) 0).bytes ∷ [])
        output.old }
{
    let wrote = wire_sent::write_flood(output, head, key, s, at);
    gauge_commit::answer_of(0, wrote.length, 0)
}

// A FLOOD to send: the record at a place of our own, or of those held, to a neighbour; a place waits for its ACK.
pub fn commit_send(
    own: &[u8],
    cache: &[u8],
    waiting: &mut [u8],
    used: usize,
    head: Heading,
    neighbour: &[u8],
    ours: bool,
    at: usize,
    output: &mut [u8],
) -> Answer
    requires { (used < 16) × (length waiting.old ≡ 2240) × Laid 140 used waiting.old
        × (length neighbour.now ≡ 32) × (ours ≡ true → 100 * at + 100 ≤ length own.now)
        × (ours ≡ false → 100 * at + 100 ≤ length cache.now)
        × (record_form (record_sent own.now cache.now ours at) ≡ true)
        × (flood_room (record_sent own.now cache.now ours at) ≤ length output.old) }
    ensures value { result ≡ lengths ((flood_made head.major head.minor head.id neighbour.now
        (record_sent own.now cache.now ours at) 0).bytes ∷ []) }
    ensures waiting_after { waiting.new
        ≡ bytes_of 2240 (opened (flood_place head.id neighbour.now) (rows 140 used waiting.old)) }
    ensures output_after { output.new ≡ sending ((flood_made head.major head.minor head.id neighbour.now
        (record_sent own.now cache.now ours at) 0).bytes ∷ []) output.old }
{
    open_flood(waiting, used, head.id, neighbour);
    if ours {
        return send_flood(output, head, neighbour, own, record::RECORD_LEN * at);
    }
    send_flood(output, head, neighbour, cache, record::RECORD_LEN * at)
}
