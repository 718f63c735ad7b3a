// What C calls: the functions of gauge, carried and changes under the names of gauge.h, each with what its own contract says. A crate is a library or a
// static library and never both, so those three stay libraries, and this one is the archive libgauge.a.
#![tactic(auto)]

ghost use Rattle.std.specs.Prelude.{◌≡◌};
ghost use Rattle.wire_read.specs.Answers.{read_in};
ghost use Rattle.look.specs.Seen.{look_of};
ghost use Rattle.gauge_plan.specs.Lent.{Memory, memory, with_cache, with_waiting, with_tables, receive, send, tick, listing, receives, sends, ticks, lists};
ghost use Rattle.gauge_commit.specs.Sending.{handed};
ghost use Rattle.changes.specs.Listed.{listed, list_call};
ghost use Rattle.gauge.specs.Ours.{ours};
ghost use Rattle.gauge.specs.Nearest.{gauge_closest};
ghost use Rattle.gauge.specs.Searching.{gauge_search};
ghost use Rattle.gauge.specs.Converting.{conversion, conversion_of};
ghost use Rattle.readings.specs.Numbers.{reading_of};
ghost use Rattle.readings.specs.Balance.{balance_of};
ghost use Rattle.carried.specs.Carry.{carry_handed, carry_call};
ghost use Rattle.carried.specs.Take.{take_call};

#[unsafe(no_mangle)]
pub extern "C" fn gauge_receive(
    own: &[u8],
    cpas: &[u8],
    cache: &mut [u8],
    firsts: &mut [u8],
    waiting: &mut [u8],
    major: u8,
    minor: u8,
    id: u32,
    nonce: &[u8],
    verdict: u32,
    key: &[u8],
    datagram: &[u8],
    output: &mut [u8],
) -> gauge_commit::Answer
    ensures { handed result (memory cache.new firsts.new waiting.new) output.new
        ≡ ours (memory cache.old firsts.old waiting.old) (receives (receive
        own.now cpas.now major minor id nonce.now verdict key.now
        datagram.now output.old)) }
{
    gauge::gauge_receive(
        own, cpas, cache, firsts, waiting, major, minor, id, nonce, verdict, key, datagram, output,
    )
}

#[unsafe(no_mangle)]
pub extern "C" fn gauge_send(
    own: &[u8],
    cache: &[u8],
    waiting: &mut [u8],
    major: u8,
    minor: u8,
    id: u32,
    neighbour: &[u8],
    key: &[u8],
    output: &mut [u8],
) -> gauge_commit::Answer
    ensures { (m : Memory)
        → handed result (with_tables cache.now waiting.new m) output.new
        ≡ ours (with_tables cache.now waiting.old m) (sends (send own.now major minor id
        neighbour.now key.now output.old)) }
{
    gauge::gauge_send(
        own, cache, waiting, major, minor, id, neighbour, key, output,
    )
}

#[unsafe(no_mangle)]
pub extern "C" fn gauge_tick(
    own: &[u8],
    waiting: &mut [u8],
    output: &mut [u8],
) -> gauge_commit::Answer
    ensures { (m : Memory) → handed result (with_waiting waiting.new m) output.new
        ≡ ours (with_waiting waiting.old m) (ticks (tick own.now output.old)) }
{
    gauge::gauge_tick(own, waiting, output)
}

#[unsafe(no_mangle)]
pub extern "C" fn gauge_neighbours(
    own: &[u8],
    cache: &[u8],
    key: &[u8],
    output: &mut [u8],
) -> gauge_commit::Answer
    ensures { (m : Memory) → handed result (with_cache cache.now m) output.new
        ≡ ours (with_cache cache.now m)
        (lists (listing own.now key.now output.old)) }
{
    gauge::gauge_neighbours(own, cache, key, output)
}

#[unsafe(no_mangle)]
pub extern "C" fn gauge_closest(
    own: &[u8],
    cache: &[u8],
    path: &[u8],
    target: &[u8],
) -> gauge_commit::Answer
    ensures { result ≡ gauge_closest own.now cache.now path.now target.now }
{
    gauge::gauge_closest(own, cache, path, target)
}

#[unsafe(no_mangle)]
pub extern "C" fn gauge_search(own: &[u8], cache: &[u8], key: &[u8]) -> gauge_commit::Answer
    ensures { result ≡ gauge_search own.now cache.now key.now }
{
    gauge::gauge_search(own, cache, key)
}

#[unsafe(no_mangle)]
pub extern "C" fn gauge_look(major: u8, datagram: &[u8]) -> look::Look
    ensures { result ≡ look_of (read_in datagram.now major) }
{
    gauge::gauge_look(major, datagram)
}

#[unsafe(no_mangle)]
pub extern "C" fn gauge_convert(
    own: &[u8],
    cache: &mut [u8],
    waiting: &mut [u8],
) -> gauge_commit::Answer
    ensures { conversion result cache.new waiting.new
        ≡ conversion_of own.now cache.old waiting.old }
{
    gauge::gauge_convert(own, cache, waiting)
}

#[unsafe(no_mangle)]
pub extern "C" fn gauge_changes(
    own: &[u8],
    before: &[u8],
    after: &[u8],
    output: &mut [u8],
) -> gauge_commit::Answer
    ensures { listed result output.new
        ≡ list_call own.now «before».now «after».now output.old }
{
    changes::gauge_changes(own, before, after, output)
}

#[unsafe(no_mangle)]
pub extern "C" fn gauge_carry(
    major: u8,
    authority: &[u8],
    kind: u32,
    measure: u32,
    litres_in: u32,
    litres_out: u32,
    output: &mut [u8],
) -> carried::Carry
    ensures { carry_handed result output.new ≡ carry_call major authority.now
        (reading_of kind measure litres_in litres_out) output.old }
{
    carried::gauge_carry(
        major, authority, kind, measure, litres_in, litres_out, output,
    )
}

#[unsafe(no_mangle)]
pub extern "C" fn gauge_carried(major: u8, datagram: &[u8]) -> carried::Taken
    ensures { result ≡ take_call major datagram.now }
{
    carried::gauge_carried(major, datagram)
}

#[unsafe(no_mangle)]
pub extern "C" fn gauge_balance(litres_in: u32, litres_out: u32) -> i64
    ensures { result ≡ balance_of litres_in litres_out }
{
    carried::gauge_balance(litres_in, litres_out)
}
