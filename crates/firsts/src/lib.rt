// How many held keys begin with each byte: 256 counts of 16 bits beside the cache, each raised and lowered by itself, and
// compared with the keys held.
#![tactic(auto)]

ghost use Rattle.std.specs.Prelude.{◌≡◌, [], map, ◌+◌, ◌-◌, ◌*◌, ◌≤◌, ◌<◌, length};
ghost use Rattle.octet.specs.Part.{same};
ghost use Rattle.key.specs.Number.{number};
ghost use Rattle.record.specs.Record.{key_of};
ghost use Rattle.table.specs.Rows.{rows};
ghost use Rattle.firsts.specs.Firsts.{first_byte, firsts_of};
ghost use Rattle.firsts.specs.Places.{count_at, with_count};

use key::Key;

// How many bytes the counts have.
pub const FIRSTS_LEN: usize = 512;

// One more for a byte.
pub fn count_up(firsts: &mut [u8], byte: u8)
    requires { (length firsts.old ≡ 512) × (count_at byte firsts.old < 65535) }
    ensures { firsts.new
        ≡ with_count byte (count_at byte firsts.old + 1) firsts.old }
{
    let at = 2 * (byte as usize);
    let n = octet::read_u16_le(firsts, at);
    octet::write_u16_le(firsts, at, n + 1);
}

// One less for a byte.
pub fn count_down(firsts: &mut [u8], byte: u8)
    requires { (length firsts.old ≡ 512) × (0 < count_at byte firsts.old) }
    ensures { firsts.new
        ≡ with_count byte (count_at byte firsts.old - 1) firsts.old }
{
    let at = 2 * (byte as usize);
    let n = octet::read_u16_le(firsts, at);
    octet::write_u16_le(firsts, at, n - 1);
}

// The byte that a key in hand begins with.
pub fn first_byte(key: Key) -> u8
    ensures { result ≡ first_byte (number key) }
{
    (key.a / 72057594037927936) as u8
}

// The key of one record more is counted.
fn count_record(cache: &[u8], i: usize, fresh: &mut [u8])
    requires { (100 * i + 100 ≤ length cache.now) × (i < 256) × (fresh.old ≡ firsts_of (map key_of (rows 100 i cache.now))) }
    ensures { fresh.new ≡ firsts_of (map key_of (rows 100 (i + 1) cache.now)) }
{
    count_up(fresh, cache[record::RECORD_LEN * i]);
}

// Those of four records more: one turn of a loop for the four.
fn count_four(cache: &[u8], i: usize, fresh: &mut [u8])
    requires { (100 * i + 400 ≤ length cache.now) × (i + 4 ≤ 256) × (fresh.old ≡ firsts_of (map key_of (rows 100 i cache.now))) }
    ensures { fresh.new ≡ firsts_of (map key_of (rows 100 (i + 4) cache.now)) }
{
    count_record(cache, i, fresh);
    count_record(cache, i + 1, fresh);
    count_record(cache, i + 2, fresh);
    count_record(cache, i + 3, fresh);
}

// The keys held are counted afresh, into counts that are zero.
fn count_keys(cache: &[u8], used: usize, fresh: &mut [u8])
    requires { (100 * used ≤ length cache.now) × (used ≤ 256) × (fresh.old ≡ firsts_of []) }
    ensures { fresh.new ≡ firsts_of (map key_of (rows 100 used cache.now)) }
{
    let fours = used / 4;
    for four in 0..fours {
        count_four(cache, 4 * four, fresh);
    }
    for i in 4 * fours..used {
        count_record(cache, i, fresh);
    }
}

// Are these the counts of the keys held?
pub fn agree(cache: &[u8], used: usize, firsts: &[u8]) -> bool
    requires { (100 * used ≤ length cache.now) × (used ≤ 256) }
    ensures { result ≡ same firsts.now (firsts_of (map key_of (rows 100 used cache.now))) }
{
    let mut fresh = [0u8; FIRSTS_LEN];
    count_keys(cache, used, &mut fresh);
    octet::equal(firsts, &fresh)
}
