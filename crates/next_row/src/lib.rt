// Rows of records, one after the other: the closest of those that are looked for.
#![tactic(auto)]

ghost use Rattle.std.specs.Prelude.{◌≡◌, true, ◌&&◌, List, ℕ, ◌+◌, ◌*◌, ◌≤◌, ◌<◌, length, get_or};
ghost use Rattle.octet.specs.Part.{part};
ghost use Rattle.key.specs.Number.{number};
ghost use Rattle.record.specs.Record.{record_form};
ghost use Rattle.table.specs.Rows.{rows};
ghost use Rattle.kept.specs.Keys.{Every};
ghost use Rattle.next_row.specs.Walk.{wanted as wantedOf, row_at, takes_over, place_among};

use key::Key;

// Is the record at a place looked for: not on the path, and, where one is to be left out, not of the key k?
fn is_wanted(s: &[u8], at: usize, path: &[u8], leave: bool, k: Key) -> bool
    requires { (at + 100 ≤ length s.now) × (get_or s.now (at + 34) 0 ≤ 4) }
    ensures { result ≡ wantedOf path.now leave (number k) (part at 100 s.now) }
{
    if path::on_path(s, at, path) {
        return false;
    }
    if !leave {
        return true;
    }
    !key::is_same(key::key_at(s, at), k)
}

// Is row i taken in place of the best so far, which is n where there is none?
fn is_taken(
    s: &[u8],
    n: usize,
    best: usize,
    i: usize,
    path: &[u8],
    target: Key,
    leave: bool,
    k: Key,
) -> bool
    requires { (100 * n ≤ length s.now) × (best ≤ n) × (i < n)
        × Every (λ (q : List ℕ). record_form q ≡ true) (rows 100 n s.now) }
    ensures { result ≡ (wantedOf path.now leave (number k) (part (100 * i) 100 s.now)
        && takes_over (number target) (part (100 * i) 100 s.now) (row_at n s.now best)) }
{
    let start = record::RECORD_LEN * i;
    if !is_wanted(s, start, path, leave, k) {
        return false;
    }
    if best == n {
        return true;
    }
    let near = key::key_at(s, record::RECORD_LEN * best);
    let other = key::key_at(s, start);
    let far = ring::how_far(target, near);
    let away = ring::how_far(target, other);
    ring::is_closer(target, other, away, near, far)
}

// The place of the closest to the target among those of n rows that are looked for; n where there is none.
pub fn row_of(s: &[u8], n: usize, path: &[u8], target: Key, leave: bool, k: Key) -> usize
    requires { (100 * n ≤ length s.now) × Every (λ (q : List ℕ). record_form q ≡ true) (rows 100 n s.now) }
    ensures { result ≡ place_among (number target) (wantedOf path.now leave (number k)) n s.now }
{
    let mut best = n;
    for i in 0..n {
        if is_taken(s, n, best, i, path, target, leave, k) {
            best = i;
        }
    }
    best
}
