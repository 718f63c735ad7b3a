// Of records, one after the other, the one that is closest to a target.
#![tactic(auto)]

ghost use Rattle.std.specs.Prelude.{◌≡◌, ◌*◌, ◌≤◌, ◌<◌, length};
ghost use Rattle.octet.specs.Part.{part};
ghost use Rattle.key.specs.Number.{number};
ghost use Rattle.table.specs.Rows.{rows};
ghost use Rattle.closest_row.specs.Closest.{closest_of, closest_place};

use key::Key;

// The place of the closest of the first n.
pub fn place_of(s: &[u8], n: usize, target: Key) -> usize
    requires { (0 < n) × (100 * n ≤ length s.now) }
    ensures s_value { part (100 * result) 100 s.now ≡ closest_of (number target) (rows 100 n s.now) }
    ensures upper_bound { (result < n) × (result ≡ closest_place (number target) (rows 100 n s.now)) }
{
    let mut best = 0;
    for i in 1..n {
        let near = key::key_at(s, record::RECORD_LEN * best);
        let other = key::key_at(s, record::RECORD_LEN * i);
        let far = ring::how_far(target, near);
        let away = ring::how_far(target, other);
        let closer = ring::is_closer(target, other, away, near, far);
        if closer {
            best = i;
        }
    }
    best
}
