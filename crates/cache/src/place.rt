// Where a key stands in the cache.
ghost use Rattle.std.specs.Prelude.{◌≡◌, ◌*◌, ◌≤◌, length};
ghost use Rattle.key.specs.Number.{key_at};
ghost use Rattle.table.specs.Rows.{rows};
ghost use Rattle.kept.specs.Keys.{Rising, plain};
ghost use Rattle.cache.specs.Form.{keys_of};
ghost use Rattle.cache.specs.Place.{find_key};

// Where the key, whose 32 bytes begin the slice, stands among the records held, or before which place it would.
pub fn find(cache: &[u8], used: usize, key: &[u8]) -> Result<usize, usize>
    requires used_in_bounds { 100 * used ≤ length cache.now }
    requires in_bounds { 32 ≤ length key.now }
    requires rising { Rising plain 0 (keys_of (rows 100 used cache.now)) }
    ensures { result ≡ find_key (key_at 0 key.now) (keys_of (rows 100 used cache.now)) }
{
    search::find_key(cache, used, key).found
}
