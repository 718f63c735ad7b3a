// Records cut to their first address, where they lie (document 02, request 13).
#![tactic(auto)]

ghost use Rattle.std.specs.Prelude.{◌≡◌, map, ◌+◌, ◌≤◌, length};
ghost use Rattle.octet.specs.Part.{part, splice};
ghost use Rattle.table.specs.Rows.{rows, bytes_of, Laid};
ghost use Rattle.cut.specs.Cut.{converted, converted_place};

// The other addresses become zero and the count 1.
pub fn cut_record(s: &mut [u8], at: usize)
    requires { at + 100 ≤ length s.old }
    ensures { s.new ≡ splice at (converted (part at 100 s.old)) s.old }
{
    runs::clear(s, at + 52, 48);
    s[at + 34] = 1;
}

// The record of a waiting place, if it is an inquiry; a flood has none.
fn cut_place(table: &mut [u8], at: usize)
    requires { at + 140 ≤ length table.old }
    ensures { table.new
        ≡ splice at (converted_place (part at 140 table.old)) table.old }
{
    if table[at + 4] != 2 {
        return;
    }
    cut_record(table, at + 40);
}

// The records held.
pub fn cut_records(cache: &mut [u8], held: usize)
    requires { Laid 100 held cache.old }
    ensures { cache.new
        ≡ bytes_of (length cache.old) (map converted (rows 100 held cache.old)) }
{
    for i in 0..held {
        cut_record(cache, record::RECORD_LEN * i);
    }
}

// The used places.
pub fn cut_places(table: &mut [u8], used: usize)
    requires { Laid 140 used table.old }
    ensures { table.new
        ≡ bytes_of (length table.old) (map converted_place (rows 140 used table.old)) }
{
    for i in 0..used {
        cut_place(table, waiting::PLACE_LEN * i);
    }
}
