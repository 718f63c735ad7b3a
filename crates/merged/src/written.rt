// The list, written: 101 bytes for each entry.
ghost use Rattle.std.specs.Prelude.{◌≡◌, ◌+◌, ◌*◌, ◌≤◌, length};
ghost use Rattle.octet.specs.Part.{splice};
ghost use Rattle.table.specs.Rows.{rows};
ghost use Rattle.changed.specs.Changes.{changes};
ghost use Rattle.changed.specs.Entries.{list_bytes};
ghost use Rattle.merged.specs.Steps.{gone_bytes, held_bytes, step_bytes};

use crate::merge::step;

// How many bytes an entry has: its kind, and a record.
pub const CHANGE_LEN: usize = 101;

// The entry of the key gone that the record at place i has.
fn put_gone(before: &[u8], i: usize, output: &mut [u8], at: usize)
    requires i_in_bounds { 100 * i + 100 ≤ length «before».now }
    requires at_in_bounds { at + 101 ≤ length output.old }
    ensures { output.new ≡ splice at (gone_bytes «before».now i) output.old }
{
    let kind = [1];
    runs::copy_to(output, at, &kind);
    runs::copy_block::<32>(output, at + 1, before, record::RECORD_LEN * i);
    runs::clear(output, at + 33, 68);
}

// The entry of another kind, with the record at place j.
fn put_held(kind: u8, after: &[u8], j: usize, output: &mut [u8], at: usize)
    requires j_in_bounds { 100 * j + 100 ≤ length «after».now }
    requires at_in_bounds { at + 101 ≤ length output.old }
    ensures { output.new ≡ splice at (held_bytes kind «after».now j) output.old }
{
    let mark = [kind];
    runs::copy_to(output, at, &mark);
    record::copy_piece(
        output,
        at + 1,
        after,
        record::RECORD_LEN * j,
        record::RECORD_LEN,
    );
}

// The entry of a kind at a place, of the records at place i of one cache and place j of the other. Kind 0 has none.
fn put(kind: u8, before: &[u8], i: usize, after: &[u8], j: usize, output: &mut [u8], at: usize)
    requires { (kind ≡ 1 → 100 * i + 100 ≤ length «before».now) × (2 ≤ kind → 100 * j + 100 ≤ length «after».now)
        × (1 ≤ kind → at + 101 ≤ length output.old) }
    ensures { output.new
        ≡ splice at (step_bytes kind «before».now i «after».now j) output.old }
{
    if kind == 0 {
        return;
    }
    if kind == 1 {
        put_gone(before, i, output, at);
        return;
    }
    put_held(kind, after, j, output, at);
}

// The whole list, at the start of the output, which has room for it.
pub fn write(before: &[u8], used: usize, after: &[u8], held: usize, output: &mut [u8])
    requires { (100 * used ≤ length «before».now) × (100 * held ≤ length «after».now) × (used ≤ 256) × (held ≤ 256)
        × (101 * length (changes (rows 100 used «before».now) (rows 100 held «after».now)) ≤ length output.old) }
    ensures { output.new ≡ splice 0
        (list_bytes (changes (rows 100 used «before».now) (rows 100 held «after».now)))
        output.old }
{
    let mut at = 0;
    let mut i = 0;
    let mut j = 0;
    while i + j < used + held {
        let next = step(before, used, i, after, held, j);
        put(next.kind, before, i, after, j, output, at);
        i += next.old;
        j += next.new;
        at += CHANGE_LEN * next.entries;
    }
}
