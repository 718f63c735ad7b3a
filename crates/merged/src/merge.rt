// Two caches in form, walked from their first records on: the smaller of two keys is the next.
ghost use Rattle.std.specs.Prelude.{◌≡◌, ◌+◌, ◌*◌, ◌≤◌, length, drop};
ghost use Rattle.octet.specs.Part.{part};
ghost use Rattle.table.specs.Rows.{rows};
ghost use Rattle.changed.specs.Changes.{changes};
ghost use Rattle.merged.specs.Steps.{step_of, one_key};

use std::cmp::Ordering;

// The kinds of entries, and what is none: the very record in both.
const EQUAL: u8 = 0;

const GONE: u8 = 1;

const NEW: u8 = 2;

const OTHER: u8 = 3;

// What stands next, by its kind; how many records of each cache are passed, and how
// many entries there are, 0 or 1.
#[derive(Clone, Copy)]
pub struct Next {
    pub kind: u8,
    pub old: usize,
    pub new: usize,
    pub entries: usize,
}

// Two records with one key: nothing, or another record.
fn one_key(before: &[u8], i: usize, after: &[u8], j: usize) -> Next
    requires i_in_bounds { 100 * i + 100 ≤ length «before».now }
    requires j_in_bounds { 100 * j + 100 ≤ length «after».now }
    ensures { result ≡ one_key (part (100 * i) 100 «before».now) (part (100 * j) 100 «after».now) }
{
    let at = record::RECORD_LEN * i;
    let to = record::RECORD_LEN * j;
    if record::same_piece(before, at, after, to, record::RECORD_LEN) {
        return Next {
            kind: EQUAL,
            old: 1,
            new: 1,
            entries: 0,
        };
    }
    Next {
        kind: OTHER,
        old: 1,
        new: 1,
        entries: 1,
    }
}

// The step from place i of one cache and place j of the other, where one of them has a record.
pub(crate) fn step(
    before: &[u8],
    used: usize,
    i: usize,
    after: &[u8],
    held: usize,
    j: usize,
) -> Next
    requires i_le_used { (i ≤ used) × (100 * used ≤ length «before».now) }
    requires j_le_held { (j ≤ held) × (100 * held ≤ length «after».now) }
    ensures { result
        ≡ step_of (drop i (rows 100 used «before».now)) (drop j (rows 100 held «after».now)) }
{
    if i == used {
        return Next {
            kind: NEW,
            old: 0,
            new: 1,
            entries: 1,
        };
    }
    if j == held {
        return Next {
            kind: GONE,
            old: 1,
            new: 0,
            entries: 1,
        };
    }
    match key::order_at(
        before,
        record::RECORD_LEN * i,
        after,
        record::RECORD_LEN * j,
    ) {
        Ordering::Less => Next {
            kind: GONE,
            old: 1,
            new: 0,
            entries: 1,
        },
        Ordering::Equal => one_key(before, i, after, j),
        Ordering::Greater => Next {
            kind: NEW,
            old: 0,
            new: 1,
            entries: 1,
        },
    }
}

// How many entries the list has.
pub fn count(before: &[u8], used: usize, after: &[u8], held: usize) -> usize
    requires { (100 * used ≤ length «before».now) × (100 * held ≤ length «after».now) }
    ensures { result
        ≡ length (changes (rows 100 used «before».now) (rows 100 held «after».now)) }
{
    let mut n = 0;
    let mut i = 0;
    let mut j = 0;
    while i + j < used + held {
        let next = step(before, used, i, after, held, j);
        i += next.old;
        j += next.new;
        n += next.entries;
    }
    n
}
