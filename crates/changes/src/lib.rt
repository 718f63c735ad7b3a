// What changed overnight (document 02, request 10): two saved caches of one gauge are compared, and what changed is listed.
#![tactic(auto)]

ghost use Rattle.std.specs.Prelude.{◌≡◌, ◌*◌, ◌≤◌, length};
ghost use Rattle.table.specs.Rows.{rows};
ghost use Rattle.changed.specs.Changes.{changes};
ghost use Rattle.changes.specs.Listed.{listed, list_or_room, list_call};

// The list of what changed between so many records of two caches in form, where the output has room for it. It is counted
// before a byte is written.
fn list(
    before: &[u8],
    used: usize,
    after: &[u8],
    held: usize,
    output: &mut [u8],
) -> gauge_commit::Answer
    requires { (100 * used ≤ length «before».now) × (100 * held ≤ length «after».now) × (used ≤ 256) × (held ≤ 256) }
    ensures { listed result output.new ≡ list_or_room
        (changes (rows 100 used «before».now) (rows 100 held «after».now)) output.old }
{
    let entries = merged::count(before, used, after, held);
    let size = merged::CHANGE_LEN * entries;
    if output.len() < size {
        return gauge_commit::answer_of(refusal::ROOM, 0, 0);
    }
    merged::write(before, used, after, held, output);
    gauge_commit::answer_of(0, entries, size)
}

// The changes from one cache to another of the same own records and the same length, in key order: how many, and how many
// bytes they take at the start of the output, 101 each.
pub fn gauge_changes(
    own: &[u8],
    before: &[u8],
    after: &[u8],
    output: &mut [u8],
) -> gauge_commit::Answer
    ensures { listed result output.new
        ≡ list_call own.now «before».now «after».now output.old }
{
    let Some(used) = cache::memory(own, before) else {
        return gauge_commit::answer_of(refusal::MEMORY, 0, 0);
    };
    let Some(held) = cache::form(own, after) else {
        return gauge_commit::answer_of(refusal::MEMORY, 0, 0);
    };
    if before.len() != after.len() {
        return gauge_commit::answer_of(refusal::MEMORY, 0, 0);
    }
    list(before, used, after, held, output)
}
