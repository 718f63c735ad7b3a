// The ways in which a record can be bad.
ghost use Rattle.std.specs.Prelude.{◌≡◌};
ghost use Rattle.refusal.specs.Table.{first_of};
ghost use Rattle.trace.specs.Trace.{body_fits, is_kind};
ghost use Rattle.trace.specs.Fault.{faults, ends, misplaced as misplacedRows};

// A body has the length of its kind; of an unknown kind any will do.
fn body_fits(kind: u16, len: usize) -> bool
    ensures { result ≡ body_fits kind len }
{
    if kind == 1 {
        return 53 <= len;
    }
    if kind == 2 {
        return len == 68;
    }
    if kind == 3 {
        return len == 0;
    }
    if kind != 4 {
        return true;
    }
    len == 102
}

fn is_kind(kind: u16) -> bool
    ensures { result ≡ is_kind kind }
{
    if kind == 0 {
        return false;
    }
    kind < 5
}

// 16 for record number `at` cut short or of wrong length; 17 where its kind is unknown, or where it should open the night and
// does not, or opens it again; 0 where it is good.
pub fn fault_of(at: u64, piece: &[u8]) -> u32
    ensures { result ≡ first_of (faults at piece.now) }
{
    let len = piece.len();
    if len < 4 {
        return 16;
    }
    let told = octet::read_u16_le(piece, 0) as usize;
    if len != 2 + told {
        return 16;
    }
    let kind = octet::read_u16_le(piece, 2);
    if !body_fits(kind, len - 4) {
        return 16;
    }
    if !is_kind(kind) {
        return 17;
    }
    misplaced(at, kind)
}

// 17 where the first record is no kind 4, and where a later one is.
fn misplaced(at: u64, kind: u16) -> u32
    ensures { result ≡ first_of (misplacedRows at kind) }
{
    if at == 0 {
        if kind != 4 {
            return 17;
        }
        return 0;
    }
    if kind == 4 {
        return 17;
    }
    0
}

// Is it the number of a bad record, at which the replay stops?
pub fn is_end(answer: u32) -> bool
    ensures { result ≡ ends answer }
{
    (answer == 16) | (answer == 17)
}
