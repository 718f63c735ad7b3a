// Whether a place can be opened.
ghost use Rattle.std.specs.Prelude.{◌≡◌, ◌*◌, ◌≤◌, length};
ghost use Rattle.refusal.specs.Table.{first_of};
ghost use Rattle.table.specs.Rows.{rows};
ghost use Rattle.gauge_plan.specs.Opening.{open_rows};

// The number that stands against a place with the ID, where one must be opened; 0 where none does.
pub fn open_refusal(opens: bool, waiting: &[u8], used: usize, id: u32) -> u32
    requires { 140 * used ≤ length waiting.now }
    ensures { result ≡ first_of (open_rows opens (rows 140 used waiting.now) used id) }
{
    if !opens {
        return 0;
    }
    if waiting::has_id(waiting, used, id) {
        return refusal::ID_WAITING;
    }
    if used == 16 {
        return refusal::FULL;
    }
    0
}
