// Places of a list counted on round, from the last to the first, and what a walk over them passes over.
#![tactic(auto)]

ghost use Rattle.std.specs.Prelude.{◌≡◌, ◌+◌, ◌<◌};
ghost use Rattle.kept.specs.Turned.{wrapped};

// Place i of n, counted on round.
pub fn wrap(n: usize, i: usize) -> usize
    requires { i < n + n }
    ensures { (result ≡ wrapped n i) × (result < n) }
{
    if i < n {
        return i;
    }
    i - n
}
