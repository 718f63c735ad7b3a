// Why a record is named for a target (document 02, request 5), by its key and the next.
#![tactic(auto)]

ghost use Rattle.std.specs.Prelude.{◌≡◌};
ghost use Rattle.key.specs.Number.{number};
ghost use Rattle.reason.specs.Reason.{given_by};

use key::Key;

// Document 02's reasons, in its order.
#[derive(Clone, Copy)]
pub enum Reason {
    Only,
    Target,
    Tied,
    Nearest,
}

// The first reason that holds for the key k, which is named for the target: whether it is alone, and else by the key of the
// next.
pub fn reason_by(target: Key, k: Key, alone: bool, next: Key) -> Reason
    ensures { result ≡ given_by alone (number target) (number k) (number next) }
{
    if alone {
        return Reason::Only;
    }
    if key::is_same(k, target) {
        return Reason::Target;
    }
    let far = ring::how_far(target, k);
    let away = ring::how_far(target, next);
    if key::is_same(away, far) {
        return Reason::Tied;
    }
    Reason::Nearest
}
