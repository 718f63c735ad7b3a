// Where the neighbour lists of our own keys stand among the keys held and a newcomer's: runs of places, counted round.
#![tactic(auto)]

ghost use Rattle.std.specs.Prelude.{◌≡◌, cond, ◌∷◌, map, ℕ, suc, ◌*◌, ◌/◌, ◌%◌, ◌≤◌, ◌<◌, ltb, length, get_or};
ghost use Rattle.record.specs.Record.{key_of};
ghost use Rattle.table.specs.Rows.{rows};
ghost use Rattle.kept.specs.Keys.{◌∈◌, Every, Rising, plain};
ghost use Rattle.own.specs.Own.{own_keys};
ghost use Rattle.listed.specs.Runs.{run_of, run_at, runs_of, in_one, in_runs, Fits};

// An own key among those in plain order: so many keys are smaller numbers, and so many are below it.
#[derive(Clone, Copy)]
pub struct Run {
    pub first: usize,
    pub below: usize,
}

// Those of one to four own keys, the first's where there are fewer.
#[derive(Clone, Copy)]
pub struct Runs {
    pub count: usize,
    pub a: Run,
    pub b: Run,
    pub c: Run,
    pub d: Run,
}

// One more, or as many.
fn one_more(n: usize, more: bool) -> usize
    requires { n < 1000 }
    ensures { result ≡ cond more (suc n) n }
{
    if more {
        return n + 1;
    }
    n
}

// Is the record's key a smaller number than our own?
fn is_smaller(own: &[u8], record: &[u8]) -> bool
    requires { (32 ≤ length own.now) × (32 ≤ length «record».now) }
    ensures { result ≡ ltb (key_of «record».now) (key_of own.now) }
{
    key::order_at(record, 0, own, 0).is_lt()
}

// The run of the own key that begins the slice, the newcomer counted.
fn run_of(own: &[u8], cache: &[u8], used: usize, record: &[u8]) -> Run
    requires in_bounds { (32 ≤ length own.now) × (32 ≤ length «record».now) × (100 * used ≤ length cache.now) × (used < 999) }
    requires rising { Rising plain 0 (map key_of (rows 100 used cache.now)) }
    requires every { Every (λ (k : ℕ). ¬ (k ≡ key_of own.now)) (map key_of (rows 100 used cache.now)) }
    ensures { result ≡ run_of (key_of own.now) (key_of «record».now ∷ map key_of (rows 100 used cache.now)) }
{
    let under = sides::count_under(own, cache, used);
    let held = sides::count_below(own, cache, used, under);
    let first = one_more(under, is_smaller(own, record));
    let below = one_more(held, !ring::is_above(own, record, 0));
    Run { first, below }
}

// The run of own key i, or that of the first where there is no such key.
fn run_at(own: &[u8], i: usize, a: Run, cache: &[u8], used: usize, record: &[u8]) -> Run
    requires own_len { (length own.now % 100 ≡ 0) × (i < 4) × (32 ≤ length «record».now) × (100 * used ≤ length cache.now) × (used < 999) }
    requires rising { Rising plain 0 (map key_of (rows 100 used cache.now)) }
    requires every { Every (λ (k : ℕ). ¬ (k ∈ own_keys own.now)) (map key_of (rows 100 used cache.now)) }
    requires a_value { a ≡ run_at (own_keys own.now) (key_of «record».now ∷ map key_of (rows 100 used cache.now)) 0 }
    ensures { result
        ≡ run_at (own_keys own.now) (key_of «record».now ∷ map key_of (rows 100 used cache.now)) i }
{
    let start = record::RECORD_LEN * i;
    if start < own.len() {
        return run_of(&own[start..start + record::RECORD_LEN], cache, used, record);
    }
    a
}

// The runs of all our own keys.
pub fn runs_of(own: &[u8], cache: &[u8], used: usize, record: &[u8]) -> Runs
    requires own_len { (length own.now % 100 ≡ 0) × (100 ≤ length own.now) × (32 ≤ length «record».now) × (100 * used ≤ length cache.now)
        × (used < 999) }
    requires rising { Rising plain 0 (map key_of (rows 100 used cache.now)) }
    requires every { Every (λ (k : ℕ). ¬ (k ∈ own_keys own.now)) (map key_of (rows 100 used cache.now)) }
    ensures { result
        ≡ runs_of (own_keys own.now) (key_of «record».now ∷ map key_of (rows 100 used cache.now)) }
{
    let count = own.len() / record::RECORD_LEN;
    let a = run_of(&own[0..record::RECORD_LEN], cache, used, record);
    let b = run_at(own, 1, a, cache, used, record);
    let c = run_at(own, 2, a, cache, used, record);
    let d = run_at(own, 3, a, cache, used, record);
    Runs { count, a, b, c, d }
}

// Is place x, of so many, in the neighbour list of the run's own key?
fn in_run(total: usize, x: usize, run: Run) -> bool
    requires { (x < total) × (total < 1000) × (run.first ≤ total) × (run.below ≤ total) }
    ensures { result ≡ in_one total x run }
{
    let i = round::wrap(total, x + (total - run.first));
    if i < total - run.below {
        return i < 5;
    }
    total - 1 - i < 5
}

// Is it in one of the lists?
pub fn is_listed(total: usize, x: usize, runs: Runs) -> bool
    requires { (x < total) × (total < 1000) × Fits total runs }
    ensures { result ≡ in_runs total x runs }
{
    let a = runs.a;
    if in_run(total, x, a) {
        return true;
    }
    if runs.count < 2 {
        return false;
    }
    let b = runs.b;
    if in_run(total, x, b) {
        return true;
    }
    if runs.count < 3 {
        return false;
    }
    let c = runs.c;
    if in_run(total, x, c) {
        return true;
    }
    if runs.count < 4 {
        return false;
    }
    let d = runs.d;
    in_run(total, x, d)
}
