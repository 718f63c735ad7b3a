// The balance of a reading, signed.
ghost use Rattle.std.specs.Prelude.{◌≡◌, nat_abs};
ghost use Rattle.readings.specs.Balance.{balance_of};

// Litres in minus litres out: from -4294967295 to 4294967295.
pub fn balance(inflow: u32, outflow: u32) -> i64
    ensures { result ≡ balance_of inflow outflow }
{
    inflow as i64 - outflow as i64
}

// How far a balance is from 0: what is printed behind its sign.
pub fn magnitude(balance: i64) -> u64
    ensures { result ≡ nat_abs balance }
{
    if balance < 0 {
        (-(balance + 1)) as u64 + 1
    } else {
        balance as u64
    }
}
