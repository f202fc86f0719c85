// Decimal digits at an index of a slice. Each function answers the index past them, and has no struct of both (lib.rt).
ghost use Rattle.std.specs.Prelude.{◌+◌, ◌≤◌, ◌<◌, length};
ghost use Rattle.listing.specs.Listing.{decimal_of};
ghost use Rattle.listing.specs.Put.{Put, two_of, four_of, eight_of};

// Two digits, zeros in front. Two, four and eight are no one function: a const parameter cannot be halved, and a loop would need an invariant.
fn put_two(out: &mut [u8], at: usize, n: u32) -> usize
    requires { (n < 100) × (at + 2 ≤ length out.old) }
    ensures { Put out.old at (two_of n) 2 out.new result }
{
    out[at] = (48 + n / 10) as u8;
    out[at + 1] = (48 + n % 10) as u8;
    at + 2
}

fn put_four(out: &mut [u8], at: usize, n: u32) -> usize
    requires { (n < 10000) × (at + 4 ≤ length out.old) }
    ensures { Put out.old at (four_of n) 4 out.new result }
{
    let middle = put_two(out, at, n / 100);
    put_two(out, middle, n % 100)
}

fn put_eight(out: &mut [u8], at: usize, n: u32) -> usize
    requires { (n < 100000000) × (at + 8 ≤ length out.old) }
    ensures { Put out.old at (eight_of n) 8 out.new result }
{
    let middle = put_four(out, at, n / 10000);
    put_four(out, middle, n % 10000)
}

// A number below 10000.
pub(crate) fn put_small(out: &mut [u8], at: usize, n: u32) -> usize
    requires { (n < 10000) × (at + 4 ≤ length out.old) }
    ensures { Put out.old at (decimal_of n) 4 out.new result }
{
    if n < 10 {
        out[at] = (48 + n) as u8;
        return at + 1;
    }
    if n < 100 {
        return put_two(out, at, n);
    }
    if n < 1000 {
        out[at] = (48 + n / 100) as u8;
        return put_two(out, at + 1, n % 100);
    }
    put_four(out, at, n)
}

// A number below 100000000.
fn put_middle(out: &mut [u8], at: usize, n: u32) -> usize
    requires { (n < 100000000) × (at + 8 ≤ length out.old) }
    ensures { Put out.old at (decimal_of n) 8 out.new result }
{
    if n < 10000 {
        return put_small(out, at, n);
    }
    let middle = put_small(out, at, n / 10000);
    put_four(out, middle, n % 10000)
}

// Digits by `write!` would cost 263 instructions a line of `lesson` in place of 204.
pub(crate) fn put_number(out: &mut [u8], at: usize, n: u64) -> usize
    requires { at + 20 ≤ length out.old }
    ensures { Put out.old at (decimal_of n) 20 out.new result }
{
    if n < 100000000 {
        return put_middle(out, at, n as u32);
    }
    let high = n / 100000000;
    let low = (n % 100000000) as u32;
    if high < 100000000 {
        let middle = put_middle(out, at, high as u32);
        return put_eight(out, middle, low);
    }
    let first = put_small(out, at, (high / 100000000) as u32);
    let second = put_eight(out, first, (high % 100000000) as u32);
    put_eight(out, second, low)
}
