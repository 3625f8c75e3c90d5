// Fields of numbers: shifts and masks, by what they mean.
ghost use Rattle.std.specs.Prelude.{◌≡◌, ◌+◌, ◌*◌, ◌%◌, ◌^◌, ◌<◌, ◌≤◌};

// The low k bits of n.
pub fn low_bits(n: u32, k: u32) -> u32
    ensures { result ≡ n % 2 ^ k }
{
    if k < 32 { n & ((1 << k) - 1) } else { n }
}

// The number that holds `low` in its low k bits and `high` above them.
pub(crate) fn join_bits(high: u32, low: u32, k: u32) -> u32
    requires narrow { k ≤ 16 }
    requires high_fits { high < 2 ^ 16 }
    requires low_fits { low < 2 ^ k }
    ensures { result ≡ high * 2 ^ k + low }
{
    (high << k) | low
}
