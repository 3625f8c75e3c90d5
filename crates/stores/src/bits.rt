// Fields of numbers: shifts and masks, by what they mean.
ghost use Rattle.std.specs.Prelude.{◌≡◌, ◌+◌, ◌*◌, ◌/◌, ◌^◌, ◌<◌};

// The number with its low k bits set anew, and its other bits as they were.
pub(crate) fn with_low_bits(old: u32, low: u32, k: u32) -> u32
    requires narrow { k < 32 }
    requires fits { low < 2 ^ k }
    ensures { result ≡ old / 2 ^ k * 2 ^ k + low }
{
    ((old >> k) << k) | low
}
