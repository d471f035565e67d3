//! Fields of bits in bytes, the most significant bit first. A byte past the end reads as 0.
ghost use Rattle.std.specs.Prelude.{◌≡◌, ◌+◌, ◌*◌, ◌%◌, ◌^◌, ◌<◌, ◌≤◌};
ghost use Rattle.net_records.specs.Bits.{field};

/// Three bytes as one number.
#[tactic(auto, using(crate::proofs::Windows::three_bytes))]
fn window(bytes: &[u8], at: usize) -> u32
    requires { at < 2 ^ 61 }
    ensures { result ≡ field bytes.now (8 * at) 24 }
{
    // as `byte` of pages, a crate above
    let byte = |i: usize| bytes.get(i).copied().unwrap_or(0);
    u32::from_be_bytes([0, byte(at), byte(at + 1), byte(at + 2)])
}

/// The number that `width` bits write, from bit `from` on.
pub(crate) fn bits(bytes: &[u8], from: usize, width: usize) -> u32
    requires { from % 8 + width ≤ 24 }
    ensures value { result ≡ field bytes.now from width }
    ensures small { result < 2 ^ width }
{
    let rest = 24 - from % 8 - width;
    (window(bytes, from / 8) >> rest) % (1 << width)
}
