// Numbers over several bytes, most significant first, with a sign or without; and the IEEE value of a bit pattern (document 01, "Fields and points").
#![tactic(auto)]

ghost use Rattle.std.specs.Prelude.{◌≡◌, ◌+◌, ◌*◌, ◌-◌, ◌^◌, ◌≤◌, ◌<◌, length};
ghost use Rattle.std.specs.Int.Signed.{mag};
ghost use Rattle.std.specs.Float.{binary32, binary64};
ghost use Rattle.std.specs.Float.Ieee.{of_bits};
ghost use Rattle.layout.specs.Bytes.{unsigned_at, twos_complement, signed_at};

// The number that `width` bytes from a place on are, without a sign.
pub fn unsigned(p: &[u8], at: usize, width: usize) -> u64
    requires { (width ≤ 8) × (at + width ≤ length p.now) }
    ensures { (result ≡ unsigned_at p.now at width) × (result < 256 ^ width) }
{
    let mut v = 0;
    for &byte in &p[at..at + width] {
        v = v * 256 + u64::from(byte);
    }
    v
}

// A number below twice `half` as two's complement. `cast_signed` is no plainer: its width is its type's, and here it is the caller's.
fn twos_complement(v: u64, half: u64) -> i64
    requires { (half ≤ 2 ^ 31) × (v < 2 * half) }
    ensures { (result ≡ twos_complement half v) × (mag result < half) }
{
    if v < half {
        v as i64
    } else {
        v as i64 - (2 * half) as i64
    }
}

// The same bytes with a sign. It fits as many bits as they have, so that a caller's cast to i32 or i8 keeps it.
pub fn signed(p: &[u8], at: usize, width: usize) -> i64
    requires { (1 ≤ width) × (width ≤ 4) × (at + width ≤ length p.now) }
    ensures { (result ≡ signed_at p.now at width) × (mag result < 2 ^ (8 * width - 1)) }
{
    let half: u64 = 1 << (8 * width - 1);
    twos_complement(unsigned(p, at, width), half)
}

// The single float of a bit pattern. `from_bits` is undefined at a NaN's, so that one is made by a division.
pub fn single(bits: u32) -> f32
    ensures { result ≡ of_bits binary32 bits }
{
    if 0x7f80_0000 < bits % 0x8000_0000 {
        0.0 / 0.0
    } else {
        f32::from_bits(bits)
    }
}

// The double float of a bit pattern, in the same way.
pub fn double(bits: u64) -> f64
    ensures { result ≡ of_bits binary64 bits }
{
    if 0x7ff0_0000_0000_0000 < bits % 0x8000_0000_0000_0000 {
        0.0 / 0.0
    } else {
        f64::from_bits(bits)
    }
}
