// Octets in lent areas, and numbers in octets. Each function is total and works on all of the part that it is lent.
#![tactic(auto)]

ghost use Rattle.std.specs.Prelude.{◌≡◌, ◌+◌, ◌%◌, ◌^◌, ◌≤◌, min, length, take, replicate};
ghost use Rattle.rules.specs.Octets.{be, num};
ghost use Rattle.rules.specs.Areas.{laid};

// The lesser of two numbers of octets.
pub fn least(a: usize, b: usize) -> usize
    ensures { result ≡ min a b }
{
    a.min(b)
}

// Copies `src` to the front of `dst`, as far as it has room; later octets stay.
pub fn copy(dst: &mut [u8], src: &[u8])
    ensures { dst.new ≡ laid dst.old 0 (take (length dst.old) src.now) }
{
    let n = dst.len().min(src.len());
    dst[..n].copy_from_slice(&src[..n]);
}

// Puts `x` into every octet.
pub fn fill(dst: &mut [u8], x: u8)
    ensures { dst.new ≡ replicate (length dst.old) x }
{
    dst.fill(x);
}

// The number that the octets spell, modulo 2^64.
pub fn number(s: &[u8]) -> u64
    ensures { result ≡ num s.now % 2 ^ 64 }
{
    s.iter()
        .fold(0, |v, x| v % 0x100000000000000 * 256 + u64::from(*x))
}

// The number that at most eight octets spell.
pub fn exact(s: &[u8]) -> u64
    requires { length s.now ≤ 8 }
    ensures { result ≡ num s.now }
{
    number(s)
}

// Writes `x` into all of `dst`, the highest octet first.
pub fn spell(dst: &mut [u8], x: u64)
    ensures { dst.new ≡ be (length dst.old) x }
{
    let mut v = x;
    for i in (0..dst.len()).rev() {
        dst[i] = (v % 256) as u8;
        v /= 256;
    }
}

// How many counts n octets have, 256^n modulo 2^64.
pub fn modulus(n: usize) -> u64
    ensures { result ≡ 256 ^ n % 2 ^ 64 }
{
    if n < 8 { 1 << (8 * n) } else { 0 }
}

// Lays `src` into `area` from octet `from` on.
pub fn lay(area: &mut [u8], from: usize, src: &[u8])
    requires { from + length src.now ≤ length area.old }
    ensures { area.new ≡ laid area.old from src.now }
{
    let end = from + src.len();
    copy(&mut area[from..end], src);
}

// Lays `x` in n octets into `area` from octet `from` on.
pub fn lay_number(area: &mut [u8], from: usize, n: usize, x: u64)
    requires { from + n ≤ length area.old }
    ensures { area.new ≡ laid area.old from (be n x) }
{
    let end = from + n;
    spell(&mut area[from..end], x);
}

// Lays n octets `x` into `area` from octet `from` on.
pub fn lay_fill(area: &mut [u8], from: usize, n: usize, x: u8)
    requires { from + n ≤ length area.old }
    ensures { area.new ≡ laid area.old from (replicate n x) }
{
    let end = from + n;
    fill(&mut area[from..end], x);
}
