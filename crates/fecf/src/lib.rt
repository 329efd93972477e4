// The frame check: long inputs are made shorter by powers of the generator, and what is left goes octet by octet, by a table of 256 remainders.
#![tactic(auto)]

ghost use Rattle.std.specs.Prelude.{◌≡◌, ◌+◌, ◌-◌, ◌*◌, ◌%◌, ◌≤◌, ◌<◌, length, take, drop};
ghost use Rattle.std.specs.Int.Bits.{bit_xor};
ghost use Rattle.rules.specs.Octets.{check_of};
ghost use Rattle.std.specs.Fn.{FnReturnsAt};
ghost use Rattle.fecf.specs.Remainders.{step_by, from_by};
ghost use Rattle.fecf.specs.Folds.{carried, plus, later, closed, preset, shorter, shortest, check_by};

mod table;

// ---- by the table

// The register moved up by an octet, and an entry added. The register is the low half of r; what moves out of it stays above, where nobody looks at it,
// since to clear that would take an instruction for each octet.
fn added(r: u32, entry: u16) -> u32
    ensures { result % 0x10000 ≡ bit_xor (r * 0x100 % 0x10000) entry }
{
    r % 0x1000000 * 0x100 ^ entry as u32
}

// The register after an octet, by a table.
fn taken(table: &[u16; 256], r: u32, x: u8) -> u32
    ensures { result % 0x10000 ≡ step_by table.now (r % 0x10000) x }
{
    let i = r / 0x100 % 0x100 ^ x as u32;
    added(r, table[i as usize])
}

// The register, preset to `first`, after these octets, by a table.
fn check_by(table: &[u16; 256], first: u16, octets: &[u8]) -> u16
    ensures { result ≡ from_by table.now first octets.now }
{
    let mut r = u32::from(first);
    for x in octets {
        r = taken(table, r, *x);
    }
    (r % 0x10000) as u16
}

// ---- by a power of the generator: the 8u-th, for a u of 1, 2, 4 and so on

// Carries the long register on over these octets. It has 16u octets, and stands at the front of the area; then it stands as far behind as there are octets.
fn carry(u: usize, area: &mut [u8], octets: &[u8])
    requires { (0 < u) × (u ≤ 16) × (16 * u + length octets.now ≤ length area.old) }
    ensures { take (16 * u) (drop (length octets.now) area.new) ≡ carried u (take (16 * u) area.old) octets.now }
{
    for (j, x) in octets.iter().enumerate() {
        area[j + 16 * u] = *x ^ area[j + 12 * u] ^ area[j + 5 * u] ^ area[j];
    }
}

// Adds to each octet the one that stands d octets later.
fn add_later(area: &mut [u8], d: usize)
    ensures { area.new ≡ later d area.old }
{
    for j in 0..area.len().saturating_sub(d) {
        area[j] ^= area[d + j];
    }
}

// Adds octets to the first ones of an area.
fn add_first(area: &mut [u8], octets: &[u8])
    requires { length octets.now ≤ length area.old }
    ensures { area.new ≡ plus octets.now area.old }
{
    for (j, x) in octets.iter().enumerate() {
        area[j] ^= *x;
    }
}

// Ends a fold: the octets behind the long register, and added to them what it adds to them.
#[tactic(auto, unfolding(crate::specs::Folds::closed))]
fn close(u: usize, long: &mut [u8], octets: &[u8])
    requires { (u ≤ 16) × (length octets.now ≤ length long.old) }
    ensures { long.new ≡ plus octets.now (closed u long.old) }
{
    add_later(long, 12 * u);
    add_later(long, 5 * u);
    add_first(long, octets);
}

// The same where the long register stands in an area from octet `from` on.
fn close_at(u: usize, area: &mut [u8], from: usize, octets: &[u8])
    requires { (u ≤ 16) × (from + 16 * u ≤ length area.old) × (length octets.now ≤ 16 * u) }
    ensures { take (16 * u) (drop from area.new) ≡ plus octets.now (closed u (take (16 * u) (drop from area.old))) }
{
    let end = from + 16 * u;
    close(u, &mut area[from..end], octets);
}

// Carries the long register of 256 octets on over any number of octets, and says where it stands then. 512 at a time, so that the area is no longer for a longer frame.
fn carry_far(area: &mut [u8], octets: &[u8]) -> usize
    requires { length area.old ≡ 768 }
    ensures { (result < 512) × (take 256 (drop result area.new) ≡ carried 16 (take 256 area.old) octets.now) }
{
    let blocks = octets.chunks_exact(512);
    let rest = blocks.remainder();
    for block in blocks {
        carry(16, area, block);
        area.copy_within(512.., 0);
    }
    carry(16, area, rest);
    rest.len()
}

// Makes octets shorter: the long register at the front of the area goes over all of them but the last 16u, and the fold ends over these. The 16u octets that
// are left stand where it came to.
fn shorten(u: usize, area: &mut [u8], octets: &[u8])
    requires { (0 < u) × (u ≤ 16) × (16 * u ≤ length octets.now) × (length octets.now ≤ length area.old) }
    ensures { take (16 * u) (drop (length octets.now - 16 * u) area.new) ≡ shorter u (take (16 * u) area.old) octets.now }
{
    let n = octets.len() - 16 * u;
    carry(u, area, &octets[..n]);
    close_at(u, area, n, &octets[n..]);
}

// ---- the check

// What `next` says of the last 16u octets that are left of at most N, from a register whose two octets are `first`.
fn shortened<const N: usize, F: Fn(&[u8]) -> u16>(
    u: usize,
    first: u8,
    octets: &[u8],
    next: F,
) -> u16
where
    F: Drop,
    requires sizes { (0 < u) × (u ≤ 16) × (2 ≤ N) × (16 * u ≤ length octets.now) × (length octets.now ≤ N) × (N ≤ 256) }
    requires callable { (x : _) → length x.now ≡ 16 * u → F.pre next x }
    ensures { FnReturnsAt F.Fn next (shorter u (preset u first) octets.now) result }
{
    let mut area = [0u8; N];
    area[0] = first;
    area[1] = first;
    shorten(u, &mut area, octets);
    let n = octets.len() - 16 * u;
    let area = &area[..];
    next(&area[n..n + 16 * u])
}

// Over 64 octets, from a register of zeros: 32 are left for the table.
fn check_64(table: &[u16; 256], octets: &[u8]) -> u16
    requires { length octets.now ≡ 64 }
    ensures { result ≡ from_by table.now 0 (shorter 2 (preset 2 0) octets.now) }
{
    shortened::<64, _>(2, 0, octets, |left| check_by(table, 0, left))
}

// Over 128 octets, from a register of zeros: 64 are left.
fn check_128(table: &[u16; 256], octets: &[u8]) -> u16
    requires { length octets.now ≡ 128 }
    ensures { result ≡ from_by table.now 0 (shorter 2 (preset 2 0) (shorter 4 (preset 4 0) octets.now)) }
{
    shortened::<128, _>(4, 0, octets, |left| check_64(table, left))
}

// Over 128 to 256 octets, from a register whose two octets are `first`: 128 are left.
fn check_256(table: &[u16; 256], first: u8, octets: &[u8]) -> u16
    requires { (128 ≤ length octets.now) × (length octets.now ≤ 256) }
    ensures { result ≡ from_by table.now 0 (shortest first octets.now) }
{
    shortened::<256, _>(8, first, octets, |left| check_128(table, left))
}

// Over 256 octets or more, from a register of ones: 256 are left.
fn check_long(table: &[u16; 256], octets: &[u8]) -> u16
    requires { 256 ≤ length octets.now }
    ensures { result ≡ from_by table.now 0 (shortest 0 (shorter 16 (preset 16 0xFF) octets.now)) }
{
    let mut area = [0u8; 768];
    area[0] = 0xFF;
    area[1] = 0xFF;
    let end = octets.len() - 256;
    let n = carry_far(&mut area, &octets[..end]);
    close_at(16, &mut area, n, &octets[end..]);
    check_256(table, 0, &area[n..n + 256])
}

// The check by a table. Fewer than 128 octets go by it alone; from there on the fold takes fewer instructions (docs/FIGURES.md).
#[tactic(auto, using(std::proofs::lemmas::Bool::Decides::nat_tests), unfolding(crate::specs::Folds::check_by))]
fn check_with(table: &[u16; 256], octets: &[u8]) -> u16
    ensures { result ≡ check_by table.now octets.now }
{
    if octets.len() < 128 {
        check_by(table, 0xFFFF, octets)
    } else if octets.len() <= 256 {
        check_256(table, 0xFF, octets)
    } else {
        check_long(table, octets)
    }
}

// The frame check over these octets. The table is lent, since a constant is copied whole wherever it is used.
pub fn check_of(octets: &[u8]) -> u16
    ensures { result ≡ check_of octets.now }
{
    check_with(&table::REMAINDERS, octets)
}
