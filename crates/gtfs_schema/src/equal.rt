ghost use Rattle.std.specs.Int.{to_be_bytes, w32, w64};
ghost use Rattle.std.specs.Prelude.{◌≡◌, ◌≤◌, ◌-◌, bytes_eq, drop, length, take};

/// Whether two texts have the same bytes.
///
/// Texts of four to sixteen bytes, as ids and times mostly are, are compared by two numbers each,
/// which overlap where a text is shorter, in place of a call.
#[inline(always)]
pub fn are_equal(a: &[u8], b: &[u8]) -> bool
    ensures { result ≡ bytes_eq a.now b.now }
{
    if a.len() != b.len() {
        return false;
    }
    match a.len() {
        4..=7 => first_four(a) == first_four(b) && last_four(a) == last_four(b),
        8..=16 => first_eight(a) == first_eight(b) && last_eight(a) == last_eight(b),
        _ => a == b,
    }
}

#[inline(always)]
fn first_four(bytes: &[u8]) -> u32
    requires { 4 ≤ length bytes.now }
    ensures { to_be_bytes w32 result ≡ take 4 bytes.now }
{
    match bytes {
        [a, b, c, d, ..] => u32::from_be_bytes([*a, *b, *c, *d]),
        _ => 0,
    }
}

#[inline(always)]
fn last_four(bytes: &[u8]) -> u32
    requires { 4 ≤ length bytes.now }
    ensures { to_be_bytes w32 result ≡ drop (length bytes.now - 4) bytes.now }
{
    match bytes {
        [.., a, b, c, d] => u32::from_be_bytes([*a, *b, *c, *d]),
        _ => 0,
    }
}

#[inline(always)]
fn first_eight(bytes: &[u8]) -> u64
    requires { 8 ≤ length bytes.now }
    ensures { to_be_bytes w64 result ≡ take 8 bytes.now }
{
    match bytes {
        [a, b, c, d, e, f, g, h, ..] => { u64::from_be_bytes([*a, *b, *c, *d, *e, *f, *g, *h]) }
        _ => 0,
    }
}

#[inline(always)]
fn last_eight(bytes: &[u8]) -> u64
    requires { 8 ≤ length bytes.now }
    ensures { to_be_bytes w64 result ≡ drop (length bytes.now - 8) bytes.now }
{
    match bytes {
        [.., a, b, c, d, e, f, g, h] => { u64::from_be_bytes([*a, *b, *c, *d, *e, *f, *g, *h]) }
        _ => 0,
    }
}
