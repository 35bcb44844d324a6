// Octets in lent slices: copied, and parts of them handed out; big-endian numbers, of any width up to 8 octets; fields of a
// message, read where they are there, and judged before they are written.
#![tactic(auto)]

ghost use Rattle.std.specs.Prelude.{◌≡◌, ◌+◌, ◌-◌, ◌≤◌, ◌<◌, ◌^◌, length, leb};
ghost use Rattle.octets_spec.specs.Over.{over};
ghost use Rattle.octets_spec.specs.Lent.{PartOf};
ghost use Rattle.form_spec.specs.Octets.{to_be};
ghost use Rattle.octets_spec.specs.Be.{num_at};
ghost use Rattle.octets_spec.specs.Field.{field_at, room_at};

use form_spec::Fault;

// Lays all of src over out, from `at` on.
pub fn put_bytes(src: &[u8], out: &mut [u8], at: usize)
    requires { at + length src.now ≤ length out.old }
    ensures { out.new ≡ over out.old at src.now }
{
    out[at..at + src.len()].copy_from_slice(src);
}

// The n octets of m from `at` on; fewer where m ends before.
pub fn part(m: &[u8], at: usize, n: usize) -> &[u8]
    ensures { PartOf m.entry at n result }
{
    let all = m.len();
    if all < at {
        return &m[all..all];
    }
    if all - at < n {
        return &m[at..all];
    }
    let end = at + n;
    &m[at..end]
}

// The number in the width octets at `at`. The loop becomes one load where the width is known.
pub fn number(s: &[u8], at: usize, width: usize) -> u64
    requires width_bound { width ≤ 8 }
    requires width_in_bounds { at + width ≤ length s.now }
    ensures { (result ≡ num_at s.now at width) × (result < 256 ^ width) }
{
    let mut v = 0;
    for x in &s[at..at + width] {
        v = v * 256 + u64::from(*x);
    }
    v
}

// Lays v's last width octets over out, from `at` on.
pub fn put_number(out: &mut [u8], at: usize, width: usize, v: u64)
    requires { at + width ≤ length out.old }
    ensures { out.new ≡ over out.old at (to_be width v) }
{
    let mut rest = v;
    for i in (0..width).rev() {
        out[at + i] = (rest % 256) as u8;
        rest /= 256;
    }
}

// The number in the width octets at `at`, and the place after it.
pub fn field(m: &[u8], at: usize, width: usize) -> Result<(u64, usize), Fault>
    requires { width ≤ 8 }
    ensures { result ≡ field_at m.now at width }
{
    if m.len() < at || m.len() - at < width {
        return Err(Fault {
            number: 5,
            place: at,
        });
    }
    Ok((number(m, at, width), at + width))
}

// Past n octets.
pub fn skip(m: &[u8], at: usize, n: usize) -> Result<usize, Fault>
    ensures { result ≡ room_at m.now at n }
{
    if m.len() < at || m.len() - at < n {
        return Err(Fault {
            number: 5,
            place: at,
        });
    }
    Ok(at + n)
}

// How many octets m has from `at` on.
pub fn left(m: &[u8], at: usize) -> usize
    ensures { result ≡ length m.now - at }
{
    m.len().saturating_sub(at)
}

// Whether v needs more than `width` octets.
pub fn large(v: u64, width: usize) -> bool
    requires { width ≤ 4 }
    ensures { result ≡ leb (256 ^ width) v }
{
    256u64.pow(width as u32) <= v
}
