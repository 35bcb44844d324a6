// A dump's records before the first fault, one line each, then the fault, as text.
#![tactic(auto)]

ghost use Rattle.std.specs.Prelude.{◌≡◌, ◌++◌, ◌+◌, ◌≤◌, length, drop};
ghost use Rattle.page_spec.specs.Bgp4mp.{longest_message};
ghost use Rattle.decimal_spec.specs.Decimal.{decimal};
ghost use Rattle.form_spec.specs.Dump.{walk_all};
ghost use Rattle.page_spec.specs.Layout.{layout};
ghost use Rattle.listing_spec.specs.Lays.{Lays};
ghost use Rattle.listing_spec.specs.Text.{line, fault_line, walk_text, listing};

use decimal::put_decimal;
use octets::put_bytes;
use walk::step_at;

// A key and its number over out, from `at` on; answers where they end.
pub fn put_entry(out: &mut [u8], at: usize, key: &[u8], n: u64) -> usize
    requires { at + length (key.now ++ decimal n) ≤ length out.old }
    ensures { Lays out.old at (key.now ++ decimal n) result out.new }
{
    put_bytes(key, out, at);
    put_decimal(out, at + key.len(), n)
}

fn put_line(
    out: &mut [u8],
    put: usize,
    at: usize,
    time: u64,
    ty: u16,
    subtype: u16,
    octets: u32,
) -> usize
    requires { put + 93 ≤ length out.old }
    ensures { Lays out.old put (line at time ty subtype octets) result out.new × (result ≤ put + 93) }
{
    let a = put_entry(out, put, b"at=", at as u64);
    let b = put_entry(out, a, b" time=", time);
    let c = put_entry(out, b, b" type=", ty as u64);
    let d = put_entry(out, c, b" subtype=", subtype as u64);
    let e = put_entry(out, d, b" length=", octets as u64);
    out[e] = b'\n';
    e + 1
}

pub fn put_fault(out: &mut [u8], put: usize, fault: u8, place: usize) -> usize
    requires { put + 37 ≤ length out.old }
    ensures { Lays out.old put (fault_line fault place) result out.new × (result ≤ put + 37) }
{
    let a = put_entry(out, put, b"fault=", fault as u64);
    let b = put_entry(out, a, b" place=", place as u64);
    out[b] = b'\n';
    b + 1
}

// The text of a dump of at most 65,536 octets: at most 5,461 lines of at most 93 octets, and the last line.
fn lay(d: &[u8], out: &mut [u8]) -> usize
    requires { (length d.now ≤ 65536) × (524288 ≤ length out.old) }
    ensures { Lays out.old 0 (walk_text longest_message 0 (walk_all (layout longest_message) d.now)) result out.new × (result ≤ 524288) }
{
    let mut at = 0;
    let mut t = None;
    let mut put = 0;
    loop {
        match step_at(d, at, t) {
            Ok(None) => {
                return put_fault(out, put, 0, at);
            }
            Ok(Some((i, next))) => {
                put = put_line(out, put, i.at, i.time, i.ty, i.subtype, i.length);
                at = i.next;
                t = next;
            }
            Err(f) => {
                return put_fault(out, put, f.number, f.place);
            }
        }
    }
}

// All that the program writes for the dump d. Answers how many octets of out it is; behind them out stays as it was.
pub fn list(d: &[u8], out: &mut [u8; 524288]) -> usize
    ensures { (result ≡ length (listing longest_message d.now)) × (out.new ≡ listing longest_message d.now ++ drop (length (listing longest_message d.now)) out.old) × (result ≤ length out.new) }
{
    if 65536 < d.len() {
        put_bytes(b"too large\n", out, 0);
        return 10;
    }
    lay(d, out)
}
