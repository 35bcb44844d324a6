// Type 12. m is the record from its header to its last octet.
#![tactic(auto)]

ghost use Rattle.std.specs.Prelude.{◌≡◌, ◌+◌, ◌≤◌};
ghost use Rattle.form_spec.specs.Pass.{whole};
ghost use Rattle.page_spec.specs.TableDump.{table_dump, table_dump_rest};
ghost use Rattle.record_spec.specs.Fields.{route_rest};
ghost use Rattle.record_spec.specs.Fields as show;
ghost use Rattle.record_spec.specs.Shown.{Good};
ghost use Rattle.record_spec.specs.declared.Body.TheVariants.{TableDump};
ghost use Rattle.form_spec.specs.Refusal.{refused};

use attr::tile;
use form_spec::Fault;
use octets::{field, part, skip};
use record_spec::{Body, Header, Part, Route, Shown};

// Behind the prefix length.
fn rest_at(
    m: &[u8],
    at: usize,
    size: usize,
    h: Header,
    view: u64,
    sequence: u64,
    prefix: Part,
    bits: u64,
) -> Shown
    ensures { result ≡ whole (λ fs. Good h (TableDump (route_rest view sequence prefix bits fs))) refused (table_dump_rest size) m.now at }
{
    let (status, a) = field(m, at, 1)?;
    let (originated, b) = field(m, a, 4)?;
    let d = skip(m, b, size)?;
    let (peer, e) = field(m, d, 2)?;
    let (n, g) = field(m, e, 2)?;
    let end = skip(m, g, n as usize)?;
    let attributes = Part {
        at: g,
        size: n as usize,
    };
    if !tile(part(m, g, n as usize)) {
        return Err(Fault {
            number: 11,
            place: g,
        });
    }
    if end < m.len() {
        return Err(Fault {
            number: 6,
            place: end,
        });
    }
    let route = Route {
        view,
        sequence,
        prefix,
        bits,
        status,
        originated,
        address: Part { at: b, size },
        peer,
        attributes,
    };
    Ok(Some((h, Body::TableDump(route))))
}

// A type 12 message that starts at `at` and ends where m ends; an address has `size` octets.
pub fn table_dump(m: &[u8], at: usize, size: usize, h: Header) -> Shown
    requires { size ≤ 16 }
    ensures { result ≡ whole (show.table_dump h) refused (table_dump size) m.now at }
{
    let (view, a) = field(m, at, 2)?;
    let (sequence, b) = field(m, a, 2)?;
    let d = skip(m, b, size)?;
    let (bits, e) = field(m, d, 1)?;
    if ((8 * size) as u64) < bits {
        return Err(Fault {
            number: 8,
            place: d,
        });
    }
    rest_at(m, e, size, h, view, sequence, Part { at: b, size }, bits)
}
