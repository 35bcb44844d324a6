// Types 16 and 17: state changes and BGP messages. m is the record from its header to its last octet.
#![tactic(auto)]

ghost use Rattle.std.specs.Prelude.{◌≡◌, ◌+◌, ◌≤◌};
ghost use Rattle.form_spec.specs.Fmt.{end};
ghost use Rattle.form_spec.specs.Pass.{pass, whole};
ghost use Rattle.page_spec.specs.Bgp4mp.{session, state_change, message, message_rest};
ghost use Rattle.record_spec.specs.Fields.{change_of, message_of};
ghost use Rattle.record_spec.specs.Fields as show;
ghost use Rattle.form_spec.specs.Refusal.{refused};
ghost use Rattle.record_spec.specs.Shown.{Good};
ghost use Rattle.record_spec.specs.declared.Body.TheVariants.{Message};
ghost use Rattle.bgp.specs.Size.{address_size};
ghost use Rattle.bgp.specs.Met.{met};

use form_spec::Fault;
use octets::{field, skip};
use record_spec::{Bgp, Body, Header, Part, Session, Shown, States};

// How many octets an address has; none of an unknown family.
fn address_size(family: u64) -> Option<usize>
    ensures { result ≡ address_size family }
{
    match family {
        1 => Some(4),
        2 => Some(16),
        _ => None,
    }
}

// The session that starts at `at`, with AS numbers of `width` octets, and the place behind it.
fn session_at(m: &[u8], at: usize, width: usize) -> Result<(Session, usize), Fault>
    requires { width ≤ 8 }
    ensures { result ≡ pass met refused (session width (end 0)) m.now at }
{
    let (peer, a) = field(m, at, width)?;
    let (local, b) = field(m, a, width)?;
    let (interface, d) = field(m, b, 2)?;
    let (family, e) = field(m, d, 2)?;
    let Some(size) = address_size(family) else {
        return Err(Fault {
            number: 7,
            place: d,
        });
    };
    let g = skip(m, e, size)?;
    let next = skip(m, g, size)?;
    let s = Session {
        peer,
        local,
        interface,
        family,
        theirs: Part { at: e, size },
        ours: Part { at: g, size },
    };
    Ok((s, next))
}

fn states(m: &[u8], at: usize, h: Header, s: Session) -> Shown
    ensures { result ≡ whole (change_of h s) refused state_change m.now at }
{
    let (old, a) = field(m, at, 2)?;
    if old < 1 || 6 < old {
        return Err(Fault {
            number: 9,
            place: at,
        });
    }
    let (new, b) = field(m, a, 2)?;
    if new < 1 || 6 < new {
        return Err(Fault {
            number: 9,
            place: a,
        });
    }
    if b < m.len() {
        return Err(Fault {
            number: 6,
            place: b,
        });
    }
    Ok(Some((h, Body::Change(s, States { old, new }))))
}

// Behind a BGP message's type octet; its length field, n, stands at `length`.
fn message_rest(
    m: &[u8],
    at: usize,
    length: usize,
    n: u64,
    longest: u64,
    h: Header,
    s: Session,
    marker: usize,
    kind: u64,
) -> Shown
    requires { at ≡ length + 3 }
    ensures { result ≡ whole (λ fs. Good h (Message s (record { message = record { at = marker; size = n }; kind = kind }))) refused (message_rest longest n) m.now at }
{
    if n < 19 || longest < n {
        return Err(Fault {
            number: 10,
            place: length,
        });
    }
    let Ok(e) = skip(m, at, (n - 19) as usize) else {
        return Err(Fault {
            number: 5,
            place: length,
        });
    };
    if e < m.len() {
        return Err(Fault {
            number: 6,
            place: length,
        });
    }
    let message = Part {
        at: marker,
        size: n as usize,
    };
    Ok(Some((h, Body::Message(s, Bgp { message, kind }))))
}

// A BGP message that starts at `at` and ends where m ends; `longest` counts the octets of the longest.
pub fn message_at(m: &[u8], at: usize, longest: u64, h: Header, s: Session) -> Shown
    ensures { result ≡ whole (message_of h s) refused (message longest) m.now at }
{
    let a = skip(m, at, 16)?;
    let (n, b) = field(m, a, 2)?;
    let (kind, d) = field(m, b, 1)?;
    message_rest(m, d, a, n, longest, h, s, at, kind)
}

// A state change whose session starts at `at`, with AS numbers of `width` octets.
pub fn state_change(m: &[u8], at: usize, width: usize, h: Header) -> Shown
    requires { width ≤ 8 }
    ensures { result ≡ whole (show.change h) refused (session width state_change) m.now at }
{
    let (s, a) = session_at(m, at, width)?;
    states(m, a, h, s)
}

// The same for a BGP message.
pub fn bgp_message(m: &[u8], at: usize, width: usize, longest: u64, h: Header) -> Shown
    requires { width ≤ 8 }
    ensures { result ≡ whole (show.message h) refused (session width (message longest)) m.now at }
{
    let (s, a) = session_at(m, at, width)?;
    message_at(m, a, longest, h, s)
}
