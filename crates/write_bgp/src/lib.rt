// Writing types 16 and 17: state changes and BGP messages.
#![tactic(auto)]

ghost use Rattle.std.specs.Prelude.{◌≡◌, [], ◌∷◌, ℕ, ◌+◌, ◌≤◌, length};
ghost use Rattle.form_spec.specs.Fmt.{end, join};
ghost use Rattle.form_spec.specs.Put.{digits, bytes, refusal, lay, fields_refusal};
ghost use Rattle.form_spec.specs.Shape.{no_table};
ghost use Rattle.page_spec.specs.Bgp4mp.{longest_message, session, addresses, state, message};
ghost use Rattle.octets_spec.specs.Over.{over};
ghost use Rattle.page_spec.specs.Layout.{kind};
ghost use Rattle.page_spec.specs.Names.{old_state};
ghost use Rattle.write_spec.specs.Times.{bgp4mp};
ghost use Rattle.write_spec.specs.Only.{only_sub, changes, messages, as_octets};
ghost use Rattle.write_spec.specs.Givens.{session_values, state_values, bgp_values, change_given, message_given};
ghost use Rattle.write_spec.specs.Verdict.{Writes, capped};
ghost use Rattle.write_spec.specs.Judged.{judged, unplaced};
ghost use Rattle.write_bgp.specs.Opening.{opening_values, opening_size};

use bgp::message_at;
use form_spec::Fault;
use kind::kind_16;
use octets::{put_bytes, put_number};
use page_spec::{Kind, LONGEST_MESSAGE};
use record_spec::{Header, Part, Session};
use write::{
    bgp_type, fits, head_refusal, micro, put_head, put_micros, seconds, sized, stamp_refusal,
    verdict,
};
use write_spec::Time;

fn state_refusal(number: u64) -> Result<(), Fault>
    ensures { unplaced result ≡ judged (refusal (state old_state (end 0)) (digits 2 number ∷ [])) }
{
    fits(number, 2)?;
    if number < 1 || 6 < number {
        return Err(Fault {
            number: 9,
            place: 0,
        });
    }
    Ok(())
}

// A BGP message of at most `longest` octets is judged by the reader, as it stands.
fn message_refusal(longest: u64, b: &[u8]) -> Result<(), Fault>
    ensures { unplaced result ≡ judged (refusal (message longest) (bgp_values b.now)) }
{
    let none = Part { at: 0, size: 0 };
    let h = Header {
        timestamp: 0,
        ty: 0,
        subtype: 0,
        length: 0,
        microseconds: 0,
    };
    let s = Session {
        peer: 0,
        local: 0,
        interface: 0,
        family: 0,
        theirs: none,
        ours: none,
    };
    message_at(b, 0, longest, h, s)?;
    Ok(())
}

fn addresses_refusal(size: usize, theirs: &[u8], ours: &[u8]) -> Result<(), Fault>
    ensures { unplaced result ≡ judged (refusal (addresses size (end 0)) (bytes theirs.now ∷ bytes ours.now ∷ [])) }
{
    sized(theirs.len(), size)?;
    sized(ours.len(), size)
}

fn session_refusal(
    width: usize,
    peer: u64,
    local: u64,
    interface: u64,
    family: u64,
    theirs: &[u8],
    ours: &[u8],
) -> Result<(), Fault>
    requires { width ≤ 4 }
    ensures { unplaced result ≡ judged (refusal (session width (end 0)) (session_values width peer local interface family theirs.now ours.now [])) }
{
    fits(peer, width)?;
    fits(local, width)?;
    fits(interface, 2)?;
    fits(family, 2)?;
    if family == 1 {
        return addresses_refusal(4, theirs, ours);
    }
    if family == 2 {
        return addresses_refusal(16, theirs, ours);
    }
    Err(Fault {
        number: 7,
        place: 0,
    })
}

// All but the Length and the room.
fn change_refusal(
    time: Time,
    subtype: u64,
    peer: u64,
    local: u64,
    interface: u64,
    family: u64,
    theirs: &[u8],
    ours: &[u8],
    old: u64,
    new: u64,
) -> Result<(), Fault>
    ensures { (longest : ℕ) → unplaced result ≡ judged (fields_refusal (only_sub changes longest) no_table (change_given time subtype peer local interface family theirs.now ours.now old new)) }
{
    head_refusal(seconds(time), subtype)?;
    let Ok(Kind::Change(_, width)) = kind_16(micro(time), subtype) else {
        return Err(Fault {
            number: 4,
            place: 0,
        });
    };
    stamp_refusal(time)?;
    session_refusal(width, peer, local, interface, family, theirs, ours)?;
    state_refusal(old)?;
    state_refusal(new)
}

// All but the Length and the room.
fn bgp_refusal(
    longest: u64,
    time: Time,
    subtype: u64,
    peer: u64,
    local: u64,
    interface: u64,
    family: u64,
    theirs: &[u8],
    ours: &[u8],
    message: &[u8],
) -> Result<(), Fault>
    ensures { unplaced result ≡ judged (fields_refusal (only_sub messages longest) no_table (message_given time subtype peer local interface family theirs.now ours.now message.now)) }
{
    head_refusal(seconds(time), subtype)?;
    let Ok(Kind::Message(_, width)) = kind_16(micro(time), subtype) else {
        return Err(Fault {
            number: 4,
            place: 0,
        });
    };
    stamp_refusal(time)?;
    session_refusal(width, peer, local, interface, family, theirs, ours)?;
    message_refusal(longest, message)
}

// Lays a session from `at` on; answers where it ends.
fn put_session(
    out: &mut [u8],
    at: usize,
    width: usize,
    peer: u64,
    local: u64,
    interface: u64,
    family: u64,
    theirs: &[u8],
    ours: &[u8],
) -> usize
    requires { at + (width + (width + (4 + (length theirs.now + length ours.now)))) ≤ length out.old }
    ensures { (result ≡ at + (width + (width + (4 + (length theirs.now + length ours.now))))) × (out.new ≡ over out.old at (join (lay (session_values width peer local interface family theirs.now ours.now [])))) }
{
    let b = at + width;
    let d = b + width;
    let e = d + 4;
    let g = e + theirs.len();
    put_number(out, at, width, peer);
    put_number(out, b, width, local);
    put_number(out, d, 2, interface);
    put_number(out, d + 2, 2, family);
    put_bytes(theirs, out, e);
    put_bytes(ours, out, g);
    g + ours.len()
}

// Octets of an AS number in a state change or BGP message of this Subtype.
fn width_of(time: Time, subtype: u64) -> usize
    ensures { (result ≡ as_octets (kind (bgp4mp time) subtype)) × (result ≤ 4) }
{
    match kind_16(micro(time), subtype) {
        Ok(Kind::Change(_, width)) => width,
        Ok(Kind::Message(_, width)) => width,
        _ => 0,
    }
}

// Octets of the microseconds and the session.
fn opening_size(time: Time, width: usize, theirs: &[u8], ours: &[u8]) -> usize
    requires { width ≤ 4 }
    ensures { result ≡ capped (opening_size time width theirs.now ours.now) }
{
    let fixed = micro(time) + 2 * width + 4;
    fixed
        .saturating_add(theirs.len())
        .saturating_add(ours.len())
}

// Lays the microseconds and the session from 12 on; answers where the message goes on.
fn put_opening(
    out: &mut [u8],
    time: Time,
    width: usize,
    peer: u64,
    local: u64,
    interface: u64,
    family: u64,
    theirs: &[u8],
    ours: &[u8],
) -> usize
    requires { 12 + opening_size time width theirs.now ours.now ≤ length out.old }
    ensures { (result ≡ 12 + opening_size time width theirs.now ours.now) × (out.new ≡ over out.old 12 (join (lay (opening_values time width peer local interface family theirs.now ours.now)))) }
{
    let a = put_micros(out, time);
    put_session(out, a, width, peer, local, interface, family, theirs, ours)
}

// Lays the states from `at` on.
fn put_states(out: &mut [u8], at: usize, old: u64, new: u64)
    requires { at + 4 ≤ length out.old }
    ensures { out.new ≡ over out.old at (join (lay (state_values old new))) }
{
    put_number(out, at, 2, old);
    put_number(out, at + 2, 2, new);
}

// A state change, of type 16, or 17 with microseconds.
pub fn write_change(
    time: Time,
    subtype: u64,
    peer: u64,
    local: u64,
    interface: u64,
    family: u64,
    theirs: &[u8],
    ours: &[u8],
    old: u64,
    new: u64,
    out: &mut [u8],
) -> Result<usize, Fault>
    ensures { Writes (only_sub changes longest_message) no_table (change_given time subtype peer local interface family theirs.now ours.now old new) out.old result out.new }
{
    let fields = change_refusal(
        time, subtype, peer, local, interface, family, theirs, ours, old, new,
    );
    let w = width_of(time, subtype);
    let size = opening_size(time, w, theirs, ours).saturating_add(4);
    let written = verdict(fields, size, out.len())?;
    put_head(out, seconds(time), bgp_type(time), subtype, size as u64);
    let at = put_opening(out, time, w, peer, local, interface, family, theirs, ours);
    put_states(out, at, old, new);
    Ok(written)
}

// A BGP message of at most `longest` octets.
fn write_message_with(
    longest: u64,
    time: Time,
    subtype: u64,
    peer: u64,
    local: u64,
    interface: u64,
    family: u64,
    theirs: &[u8],
    ours: &[u8],
    message: &[u8],
    out: &mut [u8],
) -> Result<usize, Fault>
    ensures { Writes (only_sub messages longest) no_table (message_given time subtype peer local interface family theirs.now ours.now message.now) out.old result out.new }
{
    let fields = bgp_refusal(
        longest, time, subtype, peer, local, interface, family, theirs, ours, message,
    );
    let w = width_of(time, subtype);
    let size = opening_size(time, w, theirs, ours).saturating_add(message.len());
    let written = verdict(fields, size, out.len())?;
    put_head(out, seconds(time), bgp_type(time), subtype, size as u64);
    let at = put_opening(out, time, w, peer, local, interface, family, theirs, ours);
    put_bytes(message, out, at);
    Ok(written)
}

// A BGP message, of type 16, or 17 with microseconds.
pub fn write_message(
    time: Time,
    subtype: u64,
    peer: u64,
    local: u64,
    interface: u64,
    family: u64,
    theirs: &[u8],
    ours: &[u8],
    message: &[u8],
    out: &mut [u8],
) -> Result<usize, Fault>
    ensures { Writes (only_sub messages longest_message) no_table (message_given time subtype peer local interface family theirs.now ours.now message.now) out.old result out.new }
{
    write_message_with(
        LONGEST_MESSAGE,
        time,
        subtype,
        peer,
        local,
        interface,
        family,
        theirs,
        ours,
        message,
        out,
    )
}
