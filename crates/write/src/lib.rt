// What every writer shares: the verdict, and a record's header laid into the buffer.
#![tactic(auto)]

ghost use Rattle.std.specs.Prelude.{◌≡◌, ℕ, List, ◌++◌, ◌+◌, ◌≤◌, length};
ghost use Rattle.form_spec.specs.Octets.{to_be};
ghost use Rattle.form_spec.specs.Fmt.{end, join};
ghost use Rattle.form_spec.specs.Put.{or_else, refusal, lay};
ghost use Rattle.form_spec.specs.Put as put;
ghost use Rattle.page_spec.specs.Layout.{stamped};
ghost use Rattle.octets_spec.specs.Over.{over};
ghost use Rattle.write_spec.specs.Verdict.{capped, verdict_of};
ghost use Rattle.write_spec.specs.Judged.{judged, unplaced};
ghost use Rattle.write_spec.specs.Times.{stamp_of, micro_size, micros, bgp4mp};

use form_spec::Fault;
use octets::{large, put_number};
use write_spec::Time;

// A number goes into `width` octets.
pub fn fits(v: u64, width: usize) -> Result<(), Fault>
    requires { width ≤ 4 }
    ensures { result ≡ judged (put.large width v) }
{
    if large(v, width) {
        return Err(Fault {
            number: 6,
            place: 0,
        });
    }
    Ok(())
}

// A part has as many octets as its field, which has `size`.
pub fn sized(has: usize, size: usize) -> Result<(), Fault>
    ensures { result ≡ judged (put.sized has size) }
{
    if has < size {
        return Err(Fault {
            number: 5,
            place: 0,
        });
    }
    if size < has {
        return Err(Fault {
            number: 6,
            place: 0,
        });
    }
    Ok(())
}

pub fn seconds(t: Time) -> u64
    ensures { result ≡ stamp_of t }
{
    match t {
        Time::Seconds(s) => s,
        Time::Micro(s, _) => s,
    }
}

// Octets of the microseconds.
pub fn micro(t: Time) -> usize
    ensures { result ≡ micro_size t }
{
    match t {
        Time::Seconds(_) => 0,
        Time::Micro(_, _) => 4,
    }
}

pub fn bgp_type(t: Time) -> u64
    ensures { result ≡ bgp4mp t }
{
    match t {
        Time::Seconds(_) => 16,
        Time::Micro(_, _) => 17,
    }
}

// The microseconds, where there are any.
pub fn stamp_refusal(t: Time) -> Result<(), Fault>
    ensures { result ≡ judged (refusal (stamped (micro_size t) (end 0)) (micros t)) }
{
    match t {
        Time::Seconds(_) => Ok(()),
        Time::Micro(_, u) => fits(u, 4),
    }
}

// The Timestamp and the Subtype, where the Type is listed.
pub fn head_refusal(timestamp: u64, subtype: u64) -> Result<(), Fault>
    ensures { result ≡ judged (or_else (put.large 4 timestamp) (put.large 2 subtype)) }
{
    fits(timestamp, 4)?;
    fits(subtype, 2)
}

// The answer of a writer whose fields are judged so, for a message of `size` octets and a buffer of `room`. A fault that a reader found
// still has the reader's place; a refused record has the place 0.
pub fn verdict(fields: Result<(), Fault>, size: usize, room: usize) -> Result<usize, Fault>
    ensures { (n : ℕ) → unplaced fields ≡ judged n → result ≡ verdict_of n size room }
{
    if let Err(why) = fields {
        let refused = Fault {
            number: why.number,
            place: 0,
        };
        return Err(refused);
    }
    if 4294967295 < size {
        return Err(Fault {
            number: 6,
            place: 0,
        });
    }
    if room < 12 + size {
        return Err(Fault {
            number: 15,
            place: 0,
        });
    }
    Ok(12 + size)
}

pub fn put_head(out: &mut [u8], timestamp: u64, ty: u64, subtype: u64, size: u64)
    requires { 12 ≤ length out.old }
    ensures { out.new ≡ over out.old 0 (to_be 4 timestamp ++ (to_be 2 ty ++ (to_be 2 subtype ++ to_be 4 size))) }
{
    put_number(out, 0, 4, timestamp);
    put_number(out, 4, 2, ty);
    put_number(out, 6, 2, subtype);
    put_number(out, 8, 4, size);
}

// Lays the microseconds, where there are any, behind the header; answers where the message goes on.
pub fn put_micros(out: &mut [u8], t: Time) -> usize
    requires { 12 + micro_size t ≤ length out.old }
    ensures { (result ≡ 12 + micro_size t) × (out.new ≡ over out.old 12 (join (lay (micros t)))) }
{
    match t {
        Time::Seconds(_) => {
            return 12;
        }
        Time::Micro(_, u) => {
            put_number(out, 12, 4, u);
            return 16;
        }
    }
}
