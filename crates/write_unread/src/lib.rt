// Writing records whose contents are carried unread.
#![tactic(auto)]

ghost use Rattle.std.specs.Prelude.{◌≡◌, ℕ, List};
ghost use Rattle.form_spec.specs.Put.{fields_refusal};
ghost use Rattle.page_spec.specs.Bgp4mp.{longest_message};
ghost use Rattle.form_spec.specs.Shape.{no_table};
ghost use Rattle.write_spec.specs.Times.{micro_size};
ghost use Rattle.write_spec.specs.Only.{only_type, unreads};
ghost use Rattle.write_spec.specs.Givens.{unread_given};
ghost use Rattle.write_spec.specs.Verdict.{Writes};
ghost use Rattle.write_spec.specs.Judged.{judged, unplaced};

use form_spec::Fault;
use kind::kind_of;
use octets::put_bytes;
use page_spec::Kind;
use write::{fits, micro, put_head, put_micros, seconds, stamp_refusal, verdict};
use write_spec::Time;

// All but the Length and the room; neither the contents nor the length of a BGP message has a part in it.
fn unread_refusal(time: Time, ty: u64, subtype: u64) -> Result<(), Fault>
    ensures { (longest : ℕ) (contents : List ℕ) → unplaced result ≡ judged (fields_refusal (only_type (unreads (micro_size time)) longest) no_table (unread_given time ty subtype contents)) }
{
    fits(seconds(time), 4)?;
    fits(ty, 2)?;
    let Ok(Kind::Unread(n)) = kind_of(ty, subtype) else {
        return Err(Fault {
            number: 3,
            place: 0,
        });
    };
    if n != micro(time) {
        return Err(Fault {
            number: 3,
            place: 0,
        });
    }
    fits(subtype, 2)?;
    stamp_refusal(time)
}

// A record of an unread type: with a Timestamp alone, or with microseconds too.
pub fn write_unread(
    time: Time,
    ty: u64,
    subtype: u64,
    contents: &[u8],
    out: &mut [u8],
) -> Result<usize, Fault>
    ensures { Writes (only_type (unreads (micro_size time)) longest_message) no_table (unread_given time ty subtype contents.now) out.old result out.new }
{
    let size = micro(time).saturating_add(contents.len());
    let written = verdict(unread_refusal(time, ty, subtype), size, out.len())?;
    put_head(out, seconds(time), ty, subtype, size as u64);
    let at = put_micros(out, time);
    put_bytes(contents, out, at);
    Ok(written)
}
