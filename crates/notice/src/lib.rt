// What a report heeds in a record, and one more of it.
#![tactic(auto)]

ghost use Rattle.std.specs.Prelude.{◌≡◌, ◌+◌, ◌-◌, ◌^◌, ◌<◌, [], if◌then◌else◌, slice_index, slice_index_or};
ghost use Rattle.look_spec.specs.Field.{Known, Shows};
ghost use Rattle.report_spec.specs.Notice.{notice_of, InStates};
ghost use Rattle.report_spec.specs.Own.{following, broken, numbers};
ghost use Rattle.report_spec.specs.Tally.{bumped};
ghost use Rattle.report_spec.specs.declared.Notice.TheVariants.{Plain, Change};

use look::{is_change, sequence, states, subtype_of, type_of};
use report_spec::Notice;

fn notice_of(d: &[u8], at: usize) -> Notice
    requires { Known d.now at }
    ensures { InStates result × Shows d.now at (λ x. result ≡ notice_of x) }
{
    let ty = type_of(d, at);
    if ty == 12 {
        return Notice::Sequence(sequence(d, at));
    }
    if is_change(ty, subtype_of(d, at)) {
        let s = states(d, at);
        return Notice::Change(s.old, s.new);
    }
    Notice::Plain
}

// What the record at `at` gives notice of, if that is heeded.
pub fn notice_at(d: &[u8], at: usize, heed: bool) -> Notice
    requires { Known d.now at }
    ensures { InStates result × Shows d.now at (λ x. result ≡ (if heed then notice_of x else Plain)) }
{
    if heed {
        return notice_of(d, at);
    }
    Notice::Plain
}

// One more change from the old state to the new one.
pub fn bumped(cells: [[u64; 6]; 6], old: u64, new: u64) -> [[u64; 6]; 6]
    requires { InStates (Change old new) × (slice_index (slice_index_or cells (old - 1) []) (new - 1) + 1 < 2 ^ 64) }
    ensures { result ≡ bumped cells old new }
{
    let mut next = cells;
    let i = (old - 1) as usize;
    let j = (new - 1) as usize;
    next[i][j] += 1;
    next
}

// The sequence after this one.
fn following(before: u16) -> u16
    ensures { result ≡ following before }
{
    before.wrapping_add(1)
}

// 1 where the sequence does not follow the last one.
pub fn broken(last: Option<u16>, sequence: u16) -> u64
    ensures { result ≡ broken last sequence }
{
    match last {
        Some(before) if following(before) == sequence => 0,
        Some(_) => 1,
        None => 0,
    }
}

// The 39 numbers of a report.
pub fn numbers(records: u64, changes: u64, breaks: u64, cells: [[u64; 6]; 6]) -> [u64; 39]
    ensures { result ≡ numbers records changes breaks cells }
{
    let mut all = [0u64; 39];
    all[0] = records;
    all[1] = changes;
    all[2] = breaks;
    for k in 0..36 {
        all[3 + k] = cells[k / 6][k % 6];
    }
    all
}
