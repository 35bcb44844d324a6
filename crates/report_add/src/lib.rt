// A dump's own report added to a report that a caller keeps: 39 numbers.
#![tactic(auto)]

ghost use Rattle.std.specs.Prelude.{◌≡◌, true, length};
ghost use Rattle.page_spec.specs.Bgp4mp.{longest_message};
ghost use Rattle.report_spec.specs.Sum.{sums, fit};
ghost use Rattle.form_spec.specs.Words.{choose};
ghost use Rattle.report_spec.specs.Answer.{added, Adds};

use page_spec::LONGEST_MESSAGE;
use report_spec::Added;
use walk::tally;

// Whether each sum is a number of 64 bits.
fn fit(report: &[u64], more: [u64; 39]) -> bool
    requires { length report.now ≡ 39 }
    ensures { result ≡ fit (sums report.now more) }
{
    for i in 0..39 {
        if u64::MAX - more[i] < report[i] {
            return false;
        }
    }
    true
}

fn put_sums(report: &mut [u64], more: [u64; 39])
    requires { (length report.old ≡ 39) × (fit (sums report.old more) ≡ true) }
    ensures { report.new ≡ sums report.old more }
{
    for k in 0..39 {
        report[k] += more[k];
    }
}

// A dump's numbers put into a report, or none of them.
fn sum(report: &mut [u64], more: [u64; 39], place: usize) -> Added
    requires { length report.old ≡ 39 }
    ensures { (result ≡ choose (fit (sums report.old more)) (added 0 place) (added 16 0)) × (report.new ≡ choose (fit (sums report.old more)) (sums report.old more) report.old) }
{
    if fit(report, more) {
        put_sums(report, more);
        return Added { fault: 0, place };
    }
    Added {
        fault: 16,
        place: 0,
    }
}

// Where a BGP message has at most `longest` octets.
pub fn add_with(d: &[u8], report: &mut [u64; 39], longest: u64) -> Added
    ensures { Adds longest report.old d.now result report.new }
{
    let k = tally(d, true, longest);
    if k.fault != 0 {
        return Added {
            fault: k.fault,
            place: k.place,
        };
    }
    sum(report, k.own, k.place)
}

// The same up to the longest BGP message of today.
pub fn add(d: &[u8], report: &mut [u64; 39]) -> Added
    ensures { Adds longest_message report.old d.now result report.new }
{
    add_with(d, report, LONGEST_MESSAGE)
}
