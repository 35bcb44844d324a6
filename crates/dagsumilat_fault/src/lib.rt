// The call that tells a dump's first fault, and where the faulty record starts.
#![tactic(auto)]

ghost use Rattle.std.specs.Prelude.{◌≡◌};
ghost use Rattle.page_spec.specs.Bgp4mp.{longest_message};
ghost use Rattle.walk_spec.specs.Walked.{walked};
ghost use Rattle.dagsumilat_spec.specs.Answers.{fault_words};

use walk::walk;

pub fn first_fault(dump: &[u8], answer: &mut [u64; 4])
    ensures { answer.new ≡ fault_words answer.old (walked longest_message dump.now) }
{
    let walked = walk(dump);
    *answer = [
        u64::from(walked.fault),
        walked.place as u64,
        walked.records,
        walked.start as u64,
    ];
}
