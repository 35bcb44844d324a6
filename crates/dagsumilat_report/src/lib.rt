// The call that adds a dump to a report.
#![tactic(auto)]

ghost use Rattle.std.specs.Prelude.{◌≡◌};
ghost use Rattle.page_spec.specs.Bgp4mp.{longest_message};
ghost use Rattle.report_spec.specs.Answer.{report_answer, report_leaves};
ghost use Rattle.dagsumilat_spec.specs.Answers.{report_words};

use report_add::add;

pub fn report(dump: &[u8], report: &mut [u64; 39], answer: &mut [u64; 2])
    ensures { (answer.new ≡ report_words answer.old (report_answer longest_message report.old dump.now)) × (report.new ≡ report_leaves longest_message report.old dump.now) }
{
    let added = add(dump, report);
    *answer = [u64::from(added.fault), added.place as u64];
}
