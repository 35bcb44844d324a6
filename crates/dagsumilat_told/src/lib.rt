// Numbers that a call is handed, as what they stand for.
#![tactic(auto, unfolding(form_spec::specs::Words::choose))]

ghost use Rattle.std.specs.Prelude.{◌≡◌};
ghost use Rattle.dagsumilat_spec.specs.RecordAnswers.{table_by_count};
ghost use Rattle.dagsumilat_spec.specs.WriteWords.{time_by};

use record_spec::Table;
use write_spec::Time;

// The table in force, by its number of peers; the largest number for none.
pub fn table_of(table: u64) -> Table
    ensures { result ≡ table_by_count table }
{
    if table == u64::MAX {
        return None;
    }
    Some(table)
}

// A record's time; `micro` is 0 where there are no microseconds.
pub fn time_of(timestamp: u64, micro: u64, microseconds: u64) -> Time
    ensures { result ≡ time_by timestamp micro microseconds }
{
    if micro == 0 {
        return Time::Seconds(timestamp);
    }
    Time::Micro(timestamp, microseconds)
}
