// Text in UTF-8.
#![tactic(auto)]

ghost use Rattle.std.specs.Prelude.{◌≡◌, true, ◌≤◌, ◌<◌, length};
ghost use Rattle.text_spec.specs.Check.{least, most, follow, start_of, is_text};
ghost use Rattle.text.specs.Over.{Over, Ends};

use text_spec::Start;

// The least second octet of a sequence that starts with x.
#[tactic(auto, unfolding(text_spec::specs::Check::least, form_spec::specs::Words::choose))]
fn least_second(x: u8) -> u8
    ensures { result ≡ least x }
{
    match x {
        224 => 160,
        240 => 144,
        _ => 128,
    }
}

// The greatest.
#[tactic(auto, unfolding(text_spec::specs::Check::most, form_spec::specs::Words::choose))]
fn most_second(x: u8) -> u8
    ensures { result ≡ most x }
{
    match x {
        237 => 159,
        244 => 143,
        _ => 191,
    }
}

// So many more octets, the next of them from `low` to `high`.
fn follow(more: u8, low: u8, high: u8) -> Option<Start>
    ensures { result ≡ follow more low high }
{
    Some(Start { more, low, high })
}

// What a sequence's first octet tells: its leading one bits are the leading zeros of its complement.
// Each class has its own range: the two tests of the second octet asked of every class halve the speed of sequences of two.
#[tactic(auto, unfolding(text_spec::specs::Check::start_of, form_spec::specs::Words::choose))]
fn start_of(x: u8) -> Option<Start>
    ensures { result ≡ start_of x }
{
    match u8::leading_zeros(255 - x) {
        0 => follow(0, 128, 191),
        2 if 194 <= x => follow(1, 128, 191),
        3 => follow(2, least_second(x), most_second(x)),
        4 if x <= 244 => follow(3, least_second(x), most_second(x)),
        _ => None,
    }
}

// Whether an octet more belongs to the sequence: it is there, and lies from `low` to `high`.
fn one_more(m: &[u8], at: usize, low: u8, high: u8) -> bool
    ensures { Over m.now at 1 low high result }
{
    if m.len() <= at {
        return false;
    }
    low <= m[at] && m[at] <= high
}

// Two more, the first of them from `low` to `high`.
fn two_more(m: &[u8], at: usize, low: u8, high: u8) -> bool
    ensures { Over m.now at 2 low high result }
{
    one_more(m, at, low, high) && one_more(m, at + 1, 128, 191)
}

// Three more.
fn three_more(m: &[u8], at: usize, low: u8, high: u8) -> bool
    ensures { Over m.now at 3 low high result }
{
    one_more(m, at, low, high) && two_more(m, at + 1, 128, 191)
}

// So many more. Each number by itself: a loop's end would be mispredicted where neighbours differ in length.
fn go_on(m: &[u8], at: usize, start: Start) -> bool
    requires { (0 < start.more) × (start.more ≤ 3) }
    ensures { Over m.now at start.more start.low start.high result }
{
    match start.more {
        1 => one_more(m, at, start.low, start.high),
        2 => two_more(m, at, start.low, start.high),
        _ => three_more(m, at, start.low, start.high),
    }
}

// Where the sequence at `at` ends. By places in m: slices that grow shorter take half as long again where all sequences have two octets.
fn sequence_end(m: &[u8], at: usize) -> Option<usize>
    requires { at < length m.now }
    ensures { Ends m.now at result }
{
    let start = start_of(m[at])?;
    let next = at + 1;
    if start.more == 0 {
        return Some(next);
    }
    if go_on(m, next, start) {
        return Some(next + usize::from(start.more));
    }
    None
}

// Whether all octets have 7 bits, and so are a sequence each. All are looked at: a loop without a way out is made wide.
fn seven_bits(m: &[u8]) -> bool
    ensures { result ≡ true → is_text m.now ≡ true }
{
    let mut most = 0;
    for x in m {
        most = most.max(*x);
    }
    most <= 127
}

// Whether m is text, sequence by sequence.
fn all_sequences(m: &[u8]) -> bool
    ensures { result ≡ is_text m.now }
{
    let mut at = 0;
    while at < m.len() {
        let Some(end) = sequence_end(m, at) else {
            return false;
        };
        at = end;
    }
    true
}

// Whether m is text.
pub fn is_text(m: &[u8]) -> bool
    ensures { result ≡ is_text m.now }
{
    seven_bits(m) || all_sequences(m)
}
