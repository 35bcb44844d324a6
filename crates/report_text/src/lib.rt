// A dump's own report as text.
#![tactic(auto)]

ghost use Rattle.std.specs.Prelude.{◌≡◌, ◌++◌, ◌+◌, ◌≤◌, ◌<◌, length, drop};
ghost use Rattle.page_spec.specs.Bgp4mp.{longest_message};
ghost use Rattle.decimal_spec.specs.Ascii.{ascii};
ghost use Rattle.decimal_spec.specs.Decimal.{decimal};
ghost use Rattle.listing_spec.specs.Lays.{Lays};
ghost use Rattle.report_text_spec.specs.Text.{cell_line, cell_lines, report_lines, answer_lines, report_text};

use listing::{put_entry, put_fault};
use octets::put_bytes;
use page_spec::LONGEST_MESSAGE;
use report_spec::Tallied;
use walk::tally;

// A key, its number and the line's end over out, from `at` on; answers where they end.
fn put_number(out: &mut [u8], at: usize, key: &[u8], n: u64) -> usize
    requires { at + length key.now + 21 ≤ length out.old }
    ensures { Lays out.old at (key.now ++ decimal n ++ ascii "\n") result out.new × (result ≤ at + length key.now + 21) }
{
    let end = put_entry(out, at, key, n);
    out[end] = b'\n';
    end + 1
}

// The line of a cell; none where nothing was counted.
fn put_cell(out: &mut [u8], at: usize, old: u64, new: u64, count: u64) -> usize
    requires { (at + 32 ≤ length out.old) × (old < 10) × (new < 10) }
    ensures { Lays out.old at (cell_line old new count) result out.new × (result ≤ at + 32) }
{
    if count == 0 {
        return at;
    }
    let a = put_entry(out, at, b"change.", old);
    let b = put_entry(out, a, b".", new);
    put_number(out, b, b"=", count)
}

// The cells, old states rising, and with each the new ones.
fn put_cells(out: &mut [u8], at: usize, own: [u64; 39]) -> usize
    requires { at + 1152 ≤ length out.old }
    ensures { Lays out.old at (cell_lines 0 (drop 3 own)) result out.new × (result ≤ at + 1152) }
{
    let mut put = at;
    for k in 0..36 {
        put = put_cell(out, put, (k / 6 + 1) as u64, (k % 6 + 1) as u64, own[3 + k]);
    }
    put
}

fn put_report(out: &mut [u8], own: [u64; 39]) -> usize
    requires { 2048 ≤ length out.old }
    ensures { Lays out.old 0 (report_lines own) result out.new × (result ≤ 2048) }
{
    let a = put_number(out, 0, b"records=", own[0]);
    let b = put_number(out, a, b"changes=", own[1]);
    let c = put_number(out, b, b"breaks=", own[2]);
    put_cells(out, c, own)
}

// What was found in a dump that is not too large.
fn put_answer(out: &mut [u8], t: Tallied) -> usize
    requires { 2048 ≤ length out.old }
    ensures { Lays out.old 0 (answer_lines t.fault t.place t.own) result out.new × (result ≤ 2048) }
{
    if t.fault != 0 {
        return put_fault(out, 0, t.fault, t.place);
    }
    put_report(out, t.own)
}

// All that the program writes for the dump d. Answers how many octets of out it is; behind them out stays as it was.
pub fn render(d: &[u8], out: &mut [u8; 2048]) -> usize
    ensures { (result ≡ length (report_text longest_message d.now)) × (out.new ≡ report_text longest_message d.now ++ drop (length (report_text longest_message d.now)) out.old) × (result ≤ length out.new) }
{
    if 65536 < d.len() {
        put_bytes(b"too large\n", out, 0);
        return 10;
    }
    put_answer(out, tally(d, true, LONGEST_MESSAGE))
}
