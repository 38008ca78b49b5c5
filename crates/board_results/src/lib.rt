// The result record of a run, in bytes that the caller lends: the reply, the counts, and the record that a refusal names. And one number told in the
// result of a call that runs nothing.
#![tactic(auto)]

ghost use Rattle.std.specs.Prelude.{◌≡◌, ◌≤◌, length};
ghost use Rattle.std.proofs.Math.Option.{none, some};
ghost use Rattle.numbers.specs.Numbers.{over};
ghost use Rattle.replies.specs.Replies.{told, told_reply};
ghost use Rattle.board_results.specs.Results.{no_counts, head_bytes, result_bytes, with_leaps, record_size, record_bytes, unfit_reply};
ghost use Rattle.board_results.specs.Returned.{named_in};

use counts::{Counts, Leaps};
use replies::Reply;

// The bytes of a record: the leaping run's has the leaps besides.
pub fn record_size(leaping: bool) -> usize
    ensures { result ≡ record_size leaping }
{
    if leaping { 44 } else { 40 }
}

// The first 16 of the 40 bytes that both runs report.
fn write_head(number: u32, counted: Counts, res: &mut [u8])
    requires { 16 ≤ length res.old }
    ensures { res.new ≡ over (head_bytes number counted) res.old }
{
    numbers::put(&mut res[0..4], number as u64);
    numbers::put(&mut res[4..8], counted.cycles.0 as u64);
    numbers::put(&mut res[8..12], counted.instructions.0 as u64);
    numbers::put(&mut res[12..16], counted.entries.0 as u64);
}

// The 40 bytes.
fn write(number: u32, named: usize, counted: Counts, res: &mut [u8])
    requires { 40 ≤ length res.old }
    ensures { res.new ≡ over (result_bytes number named counted) res.old }
{
    write_head(number, counted, res);
    numbers::put(&mut res[16..24], counted.used.0 as u64);
    numbers::put(&mut res[24..32], counted.sent.0 as u64);
    numbers::put(&mut res[32..40], named as u64);
}

// The whole record: the leaps after these, where the run leaps. `leaping` stands beside the leaps: it is asked for (`record_size`) before there are any.
fn record(leaping: bool, number: u32, named: usize, counted: Counts, leaps: Leaps, res: &mut [u8])
    requires { record_size leaping ≤ length res.old }
    ensures { res.new
        ≡ over (with_leaps leaping leaps.0 (result_bytes number named counted)) res.old }
{
    write(number, named, counted, res);
    if leaping {
        numbers::put(&mut res[40..44], leaps.0 as u64);
    }
}

// A run's record; returns the reply's number.
pub fn report(leaping: bool, reply: Reply, counted: Counts, leaps: Leaps, res: &mut [u8]) -> u32
    requires { record_size leaping ≤ length res.old }
    ensures { (result ≡ (told_reply reply).number)
        × (res.new ≡ over (record_bytes leaping (told_reply reply) counted leaps.0) res.old) }
{
    let number = reply.number() as u32;
    record(leaping, number, reply.record(), counted, leaps, res);
    number
}

// The reply to a machine outside its ranges: image and area are tested first.
pub fn unfit(image: &[u8], area: &[u8]) -> u32
    ensures { result ≡ unfit_reply image.now area.now }
{
    if image.len() != 65536 {
        return 1;
    }
    if area.len() != 128 {
        return 12;
    }
    2
}

// The record of a refusal that names no record: all counts zero. It takes a number, as the C calls' results have it: a `Reply` has fewer.
pub fn refuse(leaping: bool, number: u32, res: &mut [u8])
    requires { record_size leaping ≤ length res.old }
    ensures { res.new ≡ over (record_bytes leaping (told number none) no_counts 0) res.old }
{
    record(leaping, number, 0, Counts::default(), Leaps(0), res);
}

// A number in the result of a reply, which is returned.
pub fn tell(reply: u32, number: usize, res: &mut [u8]) -> u32
    requires { 8 ≤ length res.old }
    ensures { (result ≡ reply) × (res.new ≡ named_in (some number) res.old) }
{
    numbers::put(&mut res[0..8], number as u64);
    reply
}
