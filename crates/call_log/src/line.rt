// The line of a call, part by part.
ghost use Rattle.std.specs.Prelude.{◌≡◌, [], ◌++◌, ◌+◌, ◌*◌, ◌≤◌, length};
ghost use Rattle.decimal.specs.Decimal.{decimal};
ghost use Rattle.texts.specs.Forms.{yes_or_no};
ghost use Rattle.call_log.specs.Line.{is_write, mark_text, counts_text, call_text, answer_text, frame_text, line_text};
ghost use Rattle.call_log.specs.Laid.{Laid};

use crate::parts::{put_field, put_hex, put_text};
use crate::values::{put_agreed, put_due, put_seen};
use crate::{Call, Now};
use ecn::{Kind, Mark};
use receiver::Verdict;
use seen::Micros;

fn put_yes(buf: &mut [u8], at: usize, yes: bool) -> usize
    requires { at + 5 ≤ length buf.old }
    ensures { Laid buf.old at (yes_or_no yes) buf.new result × (result ≤ at + 5) }
{
    if yes {
        put_text(buf, at, b"true")
    } else {
        put_text(buf, at, b"false")
    }
}

fn put_counts(buf: &mut [u8], at: usize, kind: Kind) -> usize
    requires { at + 5 ≤ length buf.old }
    ensures { Laid buf.old at (counts_text kind) buf.new result × (result ≤ at + 5) }
{
    match kind {
        Kind::Plain => put_text(buf, at, b"false"),
        Kind::Counts => put_text(buf, at, b"true"),
    }
}

fn put_mark(buf: &mut [u8], at: usize, mark: Mark) -> usize
    requires { at + 4 ≤ length buf.old }
    ensures { Laid buf.old at (mark_text mark) buf.new result × (result ≤ at + 4) }
{
    match mark {
        Mark::None => put_text(buf, at, b"none"),
        Mark::Ect0 => put_text(buf, at, b"ect0"),
        Mark::Ect1 => put_text(buf, at, b"ect1"),
        Mark::Ce => put_text(buf, at, b"ce"),
    }
}

// Four keys, each with a number: as a list of pairs they would have to be taken apart in each clause.
fn put_four(
    buf: &mut [u8],
    at: usize,
    key: &[u8],
    n: u64,
    second: &[u8],
    m: u64,
    third: &[u8],
    k: u64,
    fourth: &[u8],
    l: u64,
) -> usize
    requires { at + length key.now + length second.now + length third.now + length fourth.now + 80 ≤ length buf.old }
    ensures { Laid buf.old at ((key.now ++ decimal n) ++ ((second.now ++ decimal m) ++ ((third.now ++ decimal k) ++ (fourth.now ++ (decimal l ++ []))))) buf.new result
        × (result ≤ at + length key.now + length second.now + length third.now + length fourth.now + 80) }
{
    let a = put_field(buf, at, key, n);
    let b = put_field(buf, a, second, m);
    let c = put_field(buf, b, third, k);
    put_field(buf, c, fourth, l)
}

// A packet's arguments.
fn put_packet(buf: &mut [u8], at: usize, number: u64, eliciting: bool, mark: Mark) -> usize
    requires { at + 80 ≤ length buf.old }
    ensures { Laid buf.old at (call_text (Call.Packet number eliciting mark) []) buf.new result × (result ≤ at + 80) }
{
    let a = put_field(buf, at, b",\"call\":\"packet\",\"number\":", number);
    let b = put_text(buf, a, b",\"eliciting\":");
    let c = put_yes(buf, b, eliciting);
    let d = put_text(buf, c, b",\"mark\":\"");
    let e = put_mark(buf, d, mark);
    put_text(buf, e, b"\"")
}

// A write's arguments.
fn put_write(buf: &mut [u8], at: usize, kind: Kind, room: u64) -> usize
    requires { at + 60 ≤ length buf.old }
    ensures { Laid buf.old at (call_text (Call.Write kind room) []) buf.new result × (result ≤ at + 60) }
{
    let a = put_text(buf, at, b",\"call\":\"write\",\"counts\":");
    let b = put_counts(buf, a, kind);
    put_field(buf, b, b",\"room\":", room)
}

// The call with its arguments.
pub(crate) fn put_call(buf: &mut [u8], at: usize, call: Call) -> usize
    requires { at + 147 ≤ length buf.old }
    ensures { Laid buf.old at (call_text call []) buf.new result × (result ≤ at + 147) }
{
    match call {
        Call::Open {
            threshold,
            reordering,
            maximum,
            minimum,
        } => put_four(
            buf,
            at,
            b",\"call\":\"open\",\"threshold\":",
            threshold,
            b",\"reordering\":",
            reordering,
            b",\"maximum\":",
            maximum.0,
            b",\"minimum\":",
            minimum.0,
        ),
        Call::Packet {
            number,
            eliciting,
            mark,
        } => put_packet(buf, at, number, eliciting, mark),
        Call::Timer => put_text(buf, at, b",\"call\":\"timer\""),
        Call::Threshold {
            sequence,
            threshold,
            delay,
            reordering,
        } => put_four(
            buf,
            at,
            b",\"call\":\"threshold\",\"sequence\":",
            sequence,
            b",\"threshold\":",
            threshold,
            b",\"delay\":",
            delay.0,
            b",\"reordering\":",
            reordering,
        ),
        Call::Immediate => put_text(buf, at, b",\"call\":\"immediate\""),
        Call::Confirm { largest } => {
            put_field(buf, at, b",\"call\":\"confirm\",\"largest\":", largest)
        }
        Call::Write { kind, room } => put_write(buf, at, kind, room),
    }
}

// The answer.
fn put_answer(buf: &mut [u8], at: usize, verdict: Verdict) -> usize
    requires { at + 40 ≤ length buf.old }
    ensures { Laid buf.old at (answer_text verdict []) buf.new result × (result ≤ at + 40) }
{
    match verdict {
        Verdict::Accepted => put_text(buf, at, b",\"answer\":\"accepted\""),
        Verdict::Stale => put_text(buf, at, b",\"answer\":\"stale\""),
        Verdict::Refused(refusal) => {
            let next = put_field(buf, at, b",\"answer\":\"refused ", refusal);
            put_text(buf, next, b"\"")
        }
    }
}

#[tactic(auto, unfolding(crate::specs::Line::is_write))]
fn is_write(call: Call) -> bool
    ensures { result ≡ is_write call }
{
    matches!(call, Call::Write { .. })
}

// A write's frame.
fn put_frame(buf: &mut [u8], at: usize, call: Call, frame: &[u8]) -> usize
    requires { at + 11 + 2 * length frame.now ≤ length buf.old }
    ensures { Laid buf.old at (frame_text call frame.now []) buf.new result × (result ≤ at + 11 + 2 * length frame.now) }
{
    if !is_write(call) {
        return at;
    }
    let first = put_text(buf, at, b",\"frame\":\"");
    let next = put_hex(buf, first, frame);
    put_text(buf, next, b"\"")
}

// The line at the start of buf; answers its length.
pub(crate) fn put_line(
    buf: &mut [u8],
    time: Micros,
    call: Call,
    verdict: Verdict,
    frame: &[u8],
    values: Now,
) -> usize
    requires { 520 + 2 * length frame.now ≤ length buf.old }
    ensures { Laid buf.old 0 (line_text time call verdict frame.now values []) buf.new result × (result ≤ 520 + 2 * length frame.now) }
{
    let a = put_field(buf, 0, b"{\"time\":", time.0);
    let b = put_call(buf, a, call);
    let c = put_answer(buf, b, verdict);
    let d = put_frame(buf, c, call, frame);
    let e = put_agreed(buf, d, values);
    let f = put_seen(buf, e, values);
    put_due(buf, f, values)
}
