// What is in force, from the record, and its part of the line.
ghost use Rattle.std.specs.Prelude.{◌≡◌, [], ◌+◌, ◌≤◌, length};
ghost use Rattle.call_log.specs.Line.{now_of, agreed_text, seen_text, due_text};
ghost use Rattle.call_log.specs.Laid.{Laid};

use crate::Now;
use crate::parts::{put_end, put_field, put_text};
use receiver::Receiver;

pub(crate) fn now_of(receiver: Receiver) -> Now
    ensures { result ≡ now_of receiver }
{
    let agreed = receiver.agreed;
    Now {
        threshold: agreed.threshold,
        reordering: agreed.reordering,
        delay: agreed.delay,
        sequence: agreed.sequence,
        largest: receiver.seen.end,
        floor: receiver.seen.floor(),
        acknowledged: receiver.acknowledged,
        pending: receiver.pending.count,
        cause: receiver.cause,
    }
}

// The values that were agreed.
pub(crate) fn put_agreed(buf: &mut [u8], at: usize, values: Now) -> usize
    requires { at + 135 ≤ length buf.old }
    ensures { Laid buf.old at (agreed_text values []) buf.new result × (result ≤ at + 135) }
{
    let a = put_field(buf, at, b",\"now\":{\"threshold\":", values.threshold);
    let b = put_field(buf, a, b",\"reordering\":", values.reordering);
    let c = put_field(buf, b, b",\"delay\":", values.delay.0);
    put_end(buf, c, b",\"sequence\":", values.sequence)
}

// What was received and acknowledged.
pub(crate) fn put_seen(buf: &mut [u8], at: usize, values: Now) -> usize
    requires { at + 96 ≤ length buf.old }
    ensures { Laid buf.old at (seen_text values []) buf.new result × (result ≤ at + 96) }
{
    let a = put_end(buf, at, b",\"largest\":", values.largest);
    let b = put_field(buf, a, b",\"floor\":", values.floor);
    put_end(buf, b, b",\"acknowledged\":", values.acknowledged)
}

// What is due, and the line's end.
pub(crate) fn put_due(buf: &mut [u8], at: usize, values: Now) -> usize
    requires { at + 63 ≤ length buf.old }
    ensures { Laid buf.old at (due_text values []) buf.new result × (result ≤ at + 63) }
{
    let a = put_field(buf, at, b",\"pending\":", values.pending);
    let b = put_field(buf, a, b",\"cause\":", values.cause);
    put_text(buf, b, b"}}\n")
}
