// A call and its line in one: no call without its line.
ghost use Rattle.std.specs.Prelude.{◌≡◌, [], ◌+◌, ◌*◌, ◌≤◌, leb, length};
ghost use Rattle.wire.specs.Bytes.{pick, splice};
ghost use Rattle.call_log.specs.Line.{line_text};
ghost use Rattle.call_log.specs.Calls.{longest_frame};
ghost use Rattle.call_log.specs.Logged.{is_one, fitted, laid_if, logged_answer, frame_after, line_after};

use crate::calls::step;
use crate::line::put_line;
use crate::parts::put_text;
use crate::values::now_of;
use crate::{Call, FRAME_ROOM, LINE_ALONE, LINE_ROOM, Noted, Now};
use receiver::{Receiver, Verdict};
use seen::Micros;

fn is_one(verdict: Verdict) -> bool
    ensures { result ≡ is_one verdict }
{
    matches!(verdict, Verdict::Refused(1))
}

fn without_line(refusal: u64, kept: Receiver) -> Noted
    ensures { result ≡ record { verdict = Verdict.Refused refusal; next = kept; frame = 0; line = 0 } }
{
    Noted {
        verdict: Verdict::Refused(refusal),
        next: kept,
        frame: 0,
        line: 0,
    }
}

// The line where the buffer may be too short for it: it is written beside the buffer, and copied where it fits.
fn fit_closely(
    line: &mut [u8],
    time: Micros,
    call: Call,
    verdict: Verdict,
    frame: &[u8],
    values: Now,
) -> usize
    requires { length frame.now ≤ longest_frame }
    ensures { (result ≡ fitted (length line.old) (line_text time call verdict frame.now values []))
        × (line.new ≡ laid_if line.old (line_text time call verdict frame.now values [])) }
{
    let mut own = [0u8; LINE_ROOM];
    let end = put_line(&mut own, time, call, verdict, frame, values);
    if line.len() < end {
        return 0;
    }
    put_text(line, 0, &own[..end])
}

// The line at the start of the buffer, where it fits; answers its length, or 0.
fn fit_line(
    line: &mut [u8],
    time: Micros,
    call: Call,
    verdict: Verdict,
    frame: &[u8],
    values: Now,
) -> usize
    requires { length frame.now ≤ longest_frame }
    ensures { (result ≡ fitted (length line.old) (line_text time call verdict frame.now values []))
        × (line.new ≡ laid_if line.old (line_text time call verdict frame.now values [])) }
{
    if line.len() < LINE_ALONE + 2 * frame.len() {
        return fit_closely(line, time, call, verdict, frame, values);
    }
    put_line(line, time, call, verdict, frame, values)
}

// The call on the record, a write's frame at the start of its buffer, and the line at the start of its own.
// Frame and line are stored only where both fit; a frame is written beside its buffer until that is known.
pub fn logged(
    receiver: Receiver,
    time: Micros,
    call: Call,
    frame: &mut [u8],
    line: &mut [u8],
) -> Noted
    ensures { (result ≡ logged_answer receiver time call (length frame.old) (length line.old))
        × (frame.new ≡ frame_after receiver time call frame.old line.old)
        × (line.new ≡ line_after receiver time call frame.old line.old) }
{
    let mut own = [0u8; FRAME_ROOM];
    let mut noted = step(receiver, time, call, &mut own);
    let verdict = noted.verdict;
    if is_one(verdict) {
        return without_line(1, receiver);
    }
    let length = noted.frame;
    if frame.len() < length {
        return without_line(9, receiver);
    }
    let values = now_of(noted.next);
    let end = fit_line(line, time, call, verdict, &own[..length], values);
    if end == 0 {
        return without_line(9, receiver);
    }
    put_text(frame, 0, &own[..length]);
    noted.line = end;
    noted
}
