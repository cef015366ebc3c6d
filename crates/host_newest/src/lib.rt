// The archive's call for the newest lost object, as include/lumbixet_report.h declares it.
// A host gets the paper's number and the values, and 0 for what an answer has not.

#![tactic(auto)]

ghost use Rattle.std.specs.Prelude.{◌≡◌};
ghost use Rattle.newest.specs.Newest.{newest_by};
ghost use Rattle.host_newest.specs.Newest.{no_object, newest_out};

use newest::Lost;
use wire::Refusal;

// The last object of a report that was not received: 1 in found where there is one, and its group and number.
#[repr(C)]
#[derive(Clone, Copy)]
pub struct NewestOut {
    pub result: u64,
    pub found: u64,
    pub group: u64,
    pub object: u64,
}

// No object, with the paper's number.
fn no_object(number: u64) -> NewestOut
    ensures { result ≡ no_object number }
{
    NewestOut {
        result: number,
        found: 0,
        group: 0,
        object: 0,
    }
}

// The object, that there is none, or the refusal.
fn newest_out(answer: Result<Option<Lost>, Refusal>) -> NewestOut
    ensures { result ≡ newest_out answer }
{
    match answer {
        Ok(Some(lost)) => NewestOut {
            result: 0,
            found: 1,
            group: lost.group,
            object: lost.object,
        },
        Ok(None) => no_object(0),
        Err(refusal) => no_object(refusal.number()),
    }
}

// Finds the last object of a report that is marked not received.
#[unsafe(no_mangle)]
pub extern "C" fn lumbixet_newest_lost(profile: u64, bytes: &[u8]) -> NewestOut
    ensures { result ≡ newest_out (newest_by profile bytes.now) }
{
    let answer = newest::newest_lost(profile, bytes);
    newest_out(answer)
}
