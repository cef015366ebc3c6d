// Numbers on the wire, and fixed fields: the bytes that frames and reports are made of.
// Carries "Numbers on the wire" of document 01 (RFC 9000 section 16).
// Every public function takes any bytes, any place and any value, and refuses by the paper's table.

#![tactic(auto)]

ghost use Rattle.std.specs.Prelude.{◌≡◌, ◌<◌};
ghost use Rattle.wire.specs.Numbers.{len_of, largest_of};

mod fields;
mod numbers;
mod refusals;
mod several;

pub use fields::{put_fixed4, put_fixed8, read_fixed4, read_fixed8};
pub use numbers::{put_number, read_number, width, width_by_table};
pub use refusals::refusal_number;
pub use several::{length_of, put_numbers};

// The largest number on the wire, 2^62 - 1.
pub const LARGEST: u64 = 4611686018427387903;

// One length of the wire form: how many bytes it takes, and the largest number that they hold.
#[derive(Clone, Copy)]
pub struct Form {
    pub len: usize,
    pub largest: u64,
}

// The four lengths and their largest values, by length code.
const FORMS: [Form; 4] = [
    Form {
        len: 1,
        largest: 63,
    },
    Form {
        len: 2,
        largest: 16383,
    },
    Form {
        len: 4,
        largest: 1073741823,
    },
    Form {
        len: 8,
        largest: LARGEST,
    },
];

// What the table says of a code.
pub(crate) fn form_at(code: usize) -> Form
    requires { code < 4 }
    ensures { (result.len ≡ len_of code) × (result.largest ≡ largest_of code) }
{
    FORMS[code]
}

// A number that was read: its value, the place after it and whether its form was the shortest.
#[derive(Clone, Copy)]
pub struct Number {
    pub value: u64,
    pub next: usize,
    pub shortest: bool,
}

// A fixed field that was read: its value and the place after it.
#[derive(Clone, Copy)]
pub struct Fixed {
    pub value: u64,
    pub next: usize,
}

// Why a call is refused: the rows of the paper's table, each under its number.
#[derive(Clone, Copy, PartialEq, Eq, Debug)]
pub enum Refusal {
    // The record handed in is not consistent.
    Inconsistent = 1,
    // The bytes end inside a field.
    Ends = 2,
    // The frame type is another one, or not in shortest form.
    OtherType = 3,
    // A delay breaks the delay rule.
    DelayRule = 4,
    // A number, threshold or time is above 2^62 - 1, or a signed value is outside its range.
    TooLarge = 5,
    // The packet number lies in the window and was received.
    Received = 6,
    // The packet number lies below the window.
    BelowWindow = 7,
    // A call comes that needs a packet, and nothing has been received yet.
    NothingReceived = 8,
    // The smallest permitted output does not fit the room.
    NoRoom = 9,
    // A report's metric count, metric types or entry count break their rule.
    BrokenCount = 10,
    // The total differs from received, late and lost together.
    OtherTotal = 11,
    // An entry record breaks its rule.
    BrokenEntry = 12,
    // Bytes remain after a report.
    BytesRemain = 13,
    // An ACK range goes below number 0.
    BelowZero = 14,
    // A number of a report is in a longer form than it need be.
    LongerForm = 15,
    // A number is acknowledged that was never sent.
    NeverSent = 16,
    // The object is outside those that are tracked.
    OtherObject = 17,
    // The profile is other than 1 or 2.
    OtherProfile = 18,
    // The number confirmed is above the largest acknowledged.
    NotAcknowledged = 19,
    // The report is longer than 8,192 bytes.
    TooLong = 20,
}

// The shortest form that holds a number: its code and its length.
#[derive(Clone, Copy)]
pub struct Fit {
    pub code: usize,
    pub len: usize,
}
