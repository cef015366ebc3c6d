// One report more in the totals.
ghost use Rattle.std.specs.Prelude.{◌≡◌, ◌+◌, ◌<◌, ◌≤◌, leb, length, get_or, set};
ghost use Rattle.wire.specs.Bytes.{pick};
ghost use Rattle.totals.specs.Totals.{longest, too_long, one, places, most, kept, status_counts};
ghost use Rattle.totals.specs.Adding.{refused_brings, brings, over, Held, with, added};
ghost use Rattle.totals.specs.Files.{reported};

use crate::{
    AT_ENTRIES, AT_LATE, AT_LOST, AT_RECEIVED, AT_TOTAL, Added, Brought, LONGEST, PLACES, Standing,
    TOO_LONG, Totals,
};
use entries::RECORD;

// Where the status stands in an entry record.
const AT_STATUS: usize = 8;

// 1 where the status is the wanted one, else 0.
fn one_if(status: u8, wanted: u8) -> u32
    ensures { result ≡ one wanted status }
{
    if status == wanted { 1 } else { 0 }
}

// How many of the records have each status, in one walk. With counts of 32 bits a processor takes four records at a time.
// It goes by index: over exact chunks the four counts would need the place of each record in their proof too, which is no plainer.
fn count_statuses(records: &[u8]) -> [u64; 4]
    requires { length records.now ≤ longest }
    ensures { result ≡ status_counts records.now }
{
    let n = records.len() / RECORD;
    let mut received: u32 = 0;
    let mut late: u32 = 0;
    let mut lost: u32 = 0;
    let mut partial: u32 = 0;
    for i in 0..n {
        let status = records[i * RECORD + AT_STATUS];
        received += one_if(status, 0);
        late += one_if(status, 1);
        lost += one_if(status, 2);
        partial += one_if(status, 3);
    }
    [received as u64, late as u64, lost as u64, partial as u64]
}

impl Brought {
    // A refused report brings its number alone.
    pub(crate) fn refused(number: u64) -> Brought
        ensures { result ≡ refused_brings number }
    {
        let statuses = [0u64; 4];
        Brought {
            number,
            total: 0,
            received: 0,
            late: 0,
            lost: 0,
            statuses,
        }
    }

    // What the report brings.
    pub(crate) fn by(report: &[u8]) -> Brought
        ensures { result ≡ brings report.now }
    {
        if LONGEST < report.len() {
            return Brought::refused(TOO_LONG);
        }
        let read = report::read_report(1, report);
        if read.refusal != 0 {
            return Brought::refused(read.refusal);
        }
        let header = read.header;
        // The entries are the last of an accepted report.
        let start = report.len() - RECORD * header.entries as usize;
        let records = &report[start..];
        let statuses = count_statuses(records);
        Brought {
            number: 0,
            total: header.total,
            received: header.received,
            late: header.late,
            lost: header.lost,
            statuses,
        }
    }

    // The sums and their marks are lent as a pair of arrays, the project's form for a record that is written in place.
    // Adds it to the lent sums: one in the place of its number, then the totals and the statuses.
    pub(crate) fn add_in(self, sums: &mut [u64; PLACES], full: &mut [u64; PLACES])
        requires { (self.number ≤ too_long) × Held (over sums.old full.old) }
        ensures { over sums.new full.new ≡ with (over sums.old full.old) self }
    {
        let statuses = self.statuses;
        add_at(sums, full, self.number as usize, 1);
        add_at(sums, full, AT_TOTAL, self.total);
        add_at(sums, full, AT_RECEIVED, self.received);
        add_at(sums, full, AT_LATE, self.late);
        add_at(sums, full, AT_LOST, self.lost);
        add_at(sums, full, AT_ENTRIES, statuses[0]);
        add_at(sums, full, AT_ENTRIES + 1, statuses[1]);
        add_at(sums, full, AT_ENTRIES + 2, statuses[2]);
        add_at(sums, full, AT_ENTRIES + 3, statuses[3]);
    }
}

// So much more in one place of the lent sums; a sum that would pass 2^64 - 1 stays there and is full.
fn add_at(sums: &mut [u64; PLACES], full: &mut [u64; PLACES], place: usize, more: u64)
    requires { place < places }
    ensures { (sums.new ≡ set sums.old place (kept (get_or sums.old place 0 + more)))
        × (full.new ≡ set full.old place (pick (leb (get_or sums.old place 0 + more) most) (get_or full.old place 0) 1)) }
{
    match sums[place].checked_add(more) {
        Some(sum) => sums[place] = sum,
        None => {
            sums[place] = u64::MAX;
            full[place] = 1;
        }
    }
}

impl Totals {
    // The totals with what one report brings.
    fn with(self, brought: Brought) -> Totals
        requires { brought.number ≤ too_long }
        ensures { result ≡ with self brought }
    {
        let mut sums = self.sums;
        let mut full = self.full;
        brought.add_in(&mut sums, &mut full);
        Totals { sums, full }
    }

    // The totals with one report more.
    pub fn add(self, report: &[u8]) -> Totals
        ensures { result ≡ added self report.now }
    {
        self.with(Brought::by(report))
    }
}

impl Standing {
    // One report more that is handed over by itself, and the number under which it is counted; what a file has still to be skipped stays.
    pub fn add(self, report: &[u8]) -> Added
        ensures { result ≡ reported self report.now }
    {
        let brought = Brought::by(report);
        let next = Standing {
            totals: self.totals.with(brought),
            skip: self.skip,
        };
        Added {
            counted_as: brought.number,
            next,
        }
    }
}
