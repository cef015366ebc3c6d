// Where each number of a header stands: what comes first, then the metrics, and the entry count last.
pub const AT_TIMESTAMP: usize = 0;

pub const AT_INTERVAL: usize = 1;

pub const AT_TOTAL: usize = 2;

pub const AT_RECEIVED: usize = 3;

pub const AT_LATE: usize = 4;

pub const AT_LOST: usize = 5;

pub const AT_AVERAGE: usize = 6;

pub const AT_METRICS: usize = 7;

// So many numbers come before the metrics.
pub const FIXED: usize = 8;

// A metric has two numbers: its type, then its value.
pub const TYPE: usize = 0;

pub const VALUE: usize = 1;
