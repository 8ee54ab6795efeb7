// The letters of the fates.

pub const EXPANDED: u8 = b'E';

pub const LEAF: u8 = b'L';

pub const TAIL_BOUND: u8 = b'T';

pub const WORK_BOUND: u8 = b'W';

pub const BUDGET: u8 = b'N';

pub const CAPACITY: u8 = b'X';

pub const WORSE: u8 = b'M';

pub const CUTSET: u8 = b'C';

pub const LEFT: u8 = b'O';
