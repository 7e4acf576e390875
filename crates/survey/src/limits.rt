// The limits of a survey.

pub const MIN_SENSORS: u16 = 3;

pub const MAX_SENSORS: u16 = 64;

pub const MAX_LINKS: u16 = 512;

pub const MAX_TRIANGLES: u32 = 1024;

pub const MIN_FENCE: usize = 3;

// A fence has each sensor at most once.
pub const MAX_FENCE: usize = MAX_SENSORS as usize;

// A table of sensors has a place for each number; the place 0 stays empty.
pub(crate) const PLACES: usize = MAX_SENSORS as usize + 1;
