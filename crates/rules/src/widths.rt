// The widths of the image's fields in bits, where each stands in its part, and how many bits each part has, for its readers and
// writers; specs/Widths.antt names the same widths for the rules.

// The header.
pub const EDITION_WIDTH: u32 = 4;

pub const GUESTS_WIDTH: u32 = 4;

pub const GUESTS_AT: u64 = EDITION_WIDTH as u64;

pub const HEADER_BITS: u64 = (EDITION_WIDTH + GUESTS_WIDTH) as u64;

// A guest's counts.
pub const CPUS_WIDTH: u32 = 4;

pub const EXTENTS_WIDTH: u32 = 3;

pub const SOURCES_WIDTH: u32 = 5;

pub const EXTENTS_AT: u64 = CPUS_WIDTH as u64;

pub const SOURCES_AT: u64 = (CPUS_WIDTH + EXTENTS_WIDTH) as u64;

pub const COUNTS_BITS: u64 = (CPUS_WIDTH + EXTENTS_WIDTH + SOURCES_WIDTH) as u64;

// An extent.
pub const REAL_PAGE_WIDTH: u32 = 28;

pub const PAGE_COUNT_WIDTH: u32 = 16;

pub const HOST_PAGE_WIDTH: u32 = 16;

pub const PAGE_COUNT_AT: u64 = REAL_PAGE_WIDTH as u64;

pub const HOST_PAGE_AT: u64 = (REAL_PAGE_WIDTH + PAGE_COUNT_WIDTH) as u64;

pub const EXTENT_BITS: u64 = (REAL_PAGE_WIDTH + PAGE_COUNT_WIDTH + HOST_PAGE_WIDTH) as u64;

// A source.
pub const DEVHANDLE_WIDTH: u32 = 28;

pub const DEVINO_WIDTH: u32 = 7;

pub const COOKIE_SUPPORT_WIDTH: u32 = 1;

pub const DEVINO_AT: u64 = DEVHANDLE_WIDTH as u64;

pub const COOKIE_SUPPORT_AT: u64 = (DEVHANDLE_WIDTH + DEVINO_WIDTH) as u64;

pub const SOURCE_BITS: u64 = (DEVHANDLE_WIDTH + DEVINO_WIDTH + COOKIE_SUPPORT_WIDTH) as u64;
