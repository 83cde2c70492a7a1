// Every type of the host's tables, events and answers: plain data, by value. What the numbers mean, and every rule about
// them, stands in specs/, in the order of the paper.
//
// A list has the name of one of its elements, so that cpu[c] is cpu c. The plural counts how many are there, from the first on: cpus.
#![tactic(auto)]

pub mod widths;

// The limits of the tables; specs/Limits.antt names the same ones for the rules.
pub const GUESTS: usize = 4;

pub const CPUS: usize = 8;

pub const EXTENTS: usize = 7;

pub const SOURCES: usize = 16;

pub const QUEUES: usize = 4;

pub const TSBS: usize = 4;

// The bytes of a page.
pub const PAGE_SIZE: usize = 8192;

// A real address, which a guest names, and an offset into the host's memory. Only an extent turns one into the other.
#[derive(Clone, Copy, PartialEq, Eq)]
pub struct Real(pub u64);

#[derive(Clone, Copy, PartialEq, Eq)]
pub struct Host(pub usize);

// Real pages real .. real + count are host pages host .. host + count.
#[derive(Clone, Copy, PartialEq, Eq)]
pub struct Extent {
    pub real: u32,
    pub count: u16,
    pub host: u16,
}

// The memory of a guest.
#[derive(Clone, Copy, PartialEq, Eq)]
pub struct Extents {
    pub extents: u8,
    pub extent: [Extent; EXTENTS],
}

// The ring of a queue: its first real address, and in bytes its size and the places of its head and tail.
#[derive(Clone, Copy, PartialEq, Eq)]
pub struct Ring {
    pub base: u64,
    pub size: u16,
    pub head: u16,
    pub tail: u16,
}

// A queue record is either unset or a ring.
#[derive(Clone, Copy, PartialEq, Eq)]
pub enum QueueRecord {
    Unset,
    Set(Ring),
}

#[derive(Clone, Copy, PartialEq, Eq)]
pub struct Queue {
    pub held: QueueRecord,
}

// A TSB descriptor as it is kept: all of it but the reserved word.
#[derive(Clone, Copy, PartialEq, Eq)]
pub struct Tsb {
    pub index: u16,
    pub associativity: u16,
    pub entries: u32,
    pub context: u32,
    pub mask: u32,
    pub base: u64,
}

// A TSB list.
#[derive(Clone, Copy, PartialEq, Eq)]
pub struct Tsbs {
    pub tsbs: u8,
    pub tsb: [Tsb; TSBS],
}

// Queues 0x3c to 0x3f, the TSB lists for context 0 and the other contexts, and the statistics address, 0 where there is none.
#[derive(Clone, Copy, PartialEq, Eq)]
pub struct Cpu {
    pub queue: [Queue; QUEUES],
    pub ctx0: Tsbs,
    pub ctxnon0: Tsbs,
    pub statistics: u64,
}

// An interrupt source. enabled is 0 or 1; state is 0 idle, 1 received, 2 delivered; target is the cpuid that it interrupts.
#[derive(Clone, Copy, PartialEq, Eq)]
pub struct Source {
    pub devhandle: u32,
    pub devino: u8,
    pub cookies: bool,
    pub enabled: u8,
    pub state: u8,
    pub target: u8,
    pub cookie: u64,
}

// The negotiated major number of each API group (0, 1, 2 and 0x200), 0 where none is. The minor is always 0.
#[derive(Clone, Copy, PartialEq, Eq)]
pub struct Versions {
    pub sun4v: u8,
    pub core: u8,
    pub interrupt: u8,
    pub statistics: u8,
}

// All that a guest's calls can read or change, extents aside.
#[derive(Clone, Copy, PartialEq, Eq)]
pub struct Plant {
    pub versions: Versions,
    pub cpus: u8,
    pub cpu: [Cpu; CPUS],
    pub sources: u8,
    pub source: [Source; SOURCES],
}

#[derive(Clone, Copy, PartialEq, Eq)]
pub struct Guest {
    pub extents: Extents,
    pub plant: Plant,
}

#[derive(Clone, Copy, PartialEq, Eq)]
pub struct Tables {
    pub guests: u8,
    pub guest: [Guest; GUESTS],
}

// A call: its arguments are 0 where a caller has none to give.
#[derive(Clone, Copy, PartialEq, Eq)]
pub struct Call {
    pub guest: u64,
    pub cpu: u64,
    pub trap: u64,
    pub function: u64,
    pub arg0: u64,
    pub arg1: u64,
    pub arg2: u64,
    pub arg3: u64,
    pub arg4: u64,
}

#[derive(Clone, Copy, PartialEq, Eq)]
pub struct HeadWrite {
    pub guest: u64,
    pub cpu: u64,
    pub queue: u64,
    pub value: u64,
}

#[derive(Clone, Copy, PartialEq, Eq)]
pub struct Device {
    pub devhandle: u64,
    pub devino: u64,
}

#[derive(Clone, Copy, PartialEq, Eq)]
pub struct LoadAt {
    pub guest: u64,
    pub address: u64,
}

#[derive(Clone, Copy, PartialEq, Eq)]
pub struct StoreAt {
    pub guest: u64,
    pub address: u64,
    pub value: u64,
}

// A hit in a TSB: side is 0 instruction, 1 data; context is 0 for context zero, 1 for another; index is the page size's.
#[derive(Clone, Copy, PartialEq, Eq)]
pub struct TsbHit {
    pub guest: u64,
    pub cpu: u64,
    pub side: u64,
    pub context: u64,
    pub index: u64,
    pub ticks: u64,
}

#[derive(Clone, Copy, PartialEq, Eq)]
pub enum Event {
    Call(Call),
    Head(HeadWrite),
    Raise(Device),
    Load(LoadAt),
    Store(StoreAt),
    Hit(TsbHit),
}

// The API groups 0, 1, 2 and 0x200.
#[derive(Clone, Copy, PartialEq, Eq)]
pub enum Group {
    Sun4v,
    Core,
    Interrupt,
    Statistics,
}

// What a call asks of a source.
#[derive(Clone, Copy, PartialEq, Eq)]
pub enum SourceCall {
    GetEnabled,
    SetEnabled,
    GetState,
    SetState,
    GetTarget,
    SetTarget,
}

// What a call asks of a source that supports cookies.
#[derive(Clone, Copy, PartialEq, Eq)]
pub enum CookieCall {
    GetCookie,
    SetCookie,
    Source(SourceCall),
}

// The calls, by the papers' names. Sysino are 0xa1 to 0xa6, and Cookie 0xa7 to 0xae.
#[derive(Clone, Copy, PartialEq, Eq)]
pub enum Function {
    SetVersion,
    GetVersion,
    CpuQconf,
    CpuQinfo,
    CpuMyid,
    CpuMondoSend,
    MmuTsbCtx0,
    MmuTsbCtxnon0,
    MemScrub,
    MemSync,
    MmustatConf,
    MmustatInfo,
    IntrDevino2sysino,
    Sysino(SourceCall),
    Cookie(CookieCall),
}

// Every refusal of an event, by the papers' name where they have one.
#[derive(Clone, Copy, PartialEq, Eq)]
pub enum Refusal {
    ENOCPU,
    ENORADDR,
    EBADPGSZ,
    EBADTSB,
    EINVAL,
    EBADTRAP,
    EBADALIGN,
    EWOULDBLOCK,
    ENOTSUPPORTED,
    BadTables,
    ShortMemory,
    NoCaller,
    NoSource,
}

// Done with no value, with value 1, or with values 1 and 2; or refused.
#[derive(Clone, Copy, PartialEq, Eq)]
pub enum Answer {
    Done,
    One(u64),
    Two(u64, u64),
    Refused(Refusal),
}

// Every refusal of an image: that bits are missing, or where the first fault is. That is the guest, and of an extent or a source
// its position there; behind the last guest it is the number of guests.
#[derive(Clone, Copy, PartialEq, Eq)]
pub enum ImageRefusal {
    ImageShort,
    HeaderOrCount(u8),
    ExtentNumbers(u8, u8),
    ExtentOrder(u8, u8),
    PagesShared(u8, u8),
    SourceTwice(u8, u8),
    FillOrBehind(u8),
}

// What loading an image gives.
#[derive(Clone, Copy, PartialEq, Eq)]
pub struct Loaded {
    pub answer: Result<(), ImageRefusal>,
    pub tables: Tables,
}

// Every refusal of writing an image.
#[derive(Clone, Copy, PartialEq, Eq)]
pub enum WriteRefusal {
    BadTables,
    NoGuest,
    ShortBuffer,
}

// What a line of a plan adds to the tables: a guest of so many cpus; an extent or a source of the last guest; or nothing, as it is no such
// line or has a number that a table cannot hold.
#[derive(Clone, Copy, PartialEq, Eq)]
pub enum PlanLine {
    Guest(u8),
    Extent(Extent),
    Source(Source),
}

// How far the desk's program is with its lines: before the first; a plan; an image and what loading it answered; or a line that is none,
// by its number.
#[derive(Clone, Copy, PartialEq, Eq)]
pub enum Stage {
    Fresh,
    Drawing,
    Loaded(Result<(), ImageRefusal>),
    Bad(usize),
}

#[derive(Clone, Copy, PartialEq, Eq)]
pub struct Desk {
    pub stage: Stage,
    pub tables: Tables,
}

// What is told of a line of the session: that it is bad, the answer of its image, or the answer to its event.
#[derive(Clone, Copy, PartialEq, Eq)]
pub enum Reply {
    Bad,
    Image(Result<(), ImageRefusal>),
    Event(Answer),
}
