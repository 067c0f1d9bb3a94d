// Which call a row of list.rt makes, by what it needs.

// What needs no store.
#[derive(Clone, Copy)]
pub enum Helper {
    PageRoundUp,
    VirtualPageNum,
    EntryWritePerm,
}

// What only reads the store; a copy writes to the lent bytes.
#[derive(Clone, Copy)]
pub enum Reading {
    PgtTranslate,
    AsSatp,
    CopyIn,
    CopyInStr,
}

// What writes to the store.
#[derive(Clone, Copy)]
pub enum Writing {
    Uvmcreate,
    Map,
    UvmUnmap,
    UvmClear,
    UvmDealloc,
    UvmInit,
    UvmAlloc,
    CopyOut,
    UvmCopy,
    Free,
    UvmFree,
    FreeSharedUserPagetable,
    ProcFreePagetable,
}

// A store that is set up anew, or one of these.
#[derive(Clone, Copy)]
pub enum Call {
    FreshStore,
    Helper(Helper),
    Reading(Reading),
    Writing(Writing),
}

// A number that stands for no call.
#[derive(Clone, Copy)]
pub struct UnknownCall(pub u64);

// By its number in the first column of the list.
impl TryFrom<u64> for Call {
    type Error = UnknownCall;

    fn try_from(number: u64) -> Result<Self, UnknownCall> {
        Ok(match number {
            0 => Call::FreshStore,
            1 => Call::Helper(Helper::PageRoundUp),
            2 => Call::Helper(Helper::VirtualPageNum),
            3 => Call::Helper(Helper::EntryWritePerm),
            4 => Call::Writing(Writing::Uvmcreate),
            5 => Call::Writing(Writing::Map),
            6 => Call::Reading(Reading::PgtTranslate),
            7 => Call::Reading(Reading::AsSatp),
            8 => Call::Writing(Writing::UvmUnmap),
            9 => Call::Writing(Writing::UvmClear),
            10 => Call::Writing(Writing::UvmDealloc),
            11 => Call::Writing(Writing::UvmInit),
            12 => Call::Writing(Writing::UvmAlloc),
            13 => Call::Reading(Reading::CopyIn),
            14 => Call::Writing(Writing::CopyOut),
            15 => Call::Reading(Reading::CopyInStr),
            16 => Call::Writing(Writing::UvmCopy),
            17 => Call::Writing(Writing::Free),
            18 => Call::Writing(Writing::UvmFree),
            19 => Call::Writing(Writing::FreeSharedUserPagetable),
            20 => Call::Writing(Writing::ProcFreePagetable),
            _ => return Err(UnknownCall(number)),
        })
    }
}
