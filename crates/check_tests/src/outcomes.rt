// What becomes of the device of an image that is recovered.
use pmem_lines::{Pmem, SimPmem};
use pool_layout::Defect;

/// What became of an image.
#[derive(Clone, Copy, Debug, PartialEq, Eq)]
pub enum Became {
    /// It is exact: these are its words, and so many events made it so.
    Wanted { events: u32 },
    /// It has other words.
    Other,
    /// It was refused for this defect, and the device is as it was.
    Refused(Defect),
    /// It was refused, and the device is not as it was.
    Changed,
}

/// A device was made exact: whether it has the words that are wanted.
pub fn recovered_to(device: &SimPmem, wanted: &[u64]) -> Became {
    if device.words(0, device.size_words()) == wanted {
        Became::Wanted {
            events: device.event_count(),
        }
    } else {
        Became::Other
    }
}

/// A device was refused for this defect: whether it has the words from before, and no event.
pub fn was_refused(device: &SimPmem, before: &[u64], defect: Defect) -> Became {
    if device.words(0, device.size_words()) == before && device.event_count() == 0 {
        Became::Refused(defect)
    } else {
        Became::Changed
    }
}
