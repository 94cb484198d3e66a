// Sets that are kept as the bits of a word.
ghost use Rattle.labels.specs.BitSets.{members_of, none, every, none_is, every_is, members_below};

use super::{EndpointSet, LAST_ENDPOINT, NONE_MISSING};

// Bit a stands for endpoint a.
#[derive(Clone, Copy)]
pub struct Bits {
    word: u32,
}

impl EndpointSet for Bits {
    ghost members = { members_of };

    ghost EMPTY = { none };

    ghost ALL = { every };

    ghost empty_is = { none_is };

    ghost all_is = { every_is };

    ghost bounded = { members_below };

    const EMPTY: Self = Bits { word: 0 };

    const ALL: Self = Bits { word: 0xffff_ffff };

    fn from_word(word: u32) -> Self {
        Bits { word }
    }

    fn only(endpoint: u32) -> Self {
        if LAST_ENDPOINT < endpoint {
            return Self::EMPTY;
        }
        Bits {
            word: 1 << endpoint,
        }
    }

    fn missing(self, other: Self) -> Option<u32> {
        let lowest = (self.word & !other.word).trailing_zeros();
        if lowest == NONE_MISSING {
            None
        } else {
            Some(lowest)
        }
    }

    fn holds(self, endpoint: u32) -> bool {
        endpoint <= LAST_ENDPOINT && self.word >> endpoint & 1 == 1
    }
}
