// What every set of the endpoints 0 to 31 promises, however it is kept. Document 01 calls an endpoint a mark.
ghost use Rattle.std.specs.Prelude.{◌≡◌, ◌<◌, ℕ, Bool, true};
ghost use Rattle.labels.specs.Membership.{Tells, endpoints, subset, lowest_missing};
ghost use Rattle.labels.specs.Sets.{holds, only, empty, all};

pub trait EndpointSet: Copy {
    // Which endpoints are in it.
    ghost members: { Self → ℕ → Bool };

    ghost EMPTY: { Self };

    ghost ALL: { Self };

    const EMPTY: Self;

    const ALL: Self;

    // The set of a word: bit a stands for endpoint a.
    fn from_word(word: u32) -> Self
        ensures { members result ≡ holds word };

    // The set of `endpoint` alone; empty where it is above 31.
    fn only(endpoint: u32) -> Self
        ensures { members result ≡ holds (only endpoint) };

    // The lowest endpoint of this set that is missing in `other`; none where this set is within it.
    fn missing(self, other: Self) -> Option<u32>
        ensures { Tells result (lowest_missing (members self) (members other)) };

    // Whether each endpoint of this set is in `other`.
    final fn within(self, other: Self) -> bool
        ensures { result ≡ subset (members self) (members other) }
    {
        self.missing(other).is_none()
    }

    // Whether `endpoint` is in this set. For C alone: the crates above ask what of an endpoint's own set is missing in another.
    fn holds(self, endpoint: u32) -> bool
        ensures { result ≡ members self endpoint };

    ghost empty_is: { members EMPTY ≡ holds empty };

    ghost all_is: { members ALL ≡ holds all };

    // A number above 31 is in no set.
    ghost bounded: { (s : Self) (a : ℕ) → members s a ≡ true → a < endpoints };
}
