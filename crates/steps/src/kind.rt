// A step: what ties two points of a ledger, known by the element of a group that it means.
ghost use Rattle.std.specs.Prelude.{◌≡◌};
ghost use Rattle.steps.specs.Kind.{Kind, Lawful, Commutes, Composed, Decides};

// The sizes of two steps that compose add up to no more than this.
pub const SIZE_LIMIT: u32 = 67108864;

pub trait Step: Sized + Drop {
    // the group, the sizes of its elements, and the largest size of a single tie
    ghost kind: { Kind };

    // the element that a step means
    ghost meaning: { Self → kind.Element };

    fn unit() -> Self
        ensures { kind.same (meaning result) kind.one };

    // The step of both, `other` first; none where their sizes add up to more than the limit.
    fn compose(&self, other: &Self) -> Option<Self>
        ensures { Composed kind meaning (meaning self.now) (meaning other.now) result };

    fn inverse(&self) -> Self
        ensures { kind.same (meaning result) (kind.inv (meaning self.now)) };

    // Whether both mean the same, which `==` need not say of every kind.
    fn equals(&self, other: &Self) -> bool
        ensures { Decides result (kind.same (meaning self.now) (meaning other.now)) };

    fn size(&self) -> u32
        ensures { result ≡ kind.size (meaning self.now) };

    // The largest size of a single tie.
    fn largest() -> u32
        ensures { result ≡ kind.most };

    ghost lawful: { Lawful kind };

    // a law of its own: nothing that is proved of ledgers rests on it
    ghost commutes: { Commutes kind };
}
