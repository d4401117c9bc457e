// The list of grants that a box holds: at most sixteen, in order of arrival.
#![tactic(auto)]

ghost use Rattle.std.specs.Prelude.{◌≡◌, false, [], min, get_or};
ghost use Rattle.clock.specs.Spans.{none};
ghost use Rattle.box_grants.specs.Activation.{room, holds, ahead, nearest, remove};
ghost use Rattle.box_grants.specs.Listed.{list_of, packed, pushed, choose_of};
ghost use Rattle.box_grants.specs.Sifting.{kept, sifted};
ghost use Rattle.box_grants.specs.Walk.{leaves, sift};
ghost use Rattle.box_grants.specs.Sound.{sound_of};

use clock::{Count, Span};

#[derive(Clone, Copy)]
pub struct GrantList {
    pub entries: [Span; 16],
    pub number: usize,
}

// A list without the grants that are past or too short, and the grant to wait for, if there is one.
#[derive(Clone, Copy)]
pub struct Choice {
    pub list: GrantList,
    pub chosen: Option<Span>,
}

// A list on its way without an entry, and whether the entry was met.
#[derive(Clone, Copy)]
struct Sieve {
    list: GrantList,
    met: bool,
}

impl Sieve {
    fn sift(self, out: Span, e: Span) -> Sieve
        ensures { result ≡ sifted out self e }
    {
        if self.met {
            return Sieve {
                list: self.list.push(e),
                met: true,
            };
        }
        if out == e {
            return Sieve { met: true, ..self };
        }
        Sieve {
            list: self.list.push(e),
            met: false,
        }
    }
}

// Which grants leave a list: those whose start is past, seen from a count, or the earliest that is equal to an entry.
#[derive(Clone, Copy)]
enum Leaving {
    Past(Count),
    Equal(Span),
}

impl Leaving {
    // Whether an entry leaves, behind others of which one has left or none.
    fn takes(self, gone: bool, e: Span) -> bool
        ensures { result ≡ leaves self gone e }
    {
        match self {
            Leaving::Past(now) => now.is_past(e.start),
            Leaving::Equal(entry) => !gone & (entry == e),
        }
    }
}

impl GrantList {
    pub const ROOM: usize = 16;

    // What the box says of its list when it asks to register.
    pub const PENDING: u8 = GrantList::ROOM as u8;

    pub fn empty() -> GrantList
        ensures { result ≡ packed [] }
    {
        GrantList {
            entries: [Span::none(); 16],
            number: 0,
        }
    }

    // How many are held: the number, at most sixteen.
    fn held(self) -> usize
        ensures { result ≡ min self.number room }
    {
        self.number.min(GrantList::ROOM)
    }

    // One entry more, at the end, if there is room.
    #[tactic(auto, unfolding(crate::specs::Listed::pushed))]
    pub fn push(mut self, e: Span) -> GrantList
        ensures { result ≡ pushed self e }
    {
        if self.number < GrantList::ROOM {
            self.entries[self.number] = e;
            self.number += 1;
        }
        self
    }

    pub fn holds(self, e: Span) -> bool
        ensures { result ≡ holds e (list_of self) }
    {
        self.entries[..self.held()].contains(&e)
    }

    // At most sixteen, and each of them as a frame can tell it.
    pub fn sound(self) -> bool
        ensures { result ≡ sound_of self }
    {
        self.number <= GrantList::ROOM
            && self.entries[..self.held()].iter().all(|e| e.length.fits())
    }

    // One entry more, unless its start is past.
    fn keep(self, now: Count, e: Span) -> GrantList
        ensures { result ≡ kept now.0 self e }
    {
        if now.is_past(e.start) {
            return self;
        }
        self.push(e)
    }

    // What stays, in its order: one walk, into one array.
    fn sift(self, leaving: Leaving) -> GrantList
        ensures { result ≡ packed (sift leaving false (list_of self)) }
    {
        let mut stay = [Span::none(); 16];
        let mut k = 0;
        for (i, &e) in self.entries[..self.held()].iter().enumerate() {
            // Where one has left, fewer were stored than read.
            if !leaving.takes(k < i, e) {
                stay[k] = e;
                k += 1;
            }
        }
        GrantList {
            entries: stay,
            number: k,
        }
    }

    // The grants whose start is not past, in their order.
    fn ahead(self, now: Count) -> GrantList
        ensures { result ≡ packed (ahead now.0 (list_of self)) }
    {
        self.sift(Leaving::Past(now))
    }

    // The smallest distance, earliest arrival first.
    fn nearest(self, now: Count) -> Span
        ensures { result ≡ nearest now.0 (get_or self.entries 0 none) (list_of self) }
    {
        let held = &self.entries[..self.held()];
        held.iter()
            .fold(self.entries[0], |best, &e| best.nearer(now, e))
    }

    // The list without the earliest that is equal to `out`.
    pub fn without(self, out: Span) -> GrantList
        ensures { result ≡ packed (remove out (list_of self)) }
    {
        self.sift(Leaving::Equal(out))
    }

    // Without the past ones, and without the too short ones that would come first: the grant to wait for.
    pub fn choose(self, now: Count, need: u64) -> Choice
        ensures { result ≡ choose_of now.0 need self }
    {
        let mut list = self.ahead(now);
        while 0 < list.number {
            let e = list.nearest(now);
            if need <= u64::from(e.length.0) {
                return Choice {
                    list,
                    chosen: Some(e),
                };
            }
            list = list.without(e);
        }
        Choice { list, chosen: None }
    }
}
