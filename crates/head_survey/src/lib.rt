// One pass over the lent table that changes nothing: whether it is sound, and what a call asks of it.
#![tactic(auto)]

ghost use Rattle.std.specs.Prelude.{◌≡◌};
ghost use Rattle.std.specs.List.{list_any};
ghost use Rattle.head_survey.specs.Facts.{is_few, holds, facts_of};
ghost use Rattle.head_survey.specs.Pass.{begun, place_of, sought_of, mark_of, seen_of};

use clock::Timer;
use frame::Address;
use head_links::Link;

// What a call asks of the table: the link of that number, and whether a link holds that address.
#[derive(Clone, Copy)]
pub struct Look {
    pub link: usize,
    pub address: Address,
}

// What the pass finds: whether the table is sound, whether the address is held, the lowest idle link or 0, the link asked for, and how many ticks come before the one at which a link rings.
#[derive(Clone, Copy)]
pub struct Facts {
    pub sound: bool,
    pub held: bool,
    pub idle: usize,
    pub link: Link,
    pub quiet: u32,
}

// A table has 1 to 64 links.
#[tactic(auto, unfolding(crate::specs::Facts::is_few))]
pub fn is_few(n: usize) -> bool
    ensures { result ≡ is_few n }
{
    1 <= n && n <= Link::MOST
}

fn begin(n: usize) -> Facts
    ensures { result ≡ begun n }
{
    Facts {
        sound: is_few(n),
        held: false,
        idle: 0,
        link: Link::idle(),
        quiet: Timer::FURTHEST_ADVANCE,
    }
}

#[tactic(auto, unfolding(crate::specs::Facts::holds))]
fn holds(l: Link, address: Address) -> bool
    ensures { result ≡ holds address l }
{
    l.is_held() & (l.address == address)
}

// One of these links holds the address.
fn any_holds(links: &[Link], address: Address) -> bool
    ensures { result ≡ list_any (holds address) links.now }
{
    links.iter().any(|l| holds(*l, address))
}

// A prime: addresses at equal distances, as boxes of one building often have, stand at places of their own unless it divides the distance.
const PLACES: usize = 251;

// Where the mark of its address stands.
#[tactic(auto, unfolding(crate::specs::Pass::place_of))]
fn place(l: Link) -> usize
    ensures { result ≡ place_of l.address }
{
    l.address.0 as usize % PLACES
}

// Whether one of the links before it holds its address, too: they are searched only where a mark stands at its place. A held link leaves a mark there.
#[tactic(auto, using(crate::proofs::Marks::place_lt), unfolding(crate::specs::Pass::sought_of, crate::specs::Pass::is_marked, crate::specs::Pass::mark_of))]
fn is_twice(marks: &mut [bool; PLACES], before: &[Link], l: Link) -> bool
    ensures { (result ≡ sought_of marks.old before.now l) × (marks.new ≡ mark_of l marks.old) }
{
    if !l.is_held() {
        return false;
    }
    let k = place(l);
    let met = marks[k];
    marks[k] = true;
    met && any_holds(before, l.address)
}

impl Facts {
    // The link of that number is seen, too; twice: its address is held before.
    #[tactic(auto, unfolding(crate::specs::Pass::idle_still, crate::specs::Pass::link_still))]
    fn seen(self, l: Link, number: usize, twice: bool, look: Look) -> Facts
        ensures { result ≡ seen_of self l number twice look }
    {
        let mut f = self;
        f.sound = self.sound & l.sound() & !twice;
        f.held = self.held | holds(l, look.address);
        f.quiet = self.quiet.min(l.quiet());
        if self.idle == 0 && !l.is_held() {
            f.idle = number;
        }
        if number == look.link {
            f.link = l;
        }
        f
    }
}

// A table of no allowed size is not gone through.
pub fn survey(links: &[Link], look: Look) -> Facts
    ensures { result ≡ facts_of links.now look }
{
    let mut f = begin(links.len());
    if !f.sound {
        return f;
    }
    let mut marks = [false; PLACES];
    for (i, l) in links.iter().enumerate() {
        let twice = is_twice(&mut marks, &links[..i], *l);
        f = f.seen(*l, i + 1, twice, look);
    }
    f
}
