// What a gate request asks for: a number of grants, the first four of them, and force bits as an octet.
#![tactic(auto)]

ghost use Rattle.std.specs.Prelude.{◌≡◌, ◌≤◌};
ghost use Rattle.head_gating.specs.Asked.{bit_of, grant_of, grants_of, allowed, fits};

use clock::Span;
use frame::{Grant, Grants};

// Of more than four grants only the first four are handed in; those beyond the number asked for are not judged.
#[derive(Clone, Copy)]
pub struct Asked {
    pub number: usize,
    pub first: Span,
    pub second: Span,
    pub third: Span,
    pub fourth: Span,
    pub force: u8,
}

impl Asked {
    // A GATE carries so many.
    pub const MOST: usize = 4;

    // The force bits that this number of grants has are below this.
    #[tactic(auto, unfolding(crate::specs::Asked::allowed))]
    fn allowed(self) -> u8
        ensures { result ≡ allowed self.number }
    {
        match self.number {
            0 => 1,
            1 => 2,
            2 => 4,
            3 => 8,
            _ => 16,
        }
    }

    // A grant with the force bit of that worth.
    fn granted(self, span: Span, worth: u8) -> Grant
        requires { 1 ≤ worth }
        ensures { result ≡ grant_of span (bit_of self.force worth) }
    {
        Grant {
            start: span.start,
            length: span.length,
            force: self.force / worth % 2 == 1,
        }
    }

    // As many of them as are asked for, each with its force bit.
    #[tactic(auto, unfolding(crate::specs::Asked::grants_of))]
    pub fn grants(self) -> Grants
        ensures { result ≡ grants_of self }
    {
        let a = self.granted(self.first, 1);
        let b = self.granted(self.second, 2);
        let c = self.granted(self.third, 4);
        let d = self.granted(self.fourth, 8);
        match self.number {
            0 => Grants::None,
            1 => Grants::One(a),
            2 => Grants::Two(a, b),
            3 => Grants::Three(a, b, c),
            _ => Grants::Four(a, b, c, d),
        }
    }

    // No force bit for an absent grant, and every length in its sixteen bits.
    #[tactic(auto, unfolding(crate::specs::Asked::fits))]
    pub fn fits(self) -> bool
        ensures { result ≡ fits self }
    {
        self.force < self.allowed() && frame_range::grants(self.grants())
    }
}
