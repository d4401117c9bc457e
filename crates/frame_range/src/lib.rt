// Whether what a frame is to carry is in range: every number has its octets.
#![tactic(auto)]

ghost use Rattle.std.specs.Prelude.{◌≡◌, true};
ghost use Rattle.frame.specs.Layout.{listed};
ghost use Rattle.frame_range.specs.Fits.{fits_address, is_individual, fits_grant, fits_all, fits_body, fits_message};

use frame::{Address, Body, Grant, Grants, Message};

pub fn address(a: Address) -> bool
    ensures { result ≡ fits_address a }
{
    a.0 <= Address::LARGEST.0
}

// An own address, a link's, or a source: not zero, and no group's, whose first octet is odd.
pub fn individual(a: Address) -> bool
    ensures { result ≡ is_individual a }
{
    address(a) && 0 < a.0 && (a.0 >> 40) % 2 == 0
}

fn grant(g: Grant) -> bool
    ensures { result ≡ fits_grant g }
{
    g.length.fits()
}

pub fn grants(g: Grants) -> bool
    ensures { result ≡ fits_all true (listed g) }
{
    match g {
        Grants::None => true,
        Grants::One(a) => grant(a),
        Grants::Two(a, b) => grant(a) && grant(b),
        Grants::Three(a, b, c) => grant(a) && grant(b) && grant(c),
        Grants::Four(a, b, c, d) => grant(a) && grant(b) && grant(c) && grant(d),
    }
}

fn body(b: Body) -> bool
    ensures { result ≡ fits_body b }
{
    match b {
        Body::Gate(g) => grants(g),
        Body::Discovery { grant: g, sync } => grant(g) && sync.fits(),
        Body::Report(s) => s.fits(),
        Body::RegisterReq { .. } => true,
        Body::Register { sync, .. } | Body::RegisterAck { sync, .. } => sync.fits(),
    }
}

pub fn message(m: Message) -> bool
    ensures { result ≡ fits_message m }
{
    address(m.destination) && individual(m.source) && body(m.body)
}
