//! What a text says.
ghost use Rattle.std.specs.Prelude.{◌≡◌, ◌≤◌, Some};
ghost use Rattle.ingress_rep.specs.Ingress.{request_of, IsSpelledSelective};

use bgp_messages::bgp_update::Advert;
use ingress_rep::Request;
use mv_base::{Bytes, Seq};
use std::marker::Model;

/// The route of the root, and what it asks.
#[derive(Drop)]
pub struct Root {
    request: Request,
    advert: Advert,
}

impl Model for Root {
    ghost use Rattle.std.specs.Prelude.{◌≡◌, Some};
    ghost use Rattle.ingress_rep.specs.Ingress.{request_of, IsSpelledSelective};
    ghost use Rattle.ingress_text.specs.Rooted.{Rooted};

    ghost Value = { Rooted };

    ghost view = { λ r. record { request = r.request; advert = r.advert } };

    ghost invariant = { λ r. (request_of r.advert ≡ Some r.request) × IsSpelledSelective r.advert.key };
}

impl Root {
    /// The root that asks so by its route, which has a spelling.
    pub(crate) fn of(request: Request, advert: Advert) -> Root
        requires asks { request_of advert ≡ Some request }
        requires spelled { IsSpelledSelective advert.key }
        ensures { result ≡ record { request = request; advert = advert } }
    {
        Root { request, advert }
    }

    /// What is asked.
    pub fn request(&self) -> &Request
        ensures { result.now ≡ self.now.request }
    {
        &self.request
    }

    /// The route.
    pub fn advert(&self) -> &Advert
        ensures advert { result.now ≡ self.now.advert }
        ensures asks { request_of self.now.advert ≡ Some self.now.request }
        ensures spelled { IsSpelledSelective self.now.advert.key }
    {
        &self.advert
    }
}

/// A label that is not reserved: 16 to 1,048,575 (RFC 3032 section 2.1).
#[derive(Drop)]
pub struct Label {
    number: u32,
}

impl Model for Label {
    ghost use Rattle.std.specs.Prelude.{ℕ, ◌≤◌};

    ghost Value = { ℕ };

    ghost view = { λ l. l.number };

    ghost invariant = { λ l. (16 ≤ l.number) × (l.number ≤ 1048575) };
}

impl Label {
    pub(crate) fn of(number: u32) -> Label
        requires least { 16 ≤ number }
        requires most { number ≤ 1048575 }
        ensures { result ≡ number }
    {
        Label { number }
    }

    pub fn number(&self) -> u32
        ensures number { result ≡ self.now }
        ensures least { 16 ≤ self.now }
        ensures most { self.now ≤ 1048575 }
    {
        self.number
    }
}

/// What a line after that of the root says, with an address of IPv4.
#[derive(Drop)]
pub enum Said {
    /// The leaf answers under the label.
    Leaf { leaf: [u8; 4], label: Label },
    /// Octets come from the peer.
    From { peer: [u8; 4], octets: Bytes },
}

/// A line by its number, counted from 1.
#[derive(Drop)]
pub struct Line {
    pub number: u32,
    pub said: Said,
}

/// What a whole text says.
#[derive(Drop)]
pub struct Input {
    pub root: Root,
    pub lines: Seq<Line>,
}

/// What a peer does: it answers, or its octets come in.
#[derive(Clone, Copy, PartialEq, Eq)]
pub enum Role {
    Leaf,
    From,
}

/// What a line says: nothing, the route of the root, or something after it.
#[derive(Drop)]
pub enum Step {
    Blank,
    Root(Root),
    Said(Said),
}
