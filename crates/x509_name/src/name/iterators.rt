//! The iterators over names, sequences of RDNs and RDNs.

ghost use Rattle.std.specs.Prelude.{◌≡◌};
ghost use Rattle.std.specs.Iterator.{YieldsFirstRef, YieldsLastRef, item_count};
ghost use Rattle.x509_name.specs.Iterators.{attributes_left, members_of, rdn_left, rdns_left};

use crate::attr::AttributeTypeAndValue;
use crate::name::rdn::RelativeDistinguishedName;

/// An iterator over the attributes of a name, RDN after RDN.
#[derive(Clone, Copy, Debug)]
pub struct NameIter<'a> {
    front: &'a [AttributeTypeAndValue],
    rest: &'a [RelativeDistinguishedName],
}

impl<'a> NameIter<'a> {
    pub(crate) fn new(rdns: &'a [RelativeDistinguishedName]) -> NameIter<'a>
        ensures { attributes_left result ≡ members_of rdns.now }
    {
        NameIter {
            front: &[],
            rest: rdns,
        }
    }
}

impl<'a> Iterator for NameIter<'a> {
    type Item = &'a AttributeTypeAndValue;

    ghost next_gives = { YieldsFirstRef attributes_left };

    ghost remaining = { item_count attributes_left };

    fn next(&mut self) -> Option<&'a AttributeTypeAndValue> {
        while self.front.is_empty() {
            let (rdn, rest) = self.rest.split_first()?;
            self.front = rdn.as_slice();
            self.rest = rest;
        }
        let (first, others) = self.front.split_first()?;
        self.front = others;
        Some(first)
    }
}

/// An iterator over the attributes of an RDN, in their order, from both ends.
#[derive(Clone, Copy, Debug)]
pub struct RdnIter<'a> {
    attributes: &'a [AttributeTypeAndValue],
}

impl<'a> RdnIter<'a> {
    pub(crate) fn new(attributes: &'a [AttributeTypeAndValue]) -> RdnIter<'a>
        ensures { rdn_left result ≡ attributes.now }
    {
        RdnIter { attributes }
    }
}

impl<'a> Iterator for RdnIter<'a> {
    type Item = &'a AttributeTypeAndValue;

    ghost next_gives = { YieldsFirstRef rdn_left };

    ghost remaining = { item_count rdn_left };

    fn next(&mut self) -> Option<&'a AttributeTypeAndValue> {
        let (first, others) = self.attributes.split_first()?;
        self.attributes = others;
        Some(first)
    }

    fn size_hint(&self) -> (usize, Option<usize>) {
        (self.attributes.len(), Some(self.attributes.len()))
    }
}

impl<'a> DoubleEndedIterator for RdnIter<'a> {
    ghost next_back_gives = { YieldsLastRef rdn_left };

    fn next_back(&mut self) -> Option<&'a AttributeTypeAndValue> {
        let (last, others) = self.attributes.split_last()?;
        self.attributes = others;
        Some(last)
    }
}

impl ExactSizeIterator for RdnIter<'_> {
    fn len(&self) -> usize {
        self.attributes.len()
    }
}

/// An iterator over the RDNs of a sequence, in their order, from both ends.
#[derive(Clone, Copy, Debug)]
pub struct RdnSequenceIter<'a> {
    rdns: &'a [RelativeDistinguishedName],
}

impl<'a> RdnSequenceIter<'a> {
    pub(crate) fn new(rdns: &'a [RelativeDistinguishedName]) -> RdnSequenceIter<'a>
        ensures { rdns_left result ≡ rdns.now }
    {
        RdnSequenceIter { rdns }
    }
}

impl<'a> Iterator for RdnSequenceIter<'a> {
    type Item = &'a RelativeDistinguishedName;

    ghost next_gives = { YieldsFirstRef rdns_left };

    ghost remaining = { item_count rdns_left };

    fn next(&mut self) -> Option<&'a RelativeDistinguishedName> {
        let (first, others) = self.rdns.split_first()?;
        self.rdns = others;
        Some(first)
    }

    fn size_hint(&self) -> (usize, Option<usize>) {
        (self.rdns.len(), Some(self.rdns.len()))
    }
}

impl<'a> DoubleEndedIterator for RdnSequenceIter<'a> {
    ghost next_back_gives = { YieldsLastRef rdns_left };

    fn next_back(&mut self) -> Option<&'a RelativeDistinguishedName> {
        let (last, others) = self.rdns.split_last()?;
        self.rdns = others;
        Some(last)
    }
}

impl ExactSizeIterator for RdnSequenceIter<'_> {
    fn len(&self) -> usize {
        self.rdns.len()
    }
}
