//! The validity of a certificate.

ghost use Rattle.std.specs.Prelude.{IsTrue, ◌≡◌, ◌↔◌, ◌+◌, ◌/◌, ◌≤◌, IsOk, IfOk, IfErr, Ok};
ghost use Rattle.std.specs.Duration.{as_nanos};
ghost use Rattle.x509_base.specs.CivilTime.{last_date_time, unix_seconds, whole_seconds};
ghost use Rattle.x509_base.specs.Time.{date_time_of, IsTimeAt};
ghost use Rattle.x509_base.specs.declared.time.Time.TheVariants.{GeneralTime};
ghost use Rattle.x509_der.specs.declared.error.ErrorKind.TheVariants.{Memory, Value};

use crate::DateTime;
use crate::profile::{Profile, Rfc5280};
use crate::time::Time;
use std::alloc::Global;
use std::cmp::Ordering;
use std::marker::PhantomData;
use std::time::Duration;
use x509_der::{
    CmpPart, Content, EncodingOrd, Error, ErrorKind, PutPart, Room, SetMember, SetOrd, Spelled,
    Tag, TryClone, ValueOrd, both, end, read_field,
};

/// The validity of a certificate: the two dates between which it is valid, both included (RFC 5280 4.1.2.5). They are
/// encoded as the profile says.
///
/// ```text
/// Validity ::= SEQUENCE {
///     notBefore  Time,
///     notAfter   Time }
/// ```
#[derive(Clone, Copy, Debug, PartialEq, Eq)]
pub struct Validity<P: Profile = Rfc5280> {
    /// The first moment of the validity.
    pub not_before: Time,

    /// The last moment of the validity.
    pub not_after: Time,

    profile: PhantomData<P>,
}

impl<P: Profile> Validity<P> {
    /// From the one date to the other, encoded as UTCTime or GeneralizedTime as they are.
    pub fn new(not_before: Time, not_after: Time) -> Validity<P>
        ensures before { result.not_before ≡ not_before }
        ensures after { result.not_after ≡ not_after }
    {
        Validity {
            not_before,
            not_after,
            profile: PhantomData,
        }
    }

    /// Whether the date-time lies between the two dates, both included (RFC 5280 4.1.2.5), however they are encoded.
    pub fn contains(&self, at: DateTime) -> bool
        ensures { IsTrue result ↔ ((unix_seconds (date_time_of self.now.not_before) ≤ unix_seconds at)
            × (unix_seconds at ≤ unix_seconds (date_time_of self.now.not_after))) }
    {
        let first = self.not_before.to_date_time().unix_seconds();
        let last = self.not_after.to_date_time().unix_seconds();
        let at = at.unix_seconds();
        first <= at && at <= last
    }

    /// From `now` on, for some time. `now` is the time since 1970-01-01T00:00:00Z. Fractions of a second are dropped
    /// from `now`, and from the sum of the two. Dates through 2049 are UTCTimes.
    ///
    /// # Errors
    ///
    /// `Value` exactly where the sum is after 9999-12-31T23:59:59Z.
    #[tactic(auto, using(crate::proofs::Dates::last_second))]
    pub fn from_now(now: Duration, lasting: Duration) -> Result<Validity<P>, Error>
        ensures succeeds { IsOk result ↔ ((as_nanos now + as_nanos lasting) / 1_000_000_000 ≤ unix_seconds last_date_time) }
        ensures before { IfOk result (λ validity. IsTimeAt (whole_seconds now) validity.not_before) }
        ensures after { IfOk result (λ validity. IsTimeAt ((as_nanos now + as_nanos lasting) / 1_000_000_000) validity.not_after) }
        ensures refused { IfErr result (λ e. e.kind ≡ Value) }
    {
        let Some(until) = now.checked_add(lasting) else {
            return Err(ErrorKind::Value.into());
        };
        let not_before = time_after(now)?;
        let not_after = time_after(until)?;
        Ok(Validity::new(not_before, not_after))
    }

    /// From `now` on, without expiry: until 9999-12-31T23:59:59Z (RFC 5280 4.1.2.5). `now` is the time since
    /// 1970-01-01T00:00:00Z, of which a fraction of a second is dropped.
    ///
    /// # Errors
    ///
    /// `Value` exactly where `now` is after 9999-12-31T23:59:59Z.
    pub fn infinity(now: Duration) -> Result<Validity<P>, Error>
        ensures succeeds { IsOk result ↔ (whole_seconds now ≤ unix_seconds last_date_time) }
        ensures before { IfOk result (λ validity. IsTimeAt (whole_seconds now) validity.not_before) }
        ensures after { IfOk result (λ validity. validity.not_after ≡ GeneralTime last_date_time) }
        ensures refused { IfErr result (λ e. e.kind ≡ Value) }
    {
        Ok(Validity::new(time_after(now)?, Time::INFINITY))
    }
}

// The time that long after 1970-01-01T00:00:00Z, without a fraction of a second; as UTCTime through 2049.
fn time_after(duration: Duration) -> Result<Time, Error>
    ensures succeeds { IsOk result ↔ (whole_seconds duration ≤ unix_seconds last_date_time) }
    ensures at { IfOk result (λ time. IsTimeAt (whole_seconds duration) time) }
    ensures refused { IfErr result (λ e. e.kind ≡ Value) }
{
    Ok(Time::from(DateTime::from_unix_duration(duration)?))
}

impl<P: Profile> TryClone for Validity<P> {
    fn try_clone(&self, _alloc: Global) -> Result<Validity<P>, Error>
        ensures ok { IfOk result (λ copy. copy ≡ self.now) }
        ensures err { IfErr result (λ e. e.kind ≡ Memory) }
        ensures value { result ≡ Ok self.now }
    {
        Ok(*self)
    }
}

#[tactic(auto, unfolding(crate::specs::Validity::validity_fields, x509_der::specs::Frames::fields_reading, x509_der::specs::Frames::fields_octets))]
impl<P: Profile> Content for Validity<P> {
    ghost use Rattle.x509_der.specs.declared.tag.Tag.TheVariants.{Sequence};
    ghost use Rattle.x509_der.specs.Writing.{respelling};
    ghost use Rattle.x509_base.specs.Validity as grammar;

    ghost contents = { grammar.validity_contents };

    ghost takes_memory = { ⊥ };

    ghost written_as = { respelling (grammar.respelled_validity P.time_of) };

    ghost IDENTIFIER = { Sequence };

    const IDENTIFIER: Tag = Tag::Sequence;

    fn read_content(alloc: Global, octets: &[u8]) -> Result<Validity<P>, Error> {
        let mut rest = octets;
        let not_before = read_field::<Time>(alloc, &mut rest)?;
        let not_after = read_field::<Time>(alloc, &mut rest)?;
        end(rest)?;
        Ok(Validity::new(not_before, not_after))
    }

    fn write_content<R: Room>(&self, room: &mut R) -> Result<(), Error> {
        let not_before = P::time_encoding(self.not_before)?;
        let not_after = P::time_encoding(self.not_after)?;
        let parts = (&not_before, &not_after);
        parts.put_part(room)
    }

    ghost contents_lawful = { grammar.validity_contents_lawful };
}

impl<P: Profile> ValueOrd for Validity<P> {
    ghost use Rattle.x509_der.specs.Writing.{respelling};
    ghost use Rattle.x509_base.specs.Validity as grammar;

    ghost order = { grammar.validity_order };

    fn value_cmp(&self, other: &Validity<P>) -> Ordering {
        let parts = (
            both(&self.not_before, &other.not_before),
            both(&self.not_after, &other.not_after),
        );
        parts.cmp_part(None, None)
    }

    ghost ordered = { grammar.validity_ordered (respelling (grammar.respelled_validity P.time_of)) };
}

impl<P: Profile> SetOrd for Validity<P> {
    ghost set_order = { ⟦<Validity<P> as EncodingOrd>⟧.encoding_order };
}

impl<P: Profile> SetMember for Validity<P> {
    ghost use Rattle.std.specs.Prelude.{refl};

    ghost in_der_order = { refl };
}

#[tactic(auto, unfolding(crate::specs::Validity::validity_fields, x509_der::specs::Frames::fields_good))]
impl<P: Profile> Spelled for Validity<P> {
    fn has_spelling(&self) {
        self.not_before.has_spelling();
        self.not_after.has_spelling();
    }
}
