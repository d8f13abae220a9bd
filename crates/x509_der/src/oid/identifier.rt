//! The value of an OBJECT IDENTIFIER.

ghost use Rattle.std.specs.Prelude.{◌≡◌, ◌*◌, ◌≤◌, ℕ, List, true, IfOk, IfErr, IfSome, OnSome, Ok, Err, if◌then◌else◌};
ghost use Rattle.x509_der.specs.Outcome.{Gives};
ghost use Rattle.x509_der.specs.declared.error.ErrorKind.TheVariants.{Failed, Malformed};
ghost use Rattle.x509_der.specs.Arcs.{AreArcs, content_of, dotted};
ghost use Rattle.x509_der.specs.ObjectIdentifier.{are_subidentifiers, arcs_of, first_arc, is_object_identifier};

use crate::oid::content::{ContentOctets, MAX_OCTETS};
use crate::oid::numbers::Numbers;
use crate::{Error, ErrorKind};
use std::fmt;
use std::hash::{Hash, Hasher};
use std::marker::Model;

/// An object identifier (OID), as its content octets (X.690 8.19).
///
/// A literal is checked where it is used: the first `len` octets are the content octets of an OID, and zeros follow
/// them.
#[derive(Clone, Copy, Debug)]
pub struct ObjectIdentifier {
    /// How many content octets there are, at most 39.
    pub len: u8,

    /// The content octets, then zeros.
    pub octets: [u8; 39],
}

/// The object identifier of these content octets (X.690 8.19), as a constant: `oid!(0x55, 0x1D, 15)` is 2.5.29.15.
#[macro_export]
macro_rules! oid {
    (@padded [$($octet:literal)*] [] [$($zero:literal)*]) => {
        [$($octet,)* $($zero),*]
    };
    (@padded [$($octet:literal)*] [$next:literal $($more:literal)*] [$zero:literal $($zeros:literal)*]) => {
        $crate::oid!(@padded [$($octet)* $next] [$($more)*] [$($zeros)*])
    };
    ($($octet:literal),+) => {
        $crate::ObjectIdentifier {
            len: [$($octet),+].len() as u8,
            octets: $crate::oid!(@padded [] [$($octet)+] [0 0 0 0 0 0 0 0 0 0 0 0 0 0 0 0 0 0 0 0 0 0 0 0 0 0 0 0 0 0 0 0 0 0 0 0 0 0 0]),
        }
    };
}

impl Model for ObjectIdentifier {
    ghost use Rattle.std.specs.Prelude.{List, ℕ, ◌-◌, ◌++◌, take, replicate, length};
    ghost use Rattle.x509_der.specs.ObjectIdentifier.{IsStored, front_length, padded};

    ghost Value = { List ℕ };

    ghost view = { λ o. take o.len o.octets };

    ghost invariant = { λ o. IsStored o.len o.octets };

    ghost inverse = { λ v. record { len = length v; octets = v ++ replicate (39 - length v) 0 } };

    ghost inverse_ok = { λ a h i. record {
      len = front_length a.len a.octets h i;
      octets = padded a.len a.octets h i;
    } };
}

// 128 times as much is past the largest subidentifier, 4,294,967,295.
const HIGH_END: u32 = 33_554_432;

// Whether the octets are the content of an object identifier.
#[inline(never)]
fn is_content(octets: &[u8]) -> bool
    ensures { result ≡ is_object_identifier octets.now }
{
    if octets.is_empty() || octets.len() > MAX_OCTETS {
        return false;
    }
    are_subidentifiers(behind_usual(octets))
}

// What stands behind the arcs that most algorithms begin with: 1.2.840.113549 (RFC 8017) or 1.2.840.10045 (RFC 5480); all
// octets where they begin otherwise.
#[inline(always)]
fn behind_usual(octets: &[u8]) -> &[u8]
    ensures { are_subidentifiers 0 true result.now ≡ are_subidentifiers 0 true octets.now }
{
    let [0x2A, 0x86, 0x48, others @ ..] = octets else {
        return octets;
    };
    match others {
        [0x86, 0xF7, 0x0D, others @ ..] => others,
        [0xCE, 0x3D, others @ ..] => others,
        _ => octets,
    }
}

// Whether the octets are whole subidentifiers within the limit.
#[inline(always)]
fn are_subidentifiers(octets: &[u8]) -> bool
    ensures { result ≡ are_subidentifiers 0 true octets.now }
{
    // What the subidentifier at hand has said so far: 0 where one begins, since none begins with the octet 128.
    let mut high: u32 = 0;
    for octet in octets {
        let octet = *octet;
        // Most subidentifiers have one octet, which changes nothing.
        if octet >= 128 || high != 0 {
            if high >= HIGH_END || (high == 0 && octet == 128) {
                return false;
            }
            high = if octet < 128 {
                0
            } else {
                128 * high + (octet - 128) as u32
            };
        }
    }
    high == 0
}

// The first arc that the first subidentifier stands for (X.690 8.19.4).
fn first_arc(subidentifier: u32) -> u32
    ensures value { result ≡ first_arc subidentifier }
    ensures small { 40 * result ≤ subidentifier }
{
    (subidentifier / 40).min(2)
}

impl ObjectIdentifier {
    // The object identifier that has this content, where it is three subidentifiers of one octet each, as most are.
    #[inline(always)]
    fn of_three(content: &[u8]) -> Option<ObjectIdentifier>
        ensures content { OnSome result (is_object_identifier content.now ≡ true) }
        ensures value { IfSome result (λ found. found ≡ content.now) }
    {
        match content {
            [a, b, c] if *a < 128 && *b < 128 && *c < 128 => Some(ObjectIdentifier {
                len: 3,
                octets: [
                    *a, *b, *c, 0, 0, 0, 0, 0, 0, 0, 0, 0, 0, 0, 0, 0, 0, 0, 0, 0, 0, 0, 0, 0, 0,
                    0, 0, 0, 0, 0, 0, 0, 0, 0, 0, 0, 0, 0, 0,
                ],
            }),
            _ => None,
        }
    }

    // The object identifier that has this content.
    #[inline(always)]
    fn from_checked(content: &[u8]) -> ObjectIdentifier
        requires { is_object_identifier content.now ≡ true }
        ensures { result ≡ content.now }
    {
        let mut octets = [0; MAX_OCTETS];
        let (front, _) = octets.split_at_mut(content.len());
        front.copy_from_slice(content);
        ObjectIdentifier {
            len: content.len() as u8,
            octets,
        }
    }

    /// The OID of a dotted text, such as `2.5.4.6`.
    ///
    /// # Errors
    ///
    /// `Failed` exactly where the text is a bad one, which no OID has: it is not two or more arcs of decimal digits
    /// without leading zeros, joined by full stops; the first arc is above 2, or the second above 39 under 0 or 1
    /// (X.690 8.19.4); or the content has a subidentifier above 4,294,967,295 or more than 39 octets.
    pub fn new(text: &str) -> Result<ObjectIdentifier, Error>
        ensures ok { IfOk result (λ v. (arcs : List ℕ) × AreArcs arcs
            × (text.now ≡ dotted arcs) × (v ≡ content_of arcs)) }
        ensures value { (arcs : List ℕ) → AreArcs arcs
            → text.now ≡ dotted arcs → result ≡ Ok (content_of arcs) }
        ensures err { IfErr result (λ e. e.kind ≡ Failed) }
        // What `Display` writes is read as the value that it was written of, and is the text that was read.
        ensures written { (content : List ℕ) → is_object_identifier content ≡ true
            → text.now ≡ dotted (arcs_of content) → result ≡ Ok content }
        ensures writes { IfOk result (λ v. text.now ≡ dotted (arcs_of v)) }
    {
        let Some(arcs) = Numbers::arcs_in(text) else {
            return Err(ErrorKind::Failed.into());
        };
        let Some(content) = ContentOctets::of_arcs(arcs.as_slice()) else {
            return Err(ErrorKind::Failed.into());
        };
        Ok(ObjectIdentifier::from_checked(content.as_slice()))
    }

    /// The OID that has these content octets.
    ///
    /// # Errors
    ///
    /// `Malformed` exactly where no arcs have this content: it is empty, ends within a subidentifier, has one that
    /// begins with the octet 0x80 or is above 4,294,967,295, or is longer than 39 octets (X.690 8.19.2).
    #[inline(always)]
    pub fn from_bytes(content: &[u8]) -> Result<ObjectIdentifier, Error>
        ensures ok { IfOk result (λ v. (arcs : List ℕ) × AreArcs arcs
            × (content.now ≡ content_of arcs) × (v ≡ content.now)) }
        ensures value { (arcs : List ℕ) → AreArcs arcs
            → content.now ≡ content_of arcs → result ≡ Ok content.now }
        ensures err { IfErr result (λ e. e.kind ≡ Malformed) }
        // By the test that a reader runs.
        ensures exact { Gives result
            (if is_object_identifier content.now then Ok content.now else Err Malformed) }
    {
        if let Some(found) = ObjectIdentifier::of_three(content) {
            return Ok(found);
        }
        if is_content(content) {
            Ok(ObjectIdentifier::from_checked(content))
        } else {
            Err(ErrorKind::Malformed.into())
        }
    }

    /// The content octets.
    pub fn as_bytes(&self) -> &[u8]
        ensures octets { result.now ≡ self.now }
        ensures content { is_object_identifier self.now ≡ true }
    {
        &self.octets[..self.len as usize]
    }
}

impl PartialEq for ObjectIdentifier {
    ghost use Rattle.std.specs.Prelude.{nat_eq};
    ghost use Rattle.std.specs.Cmp.{partial_equiv_from_equiv};
    ghost use Rattle.std.specs.Cmp.Lexicographic.{pointwise, nat_list_eq_equiv};

    ghost eq = { pointwise nat_eq };

    ghost laws = { partial_equiv_from_equiv nat_list_eq_equiv };

    fn eq(&self, other: &ObjectIdentifier) -> bool {
        self.as_bytes() == other.as_bytes()
    }
}

impl Eq for ObjectIdentifier {
    ghost use Rattle.std.specs.Cmp.Lexicographic.{nat_list_eq_equiv};

    ghost laws = { nat_list_eq_equiv };
}

impl Hash for ObjectIdentifier {
    ghost use Rattle.std.specs.Hash as fed;
    ghost use Rattle.std.specs.Cmp.Lexicographic.{bytes_decides};

    ghost hash_input = { fed.slice fed.u8 };

    ghost respects_eq = { (fed.same_Alike (fed.slice fed.u8) bytes_decides).fed };

    fn hash<H: Hasher>(&self, state: &mut H) {
        self.as_bytes().hash(state);
    }
}

impl fmt::Display for ObjectIdentifier {
    ghost use Rattle.std.specs.Prelude.{Some};
    ghost use Rattle.x509_der.specs.Arcs.{dotted};
    ghost use Rattle.x509_der.specs.ObjectIdentifier.{arcs_of};

    ghost output = { λ o. Some (dotted (arcs_of o)) };

    fn fmt<W: fmt::Write>(&self, f: &mut fmt::Formatter<W>) -> fmt::Result {
        let subidentifiers = Numbers::subidentifiers_in(self.as_bytes());
        let numbers = subidentifiers.as_slice();
        let root = first_arc(numbers[0]);
        let second = numbers[0] - 40 * root;
        write!(f, "{root}.{second}")?;
        let others = &numbers[1..];
        for arc in others {
            write!(f, ".{arc}")?;
        }
        Ok(())
    }
}
