//! Constraints on the certification paths from a trust anchor.

ghost use Rattle.x509_cert.specs.CertPathControls as grammar;
ghost use Rattle.x509_der.specs.Outcome.{GivesBefore};

use crate::anchor::cert_policies::CertPolicyFlags;
use crate::certificate::CertificateInner;
use std::alloc::Global;
use x509_base::{Profile, Rfc5280};
use x509_der::{
    Content, Encode, Error, PutPart, Room, Spelled, Tag, TryClone, end, option_has_spelling,
    optional_implicit, read_field, read_optional_implicit,
};
use x509_ext::pkix::{CertificatePolicies, NameConstraints};
use x509_name::name::Name;

/// Constraints on the certification paths from a trust anchor (RFC 5914 2.5). That the certificate has the name and the
/// key of the anchor, as RFC 5914 wants it, isn't checked.
///
/// ```text
/// CertPathControls ::= SEQUENCE {
///     taName             Name,
///     certificate        [0] IMPLICIT Certificate OPTIONAL,
///     policySet          [1] IMPLICIT CertificatePolicies OPTIONAL,
///     policyFlags        [2] IMPLICIT CertPolicyFlags OPTIONAL,
///     nameConstr         [3] IMPLICIT NameConstraints OPTIONAL,
///     pathLenConstraint  [4] IMPLICIT INTEGER (0..4294967295) OPTIONAL }
/// ```
#[derive(Debug, PartialEq, Eq)]
pub struct CertPathControls<P: Profile = Rfc5280> {
    /// The name of the anchor.
    pub ta_name: Name,

    /// A certificate of the anchor.
    pub certificate: Option<CertificateInner<P>>,

    /// The policies for which a path may be valid; any where absent.
    pub policy_set: Option<CertificatePolicies>,

    /// Flags about policies; none is set where absent.
    pub policy_flags: Option<CertPolicyFlags>,

    /// The names that certificates of a path may have; any where absent.
    pub name_constr: Option<NameConstraints>,

    /// How many intermediate certificates may follow in a path; any number where absent.
    pub path_len_constraint: Option<u32>,
}

impl<P: Profile> Drop for CertPathControls<P> {
    fn drop(self) {
        let CertPathControls {
            ta_name: _,
            certificate: _,
            policy_set: _,
            policy_flags: _,
            name_constr: _,
            path_len_constraint: _,
        } = self;
    }
}

impl<P: Profile> TryClone for CertPathControls<P> {
    fn try_clone(&self, alloc: Global) -> Result<CertPathControls<P>, Error> {
        Ok(CertPathControls {
            ta_name: self.ta_name.try_clone(alloc)?,
            certificate: self.certificate.try_clone(alloc)?,
            policy_set: self.policy_set.try_clone(alloc)?,
            policy_flags: self.policy_flags,
            name_constr: self.name_constr.try_clone(alloc)?,
            path_len_constraint: self.path_len_constraint,
        })
    }
}

/// The fields up to the policies. Each half of the fields is read by itself, as in [`TbsCertificateInner`](crate::certificate::TbsCertificateInner).
type Front<P> = (
    Name,
    (Option<CertificateInner<P>>, Option<CertificatePolicies>),
);

/// The fields behind them.
type Behind = (
    Option<CertPolicyFlags>,
    (Option<NameConstraints>, Option<u32>),
);

/// Reads the fields up to the policies.
#[inline(always)]
fn read_front<P: Profile>(alloc: Global, rest: &mut &[u8]) -> Result<Front<P>, Error>
    ensures { GivesBefore result rest.new.now ((grammar.cert_path_controls_front P.serial_check).reading rest.old.now) }
{
    let ta_name = read_field::<Name>(alloc, rest)?;
    let certificate = read_optional_implicit::<CertificateInner<P>>(alloc, 0, rest)?;
    let policy_set = read_optional_implicit::<CertificatePolicies>(alloc, 1, rest)?;
    Ok((ta_name, (certificate, policy_set)))
}

/// Reads the fields behind the policies.
#[inline(always)]
fn read_behind(alloc: Global, rest: &mut &[u8]) -> Result<Behind, Error>
    ensures { GivesBefore result rest.new.now (grammar.cert_path_controls_behind.reading rest.old.now) }
{
    let policy_flags = read_optional_implicit::<CertPolicyFlags>(alloc, 2, rest)?;
    let name_constr = read_optional_implicit::<NameConstraints>(alloc, 3, rest)?;
    let path_len_constraint = read_optional_implicit::<u32>(alloc, 4, rest)?;
    Ok((policy_flags, (name_constr, path_len_constraint)))
}

#[tactic(auto, unfolding(crate::specs::CertPathControls::cert_path_controls_fields, x509_der::specs::Frames::fields_reading, x509_der::specs::Frames::fields_octets), using(x509_der::specs::FrameWriting::text_in_option, x509_der::specs::FrameWriting::refusal_in_option))]
impl<P: Profile> Content for CertPathControls<P> {
    ghost use Rattle.x509_base.specs.Checked.{CheckRefuses};
    ghost use Rattle.x509_cert.specs.CertPathControls as grammar;
    ghost use Rattle.x509_der.specs.declared.tag.Tag.TheVariants.{Sequence};

    ghost contents = { grammar.cert_path_controls_contents P.serial_check };

    ghost refusals = { CheckRefuses P.serial_check };

    ghost written_as = { grammar.controls_writing ⟦<CertificateInner<P> as Encode>⟧.writing };

    ghost IDENTIFIER = { Sequence };

    const IDENTIFIER: Tag = Tag::Sequence;

    fn read_content(alloc: Global, octets: &[u8]) -> Result<CertPathControls<P>, Error> {
        let mut rest = octets;
        let (ta_name, (certificate, policy_set)) = read_front::<P>(alloc, &mut rest)?;
        let (policy_flags, (name_constr, path_len_constraint)) = read_behind(alloc, &mut rest)?;
        end(rest)?;
        Ok(CertPathControls {
            ta_name,
            certificate,
            policy_set,
            policy_flags,
            name_constr,
            path_len_constraint,
        })
    }

    fn write_content<R: Room>(&self, room: &mut R) -> Result<(), Error> {
        let front = (
            &self.ta_name,
            (
                optional_implicit(0, &self.certificate),
                optional_implicit(1, &self.policy_set),
            ),
        );
        let behind = (
            optional_implicit(2, &self.policy_flags),
            (
                optional_implicit(3, &self.name_constr),
                optional_implicit(4, &self.path_len_constraint),
            ),
        );
        (front, behind).put_part(room)
    }

    ghost contents_lawful = { grammar.cert_path_controls_contents_lawful P.serial_check };
}

#[tactic(auto, unfolding(crate::specs::CertPathControls::cert_path_controls_fields, x509_der::specs::Frames::fields_good))]
impl<P: Profile> Spelled for CertPathControls<P> {
    ghost use Rattle.std.specs.Prelude.{◌≡◌, Ok};
    ghost use Rattle.x509_cert.specs.AnchorMade.{MadeControls};

    ghost premise = { MadeControls (λ serial. P.serial_check serial ≡ Ok tt) };

    fn has_spelling(&self) {
        self.ta_name.has_spelling();
        option_has_spelling(&self.certificate);
        option_has_spelling(&self.policy_set);
        option_has_spelling(&self.policy_flags);
        option_has_spelling(&self.name_constr);
        option_has_spelling(&self.path_len_constraint);
    }
}
