//! Values of extensions that are encoded of what a caller says of them.

ghost use Rattle.std.specs.Prelude.{◌≡◌, nat_eq, not};
ghost use Rattle.x509_c_calls.specs.Described.{AreBasicConstraints, ArePolicyConstraints, DescribesNone, EncodesDescribed, IsAuthorityKeyIdentifierOf, IsCrlNumber, IsExtendedKeyUsage, IsInhibitAnyPolicy, IsKeyUsage, IsSubjectKeyIdentifier, RefusesAuthorityKeyIdentifier, RefusesPurposes};
ghost use Rattle.x509_c_calls.specs.DescribedAttributes.{IsRequestAttributeOf, RefusesRequestAttribute};
ghost use Rattle.x509_c_calls.specs.DescribedElements.{EncodesElement};
ghost use Rattle.x509_c_calls.specs.DescribedMappings.{AreMappingsOf, RefusesMappings};
ghost use Rattle.x509_c_calls.specs.DescribedNumbers.{AreNumbersOf, RefusesNumbers};
ghost use Rattle.x509_c_calls.specs.DescribedParts.{AreNameConstraintsOf, EncodesList, IsAccessOf, IsMoment, IsNameOf, IsOtherNameOf, IsPeriodOf, IsReason, IsSubtreeOf, RefusesAccess, RefusesName, RefusesNameConstraints, RefusesOtherName};
ghost use Rattle.x509_c_calls.specs.DescribedPoints.{EncodesWritten, IsIssuingPointOf, IsPointOf, RefusesIssuingPoint, RefusesPoint};
ghost use Rattle.x509_c_calls.specs.DescribedPolicies.{IsMappingOf, IsNoticeOf, IsPolicyOf, IsQualifierOf, RefusesCpsUri, RefusesMapping, RefusesNotice, RefusesPolicy, RefusesQualifier};
ghost use Rattle.x509_c_calls.specs.DescribedPolicyLists.{ArePoliciesOf, RefusesPolicies};
ghost use Rattle.x509_c_calls.specs.DescribedTimestamps.{IsTimestampListOf, RefusesTimestampList};
ghost use Rattle.x509_c_calls.specs.Status.{Fills, Tells};
ghost use Rattle.x509_c_calls.specs.declared.status.status.Status.TheVariants.{Refused};
ghost use Rattle.x509_der.specs.declared.error.ErrorKind.TheVariants.{Memory};
ghost use Rattle.x509_types.specs.Reencoding.{IsRefused};

use std::alloc::Global;
use x509_base::GeneralizedTime;
use x509_c_calls::{
    BasicConstraintsView, IssuingDistributionPointView, PolicyConstraintsView,
    PrivateKeyUsagePeriodView, access_encode, authority_key_identifier_encode, cps_uri_encode,
    crl_number_encode, distribution_point_encode, element_encode, encode,
    extended_key_usage_encode, general_name_encode, issuing_distribution_point_encode, list_encode,
    mappings_encode, name_constraints_encode, numbers_encode, other_name_encode, policies_encode,
    policy_encode, policy_mapping_encode, policy_qualifier_encode, request_attribute_encode,
    subject_key_identifier_encode, subtree_encode, timestamps_encode, user_notice_encode,
};
use x509_der::{Encode, Grammar, SequenceOf};
use x509_ext::pkix::certpolicy::{CpsUri, PolicyInformation, PolicyQualifierInfo, UserNotice};
use x509_ext::pkix::constraints::name::GeneralSubtree;
use x509_ext::pkix::crl::dp::DistributionPoint;
use x509_ext::pkix::name::GeneralName;
use x509_ext::pkix::{
    AccessDescription, AuthorityKeyIdentifier, BasicConstraints, CrlNumber, CrlReason,
    ExtendedKeyUsage, InhibitAnyPolicy, IssuingDistributionPoint, KeyUsage, NameConstraints,
    PolicyConstraints, PolicyMapping, PrivateKeyUsagePeriod, SubjectKeyIdentifier,
};
use x509_name::attr::Attribute;
use x509_prim::{OctetString, Uint};

/// Puts the encoding of the BasicConstraints that the view says at the front of the room.
#[unsafe(no_mangle)]
pub extern "C" fn x509_basic_constraints_encode(
    view: &BasicConstraintsView,
    room: &mut [u8],
    written: &mut usize,
) -> i32
    ensures { Tells (λ status. Fills (EncodesDescribed ⟦<BasicConstraints as Grammar>⟧.form (AreBasicConstraints view.now)
        (DescribesNone ⟦<BasicConstraints as Grammar>⟧.form (AreBasicConstraints view.now))) room.old room.new written.old written.new status
        × (status ≡ Refused Memory → ⊥)) result }
{
    encode::<BasicConstraints>(*view, room, written).code()
}

/// Puts the encoding of the KeyUsage with these bits at the front of the room.
#[unsafe(no_mangle)]
pub extern "C" fn x509_key_usage_encode(uses: u32, room: &mut [u8], written: &mut usize) -> i32
    ensures { Tells (λ status. Fills (EncodesDescribed ⟦<KeyUsage as Grammar>⟧.form (IsKeyUsage uses)
        (DescribesNone ⟦<KeyUsage as Grammar>⟧.form (IsKeyUsage uses))) room.old room.new written.old written.new status
        × (status ≡ Refused Memory → ⊥)) result }
{
    encode::<KeyUsage>(uses, room, written).code()
}

/// Puts the encoding of the ExtendedKeyUsage with these purposes at the front of the room.
#[unsafe(no_mangle)]
pub extern "C" fn x509_extended_key_usage_encode(
    alloc: Global,
    oids: &[u8],
    lens: &[usize],
    room: &mut [u8],
    written: &mut usize,
) -> i32
    ensures { Tells (λ status. Fills (EncodesDescribed ⟦<ExtendedKeyUsage as Grammar>⟧.form (IsExtendedKeyUsage oids.now lens.now)
        (RefusesPurposes oids.now lens.now)) room.old room.new written.old written.new status) result }
{
    extended_key_usage_encode(alloc, oids, lens, room, written).code()
}

/// Puts the encoding of the SubjectKeyIdentifier with these octets at the front of the room.
#[unsafe(no_mangle)]
pub extern "C" fn x509_subject_key_identifier_encode(
    alloc: Global,
    identifier: &[u8],
    room: &mut [u8],
    written: &mut usize,
) -> i32
    ensures { Tells (λ status. Fills (EncodesDescribed ⟦<SubjectKeyIdentifier as Grammar>⟧.form (IsSubjectKeyIdentifier identifier.now) (λ e. ⊥))
        room.old room.new written.old written.new status) result }
{
    subject_key_identifier_encode(alloc, identifier, room, written).code()
}

/// Puts the encoding of the AuthorityKeyIdentifier of that key, and of that certificate of it, at the front of the room.
#[unsafe(no_mangle)]
pub extern "C" fn x509_authority_key_identifier_encode(
    alloc: Global,
    has_key_identifier: u32,
    key_identifier: &[u8],
    issuer: &[u8],
    serial_number: &[u8],
    room: &mut [u8],
    written: &mut usize,
) -> i32
    ensures { Tells (λ status. Fills (EncodesDescribed ⟦<AuthorityKeyIdentifier as Grammar>⟧.form
        (IsAuthorityKeyIdentifierOf (not (nat_eq has_key_identifier 0)) key_identifier.now issuer.now serial_number.now)
        (RefusesAuthorityKeyIdentifier (not (nat_eq has_key_identifier 0)) key_identifier.now issuer.now serial_number.now)) room.old room.new written.old written.new status) result }
{
    authority_key_identifier_encode(
        alloc,
        has_key_identifier != 0,
        key_identifier,
        issuer,
        serial_number,
        room,
        written,
    )
    .code()
}

/// Puts the encoding of the PolicyConstraints that the view says at the front of the room.
#[unsafe(no_mangle)]
pub extern "C" fn x509_policy_constraints_encode(
    view: &PolicyConstraintsView,
    room: &mut [u8],
    written: &mut usize,
) -> i32
    ensures { Tells (λ status. Fills (EncodesDescribed ⟦<PolicyConstraints as Grammar>⟧.form (ArePolicyConstraints view.now)
        (DescribesNone ⟦<PolicyConstraints as Grammar>⟧.form (ArePolicyConstraints view.now))) room.old room.new written.old written.new status
        × (status ≡ Refused Memory → ⊥)) result }
{
    encode::<PolicyConstraints>(*view, room, written).code()
}

/// Puts the encoding of the InhibitAnyPolicy with that number of certificates at the front of the room.
#[unsafe(no_mangle)]
pub extern "C" fn x509_inhibit_any_policy_encode(
    certificates: u32,
    room: &mut [u8],
    written: &mut usize,
) -> i32
    ensures { Tells (λ status. Fills (EncodesDescribed ⟦<InhibitAnyPolicy as Grammar>⟧.form (IsInhibitAnyPolicy certificates)
        (DescribesNone ⟦<InhibitAnyPolicy as Grammar>⟧.form (IsInhibitAnyPolicy certificates))) room.old room.new written.old written.new status
        × (status ≡ Refused Memory → ⊥)) result }
{
    encode::<InhibitAnyPolicy>(certificates, room, written).code()
}

/// Puts the encoding of the CRLNumber of these octets at the front of the room.
#[unsafe(no_mangle)]
pub extern "C" fn x509_crl_number_encode(
    alloc: Global,
    number: &[u8],
    room: &mut [u8],
    written: &mut usize,
) -> i32
    ensures { Tells (λ status. Fills (EncodesDescribed ⟦<CrlNumber as Grammar>⟧.form (IsCrlNumber number.now)
        (DescribesNone ⟦<CrlNumber as Grammar>⟧.form (IsCrlNumber number.now))) room.old room.new written.old written.new status) result }
{
    crl_number_encode(alloc, number, room, written).code()
}

/// Puts the encoding of the CRLReason with that number at the front of the room.
#[unsafe(no_mangle)]
pub extern "C" fn x509_crl_reason_encode(reason: u32, room: &mut [u8], written: &mut usize) -> i32
    ensures { Tells (λ status. Fills (EncodesDescribed ⟦<CrlReason as Grammar>⟧.form (IsReason reason)
        (DescribesNone ⟦<CrlReason as Grammar>⟧.form (IsReason reason))) room.old room.new written.old written.new status
        × (status ≡ Refused Memory → ⊥)) result }
{
    encode::<CrlReason>(reason, room, written).code()
}

/// Puts the encoding of the InvalidityDate, a GeneralizedTime, of that moment at the front of the room.
#[unsafe(no_mangle)]
pub extern "C" fn x509_invalidity_date_encode(
    moment: u64,
    room: &mut [u8],
    written: &mut usize,
) -> i32
    ensures { Tells (λ status. Fills (EncodesDescribed ⟦<GeneralizedTime as Grammar>⟧.form (IsMoment moment)
        (DescribesNone ⟦<GeneralizedTime as Grammar>⟧.form (IsMoment moment))) room.old room.new written.old written.new status
        × (status ≡ Refused Memory → ⊥)) result }
{
    encode::<GeneralizedTime>(moment, room, written).code()
}

/// Puts the encoding of the PrivateKeyUsagePeriod that the view says at the front of the room.
#[unsafe(no_mangle)]
pub extern "C" fn x509_private_key_usage_period_encode(
    view: &PrivateKeyUsagePeriodView,
    room: &mut [u8],
    written: &mut usize,
) -> i32
    ensures { Tells (λ status. Fills (EncodesDescribed ⟦<PrivateKeyUsagePeriod as Grammar>⟧.form (IsPeriodOf view.now)
        (DescribesNone ⟦<PrivateKeyUsagePeriod as Grammar>⟧.form (IsPeriodOf view.now))) room.old room.new written.old written.new status
        × (status ≡ Refused Memory → ⊥)) result }
{
    encode::<PrivateKeyUsagePeriod>(*view, room, written).code()
}

/// Puts the encoding of the GeneralName of that kind that holds these octets at the front of the room.
#[unsafe(no_mangle)]
pub extern "C" fn x509_general_name_encode(
    alloc: Global,
    kind: u32,
    content: &[u8],
    room: &mut [u8],
    written: &mut usize,
) -> i32
    ensures { Tells (λ status. Fills (EncodesDescribed ⟦<GeneralName as Grammar>⟧.form (IsNameOf kind content.now)
        (RefusesName kind content.now)) room.old room.new written.old written.new status) result }
{
    general_name_encode(alloc, kind, content, room, written).code()
}

/// Puts the encoding of the otherName of that type, with that value, at the front of the room.
#[unsafe(no_mangle)]
pub extern "C" fn x509_other_name_encode(
    alloc: Global,
    type_id: &[u8],
    value: &[u8],
    room: &mut [u8],
    written: &mut usize,
) -> i32
    ensures { Tells (λ status. Fills (EncodesDescribed ⟦<GeneralName as Grammar>⟧.form (IsOtherNameOf type_id.now value.now)
        (RefusesOtherName type_id.now value.now)) room.old room.new written.old written.new status) result }
{
    other_name_encode(alloc, type_id, value, room, written).code()
}

/// Puts the encoding of the GeneralNames with these names at the front of the room.
#[unsafe(no_mangle)]
pub extern "C" fn x509_general_names_encode(
    alloc: Global,
    names: &[u8],
    room: &mut [u8],
    written: &mut usize,
) -> i32
    ensures { Tells (λ status. Fills (EncodesList ⟦<GeneralName as Grammar>⟧.form ⟦<GeneralName as Encode>⟧.writing ⟦<GeneralName as Grammar>⟧.refuses names.now)
        room.old room.new written.old written.new status) result }
{
    list_encode::<GeneralName>(alloc, names, room, written).code()
}

/// Puts the encoding of the AccessDescription by that method at that location at the front of the room.
#[unsafe(no_mangle)]
pub extern "C" fn x509_access_encode(
    alloc: Global,
    method: &[u8],
    location: &[u8],
    room: &mut [u8],
    written: &mut usize,
) -> i32
    ensures { Tells (λ status. Fills (EncodesDescribed ⟦<AccessDescription as Grammar>⟧.form (IsAccessOf method.now location.now)
        (RefusesAccess method.now location.now)) room.old room.new written.old written.new status) result }
{
    access_encode(alloc, method, location, room, written).code()
}

/// Puts the encoding of the list of these AccessDescriptions at the front of the room.
#[unsafe(no_mangle)]
pub extern "C" fn x509_info_access_encode(
    alloc: Global,
    descriptions: &[u8],
    room: &mut [u8],
    written: &mut usize,
) -> i32
    ensures { Tells (λ status. Fills (EncodesList ⟦<AccessDescription as Grammar>⟧.form ⟦<AccessDescription as Encode>⟧.writing ⟦<AccessDescription as Grammar>⟧.refuses descriptions.now)
        room.old room.new written.old written.new status) result }
{
    list_encode::<AccessDescription>(alloc, descriptions, room, written).code()
}

/// Puts the element with this identifier octet and this content at the front of the room.
#[unsafe(no_mangle)]
pub extern "C" fn x509_element_encode(
    identifier: u32,
    content: &[u8],
    room: &mut [u8],
    written: &mut usize,
) -> i32
    ensures { Tells (λ status. Fills (EncodesElement identifier content.now) room.old room.new written.old written.new status
        × (status ≡ Refused Memory → ⊥)) result }
{
    element_encode(identifier, content, room, written).code()
}

/// Puts the encoding of the CPSuri with these octets at the front of the room.
#[unsafe(no_mangle)]
pub extern "C" fn x509_cps_uri_encode(
    alloc: Global,
    uri: &[u8],
    room: &mut [u8],
    written: &mut usize,
) -> i32
    ensures { Tells (λ status. Fills (EncodesDescribed ⟦<CpsUri as Grammar>⟧.form (λ text. text ≡ uri.now) (RefusesCpsUri uri.now))
        room.old room.new written.old written.new status) result }
{
    cps_uri_encode(alloc, uri, room, written).code()
}

/// Puts the encoding of the SEQUENCE OF INTEGER with these numbers at the front of the room.
#[unsafe(no_mangle)]
pub extern "C" fn x509_numbers_encode(
    alloc: Global,
    octets: &[u8],
    lens: &[usize],
    room: &mut [u8],
    written: &mut usize,
) -> i32
    ensures { Tells (λ status. Fills (EncodesDescribed ⟦<SequenceOf<Uint> as Grammar>⟧.form (AreNumbersOf octets.now lens.now) (RefusesNumbers octets.now lens.now))
        room.old room.new written.old written.new status) result }
{
    numbers_encode(alloc, octets, lens, room, written).code()
}

/// Puts the encoding of the UserNotice with that reference and that text at the front of the room.
#[unsafe(no_mangle)]
pub extern "C" fn x509_user_notice_encode(
    alloc: Global,
    organization: &[u8],
    numbers: &[u8],
    text: &[u8],
    room: &mut [u8],
    written: &mut usize,
) -> i32
    ensures { Tells (λ status. Fills (EncodesDescribed ⟦<UserNotice as Grammar>⟧.form (IsNoticeOf organization.now numbers.now text.now)
        (RefusesNotice organization.now numbers.now text.now)) room.old room.new written.old written.new status) result }
{
    user_notice_encode(alloc, organization, numbers, text, room, written).code()
}

/// Puts the encoding of the PolicyQualifierInfo of that type, with that qualifier, at the front of the room.
#[unsafe(no_mangle)]
pub extern "C" fn x509_policy_qualifier_encode(
    alloc: Global,
    oid: &[u8],
    qualifier: &[u8],
    room: &mut [u8],
    written: &mut usize,
) -> i32
    ensures { Tells (λ status. Fills (EncodesDescribed ⟦<PolicyQualifierInfo as Grammar>⟧.form (IsQualifierOf oid.now qualifier.now)
        (RefusesQualifier oid.now qualifier.now)) room.old room.new written.old written.new status) result }
{
    policy_qualifier_encode(alloc, oid, qualifier, room, written).code()
}

/// Puts the encoding of the PolicyInformation of that policy, with these qualifiers, at the front of the room.
#[unsafe(no_mangle)]
pub extern "C" fn x509_policy_encode(
    alloc: Global,
    oid: &[u8],
    qualifiers: &[u8],
    room: &mut [u8],
    written: &mut usize,
) -> i32
    ensures { Tells (λ status. Fills (EncodesDescribed ⟦<PolicyInformation as Grammar>⟧.form (IsPolicyOf oid.now qualifiers.now)
        (RefusesPolicy oid.now qualifiers.now)) room.old room.new written.old written.new status) result }
{
    policy_encode(alloc, oid, qualifiers, room, written).code()
}

/// Puts the encoding of the list of these policies at the front of the room.
#[unsafe(no_mangle)]
pub extern "C" fn x509_certificate_policies_encode(
    alloc: Global,
    policies: &[u8],
    room: &mut [u8],
    written: &mut usize,
) -> i32
    ensures { Tells (λ status. Fills (EncodesDescribed ⟦<SequenceOf<PolicyInformation> as Grammar>⟧.form (ArePoliciesOf policies.now) (RefusesPolicies policies.now))
        room.old room.new written.old written.new status) result }
{
    policies_encode(alloc, policies, room, written).code()
}

/// Puts the encoding of the pair of these two policies at the front of the room.
#[unsafe(no_mangle)]
pub extern "C" fn x509_policy_mapping_encode(
    issuer: &[u8],
    subject: &[u8],
    room: &mut [u8],
    written: &mut usize,
) -> i32
    ensures { Tells (λ status. Fills (EncodesDescribed ⟦<PolicyMapping as Grammar>⟧.form (IsMappingOf issuer.now subject.now)
        (RefusesMapping issuer.now subject.now)) room.old room.new written.old written.new status
        × (status ≡ Refused Memory → ⊥)) result }
{
    policy_mapping_encode(issuer, subject, room, written).code()
}

/// Puts the encoding of the list of these pairs of policies at the front of the room.
#[unsafe(no_mangle)]
pub extern "C" fn x509_policy_mappings_encode(
    alloc: Global,
    mappings: &[u8],
    room: &mut [u8],
    written: &mut usize,
) -> i32
    ensures { Tells (λ status. Fills (EncodesDescribed ⟦<SequenceOf<PolicyMapping> as Grammar>⟧.form (AreMappingsOf mappings.now) (RefusesMappings mappings.now))
        room.old room.new written.old written.new status) result }
{
    mappings_encode(alloc, mappings, room, written).code()
}

/// Puts the encoding of the Attribute of that type, with the set of these values, at the front of the room.
#[unsafe(no_mangle)]
pub extern "C" fn x509_request_attribute_encode(
    alloc: Global,
    oid: &[u8],
    values: &[u8],
    room: &mut [u8],
    written: &mut usize,
) -> i32
    ensures { Tells (λ status. Fills (EncodesDescribed ⟦<Attribute as Grammar>⟧.form (IsRequestAttributeOf oid.now values.now)
        (RefusesRequestAttribute oid.now values.now)) room.old room.new written.old written.new status) result }
{
    request_attribute_encode(alloc, oid, values, room, written).code()
}

/// Puts the encoding of the list of these attributes of a subject at the front of the room.
#[unsafe(no_mangle)]
pub extern "C" fn x509_subject_directory_attributes_encode(
    alloc: Global,
    attributes: &[u8],
    room: &mut [u8],
    written: &mut usize,
) -> i32
    ensures { Tells (λ status. Fills (EncodesList ⟦<Attribute as Grammar>⟧.form ⟦<Attribute as Encode>⟧.writing ⟦<Attribute as Grammar>⟧.refuses attributes.now)
        room.old room.new written.old written.new status) result }
{
    list_encode::<Attribute>(alloc, attributes, room, written).code()
}

/// Puts the encoding of the SignedCertificateTimestampList, an OCTET STRING, of these timestamps at the front of the room.
#[unsafe(no_mangle)]
pub extern "C" fn x509_timestamps_encode(
    alloc: Global,
    timestamps: &[u8],
    lens: &[usize],
    room: &mut [u8],
    written: &mut usize,
) -> i32
    ensures { Tells (λ status. Fills (EncodesDescribed ⟦<OctetString as Grammar>⟧.form (IsTimestampListOf timestamps.now lens.now)
        (RefusesTimestampList timestamps.now lens.now)) room.old room.new written.old written.new status) result }
{
    timestamps_encode(alloc, timestamps, lens, room, written).code()
}

/// Puts the encoding of the GeneralSubtree with that base at the front of the room.
#[unsafe(no_mangle)]
pub extern "C" fn x509_subtree_encode(
    alloc: Global,
    base: &[u8],
    room: &mut [u8],
    written: &mut usize,
) -> i32
    ensures { Tells (λ status. Fills (EncodesDescribed ⟦<GeneralSubtree as Grammar>⟧.form (IsSubtreeOf base.now)
        (IsRefused ⟦<GeneralName as Grammar>⟧.form (λ e. ⊥) base.now)) room.old room.new written.old written.new status) result }
{
    subtree_encode(alloc, base, room, written).code()
}

/// Puts the encoding of the NameConstraints with these subtrees at the front of the room.
#[unsafe(no_mangle)]
pub extern "C" fn x509_name_constraints_encode(
    alloc: Global,
    permitted: &[u8],
    excluded: &[u8],
    room: &mut [u8],
    written: &mut usize,
) -> i32
    ensures { Tells (λ status. Fills (EncodesDescribed ⟦<NameConstraints as Grammar>⟧.form (AreNameConstraintsOf permitted.now excluded.now)
        (RefusesNameConstraints permitted.now excluded.now)) room.old room.new written.old written.new status) result }
{
    name_constraints_encode(alloc, permitted, excluded, room, written).code()
}

/// Puts the encoding of the DistributionPoint with that name, these reasons and that issuer at the front of the room.
#[unsafe(no_mangle)]
pub extern "C" fn x509_distribution_point_encode(
    alloc: Global,
    full: &[u8],
    relative: &[u8],
    has_reasons: u32,
    reasons: u32,
    issuer: &[u8],
    room: &mut [u8],
    written: &mut usize,
) -> i32
    ensures { Tells (λ status. Fills (EncodesWritten ⟦<DistributionPoint as Grammar>⟧.form ⟦<DistributionPoint as Encode>⟧.writing (IsPointOf full.now relative.now has_reasons reasons issuer.now)
        (RefusesPoint full.now relative.now has_reasons reasons issuer.now)) room.old room.new written.old written.new status) result }
{
    distribution_point_encode(
        alloc,
        full,
        relative,
        has_reasons,
        reasons,
        issuer,
        room,
        written,
    )
    .code()
}

/// Puts the encoding of the list of these DistributionPoints at the front of the room.
#[unsafe(no_mangle)]
pub extern "C" fn x509_distribution_points_encode(
    alloc: Global,
    points: &[u8],
    room: &mut [u8],
    written: &mut usize,
) -> i32
    ensures { Tells (λ status. Fills (EncodesList ⟦<DistributionPoint as Grammar>⟧.form ⟦<DistributionPoint as Encode>⟧.writing ⟦<DistributionPoint as Grammar>⟧.refuses points.now)
        room.old room.new written.old written.new status) result }
{
    list_encode::<DistributionPoint>(alloc, points, room, written).code()
}

/// Puts the encoding of the IssuingDistributionPoint with that name, and of what the view says, at the front of the room.
#[unsafe(no_mangle)]
pub extern "C" fn x509_issuing_distribution_point_encode(
    alloc: Global,
    view: &IssuingDistributionPointView,
    full: &[u8],
    relative: &[u8],
    room: &mut [u8],
    written: &mut usize,
) -> i32
    ensures { Tells (λ status. Fills (EncodesWritten ⟦<IssuingDistributionPoint as Grammar>⟧.form ⟦<IssuingDistributionPoint as Encode>⟧.writing (IsIssuingPointOf view.now full.now relative.now)
        (RefusesIssuingPoint view.now full.now relative.now)) room.old room.new written.old written.new status) result }
{
    issuing_distribution_point_encode(alloc, *view, full, relative, room, written).code()
}
