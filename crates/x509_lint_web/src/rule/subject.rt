//! Rules on the attributes of the subject of certificates of TLS servers (TLS BR 7.1.2.7, 7.1.4).

ghost use Rattle.std.specs.Prelude.{◌≡◌};
ghost use Rattle.x509_lint_web.specs.Subject as grammar;
ghost use Rattle.x509_lint_web.specs.Sentence.{IsTold};

use crate::entry::{WebEntry, entries};
use crate::names::has_attribute;
use crate::orders::is_disordered;
use crate::policies::{
    EXTENDED_VALIDATION, INDIVIDUAL_VALIDATED, ORGANIZATION_VALIDATED, has_policy,
};
use crate::subjects::{
    BUSINESS_CATEGORY, JURISDICTION_COUNTRY, has_country_unknown, has_personal_name, has_place,
    has_rdn_of_several, has_repeated, has_without_text, lacks_personal_name,
};
use crate::values::WebValues;
use x509_base::Raw;
use x509_cert::certificate::CertificateInner;
use x509_name::attr::attribute_types::{COUNTRY_NAME, ORGANIZATION_NAME, SERIAL_NUMBER};

/// Rules on the attributes of the subject of certificates of TLS servers (TLS BR 7.1.2.7, 7.1.4).
#[derive(Clone, Copy, PartialEq, Eq)]
pub enum WebSubjectRule {
    /// The organization is validated, by the policy, and the subject has neither a localityName nor a
    /// stateOrProvinceName (TLS BR 7.1.2.7.4, error, from 2023-09-15).
    OrganizationValidatedWithoutPlace,

    /// The organization is validated, by the policy, and the subject has a surname or a givenName (TLS BR 7.1.2.7.4,
    /// error, from 2023-09-15).
    OrganizationValidatedPersonalName,

    /// The individual is validated, by the policy, and the subject lacks a surname or a givenName (TLS BR 7.1.2.7.3,
    /// error, from 2023-09-15).
    IndividualValidatedWithoutName,

    /// The individual is validated, by the policy, and the subject has no countryName (TLS BR 7.1.2.7.3, error, from
    /// 2023-09-15).
    IndividualValidatedWithoutCountry,

    /// The individual is validated, by the policy, and the subject has neither a localityName nor a
    /// stateOrProvinceName (TLS BR 7.1.2.7.3, error, from 2023-09-15).
    IndividualValidatedWithoutPlace,

    /// The validation is extended, by the policy, and the subject has no organizationName (TLS BR 7.1.2.7.5, error,
    /// from 2023-09-15).
    ExtendedValidationWithoutOrganization,

    /// The validation is extended, by the policy, and the subject has no countryName (TLS BR 7.1.2.7.5, error, from
    /// 2023-09-15).
    ExtendedValidationWithoutCountry,

    /// The validation is extended, by the policy, and the subject has neither a localityName nor a
    /// stateOrProvinceName (TLS BR 7.1.2.7.5, error, from 2023-09-15).
    ExtendedValidationWithoutPlace,

    /// The validation is extended, by the policy, and the subject has no businessCategory (TLS BR 7.1.2.7.5, error,
    /// from 2023-09-15).
    ExtendedValidationWithoutCategory,

    /// The validation is extended, by the policy, and the subject has no serialNumber (TLS BR 7.1.2.7.5, error, from
    /// 2023-09-15).
    ExtendedValidationWithoutNumber,

    /// The validation is extended, by the policy, and the subject has no jurisdictionCountryName (TLS BR 7.1.2.7.5,
    /// error, from 2023-09-15).
    ExtendedValidationWithoutJurisdiction,

    /// The subject has a countryName or a jurisdictionCountryName that is neither an alpha-2 code of ISO 3166-1 nor
    /// XX, in any case (TLS BR 7.1.2.7, error, from 2012-07-01).
    CountryUnknown,

    /// The subject has an attribute of full stops, hyphens and spaces alone (TLS BR 7.1.4.2, error, from 2023-09-15).
    AttributeWithoutText,

    /// The subject has two attributes or more of one type: of countryName, stateOrProvinceName, localityName, postalCode,
    /// organizationName, surname, givenName, serialNumber, businessCategory or jurisdictionCountryName (TLS BR 7.1.4.1,
    /// warning, from 2023-09-15).
    AttributeRepeated,

    /// An RDN of the subject has two attributes or more (TLS BR 7.1.4.1, error, from 2023-09-15).
    RdnOfSeveralAttributes,

    /// The attributes of the subject stand in another order than domainComponent, countryName, stateOrProvinceName,
    /// localityName, postalCode, streetAddress, organizationName, surname, givenName, organizationalUnitName, commonName;
    /// those of other types aside (TLS BR 7.1.4.2, error, from 2023-09-15).
    AttributeOrder,
}

/// How the rules are told, in the order of their variants.
static ENTRIES: [WebEntry; 16] = entries! {
    OrganizationValidatedWithoutPlace => must("organization_validated_without_place", "7.1.2.7.4", from_day(2023, 9, 15), "tbsCertificate.subject"),
    OrganizationValidatedPersonalName => must("organization_validated_personal_name", "7.1.2.7.4", from_day(2023, 9, 15), "tbsCertificate.subject"),
    IndividualValidatedWithoutName => must("individual_validated_without_name", "7.1.2.7.3", from_day(2023, 9, 15), "tbsCertificate.subject"),
    IndividualValidatedWithoutCountry => must("individual_validated_without_country", "7.1.2.7.3", from_day(2023, 9, 15), "tbsCertificate.subject"),
    IndividualValidatedWithoutPlace => must("individual_validated_without_place", "7.1.2.7.3", from_day(2023, 9, 15), "tbsCertificate.subject"),
    ExtendedValidationWithoutOrganization => must("extended_validation_without_organization", "7.1.2.7.5", from_day(2023, 9, 15), "tbsCertificate.subject"),
    ExtendedValidationWithoutCountry => must("extended_validation_without_country", "7.1.2.7.5", from_day(2023, 9, 15), "tbsCertificate.subject"),
    ExtendedValidationWithoutPlace => must("extended_validation_without_place", "7.1.2.7.5", from_day(2023, 9, 15), "tbsCertificate.subject"),
    ExtendedValidationWithoutCategory => must("extended_validation_without_category", "7.1.2.7.5", from_day(2023, 9, 15), "tbsCertificate.subject"),
    ExtendedValidationWithoutNumber => must("extended_validation_without_number", "7.1.2.7.5", from_day(2023, 9, 15), "tbsCertificate.subject"),
    ExtendedValidationWithoutJurisdiction => must("extended_validation_without_jurisdiction", "7.1.2.7.5", from_day(2023, 9, 15), "tbsCertificate.subject"),
    CountryUnknown => must("country_unknown", "7.1.2.7", from_day(2012, 7, 1), "tbsCertificate.subject"),
    AttributeWithoutText => must("attribute_without_text", "7.1.4.2", from_day(2023, 9, 15), "tbsCertificate.subject"),
    AttributeRepeated => should("attribute_repeated", "7.1.4.1", from_day(2023, 9, 15), "tbsCertificate.subject"),
    RdnOfSeveralAttributes => must("rdn_of_several_attributes", "7.1.4.1", from_day(2023, 9, 15), "tbsCertificate.subject"),
    AttributeOrder => must("attribute_order", "7.1.4.2", from_day(2023, 9, 15), "tbsCertificate.subject"),
};

impl WebSubjectRule {
    /// How the rule is told, and since when it is in force.
    pub fn entry(self) -> WebEntry
        ensures { IsTold result (grammar.subject_sentence self) }
    {
        ENTRIES[self as usize]
    }

    /// Whether the certificate, of which these are the values, breaks the rule.
    pub(crate) fn is_broken(self, certificate: &CertificateInner<Raw>, values: &WebValues) -> bool
        ensures { result ≡ (grammar.subject_sentence self).breaks certificate.now values.now }
    {
        let subject = certificate.tbs_certificate().subject();
        let policies = &values.certificate_policies;
        match self {
            WebSubjectRule::OrganizationValidatedWithoutPlace => has_policy(
                ORGANIZATION_VALIDATED,
                policies,
            ) && !has_place(subject),
            WebSubjectRule::OrganizationValidatedPersonalName => has_policy(
                ORGANIZATION_VALIDATED,
                policies,
            ) && has_personal_name(subject),
            WebSubjectRule::IndividualValidatedWithoutName => has_policy(
                INDIVIDUAL_VALIDATED,
                policies,
            ) && lacks_personal_name(subject),
            WebSubjectRule::IndividualValidatedWithoutCountry => has_policy(
                INDIVIDUAL_VALIDATED,
                policies,
            ) && !has_attribute(COUNTRY_NAME, subject),
            WebSubjectRule::IndividualValidatedWithoutPlace => has_policy(
                INDIVIDUAL_VALIDATED,
                policies,
            ) && !has_place(subject),
            WebSubjectRule::ExtendedValidationWithoutOrganization => has_policy(
                EXTENDED_VALIDATION,
                policies,
            ) && !has_attribute(ORGANIZATION_NAME, subject),
            WebSubjectRule::ExtendedValidationWithoutCountry => has_policy(
                EXTENDED_VALIDATION,
                policies,
            ) && !has_attribute(COUNTRY_NAME, subject),
            WebSubjectRule::ExtendedValidationWithoutPlace => has_policy(
                EXTENDED_VALIDATION,
                policies,
            ) && !has_place(subject),
            WebSubjectRule::ExtendedValidationWithoutCategory => has_policy(
                EXTENDED_VALIDATION,
                policies,
            ) && !has_attribute(BUSINESS_CATEGORY, subject),
            WebSubjectRule::ExtendedValidationWithoutNumber => has_policy(
                EXTENDED_VALIDATION,
                policies,
            ) && !has_attribute(SERIAL_NUMBER, subject),
            WebSubjectRule::ExtendedValidationWithoutJurisdiction => has_policy(
                EXTENDED_VALIDATION,
                policies,
            ) && !has_attribute(JURISDICTION_COUNTRY, subject),
            WebSubjectRule::CountryUnknown => has_country_unknown(subject),
            WebSubjectRule::AttributeWithoutText => has_without_text(subject),
            WebSubjectRule::AttributeRepeated => has_repeated(subject),
            WebSubjectRule::RdnOfSeveralAttributes => has_rdn_of_several(subject),
            WebSubjectRule::AttributeOrder => is_disordered(subject),
        }
    }
}
