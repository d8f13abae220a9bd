//! The forms by which the types are decoded and encoded (a form is the grammar of a type as one record, see
//! `docs/MAP.md`): those that the definitions name, so that a user's definitions can quote them. Each law is a function
//! with an empty body, whose contract is the law.

ghost use Rattle.x509_cert.specs.CertReq.{cert_req};
ghost use Rattle.x509_cert.specs.CertificateList.{rfc5280_certificate_list};
ghost use Rattle.x509_cert.specs.Forms.{AreAlike};
ghost use Rattle.x509_cert.specs.TrustAnchorChoice.{rfc5280_trust_anchor_choice};
ghost use Rattle.x509_cert.specs.Certificate.{rfc5280_certificate};
ghost use Rattle.x509_cert.specs.TbsCertificate.{rfc5280_tbs_certificate};
ghost use Rattle.x509_ext.specs.Access.{authority_info_access_syntax, subject_info_access_syntax};
ghost use Rattle.x509_ext.specs.AlternativeNames.{issuer_alt_name, subject_alt_name};
ghost use Rattle.x509_ext.specs.AuthorityKeyIdentifier.{authority_key_identifier};
ghost use Rattle.x509_ext.specs.BasicConstraints.{basic_constraints};
ghost use Rattle.x509_ext.specs.ExtendedKeyUsage.{extended_key_usage};
ghost use Rattle.x509_ext.specs.KeyUsage.{key_usage};
ghost use Rattle.x509_ext.specs.PrivateKeyUsagePeriod.{private_key_usage_period};
ghost use Rattle.x509_ext.specs.SubjectDirectoryAttributes.{subject_directory_attributes};
ghost use Rattle.x509_ext.specs.SubjectKeyIdentifier.{subject_key_identifier};
ghost use Rattle.x509_ext.specs.CertificateIssuer.{certificate_issuer};
ghost use Rattle.x509_ext.specs.CrlNumber.{base_crl_number, crl_number};
ghost use Rattle.x509_ext.specs.CrlReason.{crl_reason};
ghost use Rattle.x509_ext.specs.DistributionPoint.{crl_distribution_points, freshest_crl};
ghost use Rattle.x509_ext.specs.IssuingDistributionPoint.{issuing_distribution_point};
ghost use Rattle.x509_ext.specs.NameConstraints.{name_constraints};
ghost use Rattle.x509_ext.specs.CertificatePolicies.{certificate_policies};
ghost use Rattle.x509_ext.specs.InhibitAnyPolicy.{inhibit_any_policy};
ghost use Rattle.x509_ext.specs.PolicyConstraints.{policy_constraints};
ghost use Rattle.x509_ext.specs.PolicyMapping.{policy_mappings};
ghost use Rattle.x509_sct.specs.Payload.{signed_certificate_timestamp_list};

use crate::anchor::TrustAnchorChoice;
use crate::certificate::{Certificate, TbsCertificate};
use crate::crl::CertificateList;
use crate::request::CertReq;
use x509_der::Grammar;
use x509_ext::pkix::{
    AuthorityInfoAccessSyntax, AuthorityKeyIdentifier, BaseCrlNumber, BasicConstraints,
    CertificateIssuer, CertificatePolicies, CrlDistributionPoints, CrlNumber, CrlReason,
    ExtendedKeyUsage, FreshestCrl, InhibitAnyPolicy, IssuerAltName, IssuingDistributionPoint,
    KeyUsage, NameConstraints, PolicyConstraints, PolicyMappings, PrivateKeyUsagePeriod,
    SubjectAltName, SubjectDirectoryAttributes, SubjectInfoAccessSyntax, SubjectKeyIdentifier,
};
use x509_sct::SignedCertificateTimestampList;

/// Certificates and their signed parts, CRLs, CSRs and trust anchors, under the rules of RFC 5280.
pub fn of_objects()
    ensures certificate { AreAlike ⟦<Certificate as Grammar>⟧.form rfc5280_certificate }
    ensures signed_part { AreAlike ⟦<TbsCertificate as Grammar>⟧.form rfc5280_tbs_certificate }
    ensures crl { AreAlike ⟦<CertificateList as Grammar>⟧.form rfc5280_certificate_list }
    ensures request { AreAlike ⟦<CertReq as Grammar>⟧.form cert_req }
    ensures trust_anchor { AreAlike ⟦<TrustAnchorChoice as Grammar>⟧.form rfc5280_trust_anchor_choice }
{}

/// The extensions about keys.
pub fn of_keys()
    ensures key_usage { AreAlike ⟦<KeyUsage as Grammar>⟧.form key_usage }
    ensures extended_key_usage { AreAlike ⟦<ExtendedKeyUsage as Grammar>⟧.form extended_key_usage }
    ensures private_key_usage_period { AreAlike ⟦<PrivateKeyUsagePeriod as Grammar>⟧.form private_key_usage_period }
    ensures subject_key_identifier { AreAlike ⟦<SubjectKeyIdentifier as Grammar>⟧.form subject_key_identifier }
    ensures authority_key_identifier { AreAlike ⟦<AuthorityKeyIdentifier as Grammar>⟧.form authority_key_identifier }
{}

/// The extensions about the subject and the issuer.
pub fn of_parties()
    ensures basic_constraints { AreAlike ⟦<BasicConstraints as Grammar>⟧.form basic_constraints }
    ensures subject_alt_name { AreAlike ⟦<SubjectAltName as Grammar>⟧.form subject_alt_name }
    ensures issuer_alt_name { AreAlike ⟦<IssuerAltName as Grammar>⟧.form issuer_alt_name }
    ensures subject_directory_attributes { AreAlike ⟦<SubjectDirectoryAttributes as Grammar>⟧.form subject_directory_attributes }
    ensures authority_info_access { AreAlike ⟦<AuthorityInfoAccessSyntax as Grammar>⟧.form authority_info_access_syntax }
    ensures subject_info_access { AreAlike ⟦<SubjectInfoAccessSyntax as Grammar>⟧.form subject_info_access_syntax }
{}

/// The extensions about policies.
pub fn of_policies()
    ensures certificate_policies { AreAlike ⟦<CertificatePolicies as Grammar>⟧.form certificate_policies }
    ensures policy_mappings { AreAlike ⟦<PolicyMappings as Grammar>⟧.form policy_mappings }
    ensures policy_constraints { AreAlike ⟦<PolicyConstraints as Grammar>⟧.form policy_constraints }
    ensures inhibit_any_policy { AreAlike ⟦<InhibitAnyPolicy as Grammar>⟧.form inhibit_any_policy }
{}

/// Name constraints, and the extensions about CRLs.
pub fn of_revocation()
    ensures name_constraints { AreAlike ⟦<NameConstraints as Grammar>⟧.form name_constraints }
    ensures crl_distribution_points { AreAlike ⟦<CrlDistributionPoints as Grammar>⟧.form crl_distribution_points }
    ensures freshest_crl { AreAlike ⟦<FreshestCrl as Grammar>⟧.form freshest_crl }
    ensures issuing_distribution_point { AreAlike ⟦<IssuingDistributionPoint as Grammar>⟧.form issuing_distribution_point }
    ensures crl_number { AreAlike ⟦<CrlNumber as Grammar>⟧.form crl_number }
    ensures base_crl_number { AreAlike ⟦<BaseCrlNumber as Grammar>⟧.form base_crl_number }
    ensures crl_reason { AreAlike ⟦<CrlReason as Grammar>⟧.form crl_reason }
    ensures certificate_issuer { AreAlike ⟦<CertificateIssuer as Grammar>⟧.form certificate_issuer }
{}

/// The list of signed certificate timestamps (RFC 6962 3.3).
pub fn of_timestamps()
    ensures { AreAlike ⟦<SignedCertificateTimestampList as Grammar>⟧.form signed_certificate_timestamp_list }
{}
