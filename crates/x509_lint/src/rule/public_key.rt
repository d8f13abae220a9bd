//! Rules on public keys and on algorithms of signatures (RFC 3279, 4055, 5480, 5758, 8017, 8410, 8813, 9295).

ghost use Rattle.x509_lint.specs.PublicKey as grammar;
ghost use Rattle.x509_lint.specs.Wording.{Says};

use crate::algorithms::{
    agrees, are_named, are_null, are_two, enciphers, has_even_modulus, has_no_exponent,
    has_no_point, has_other_length, is_ec, is_edwards, is_montgomery, is_old_rsa, is_pss, is_rsa,
    is_sha_2_ecdsa, is_sha_2_rsa,
};
use crate::entry::{Entry, rules};
use crate::group::{Group, Told};
use crate::passes;
use crate::rule::Rule;
use crate::values::PublicKeyValues;
use x509_base::Raw;
use x509_cert::certificate::CertificateInner;

/// Rules on public keys and on algorithms of signatures (RFC 3279, 4055, 5480, 5758, 8017, 8410, 8813, 9295).
#[derive(Clone, Copy, PartialEq, Eq)]
pub enum PublicKeyRule {
    /// The signature is RSASSA-PKCS1-v1_5 over SHA-224, SHA-256, SHA-384 or SHA-512, and its parameters aren't NULL (RFC 4055 5, error).
    RsaSignatureParametersNotNull,

    /// The signature is RSASSA-PKCS1-v1_5 over MD2, MD5 or SHA-1, and its parameters aren't NULL (RFC 3279 2.2.1, error).
    OldRsaSignatureParametersNotNull,

    /// The signature is RSASSA-PSS, and its parameters are absent (RFC 4055 3.1, error).
    PssSignatureParametersAbsent,

    /// The signature is ECDSA over SHA-224, SHA-256, SHA-384 or SHA-512, and has parameters (RFC 5758 3.2, error).
    EcdsaSignatureParametersPresent,

    /// The signature is one of Ed25519 or Ed448, and has parameters (RFC 8410 3, error).
    EdwardsSignatureParametersPresent,

    /// The key is one of RSA, and its parameters aren't NULL (RFC 3279 2.3.1, error).
    RsaKeyParametersNotNull,

    /// The key is one of RSA, and its octets aren't an RSAPublicKey, of two numbers from 0 on (RFC 3279 2.3.1, error).
    RsaPublicKeyMalformed,

    /// The modulus of an RSA key is even (RFC 8017 3.1, error).
    RsaModulusEven,

    /// The exponent of an RSA key is even, or 1 (RFC 8017 3.1, error).
    RsaExponentInvalid,

    /// The key is one of an elliptic curve, and its parameters are no OID of a curve (RFC 5480 2.1.1, error).
    EcParametersNotNamed,

    /// The key is one of P-256, P-384 or P-521, and its octets are no point, compressed or not, of the curve's size (RFC 5480 2.2, error).
    EcPointInvalid,

    /// The key is one of an elliptic curve, and the KeyUsage has keyEncipherment or dataEncipherment (RFC 8813 3, error).
    EcKeyUsageInvalid,

    /// The key is one of X25519, X448, Ed25519 or Ed448, and has parameters (RFC 8410 3, error).
    EdwardsKeyParametersPresent,

    /// The key is one of X25519, X448, Ed25519 or Ed448, and has another number of octets (RFC 8410 4, error).
    EdwardsKeyLength,

    /// The key is one of Ed25519 or Ed448, and the KeyUsage has a bit on encipherment or agreement (RFC 9295 3, error).
    EdwardsKeyUsageInvalid,

    /// The key is one of X25519 or X448, and the KeyUsage hasn't keyAgreement (RFC 8410 5, error).
    MontgomeryKeyWithoutAgreement,
}

/// The rules in their order, with how each is told.
pub(crate) static PUBLIC_KEY_RULES: [Told<PublicKeyRule>; 16] = rules! { PublicKeyRule;
    RsaSignatureParametersNotNull => must_of("RFC 4055", "rsa_signature_parameters_not_null", "5", "signatureAlgorithm"),
    OldRsaSignatureParametersNotNull => must_of("RFC 3279", "old_rsa_signature_parameters_not_null", "2.2.1", "signatureAlgorithm"),
    PssSignatureParametersAbsent => must_of("RFC 4055", "pss_signature_parameters_absent", "3.1", "signatureAlgorithm"),
    EcdsaSignatureParametersPresent => must_of("RFC 5758", "ecdsa_signature_parameters_present", "3.2", "signatureAlgorithm"),
    EdwardsSignatureParametersPresent => must_of("RFC 8410", "edwards_signature_parameters_present", "3", "signatureAlgorithm"),
    RsaKeyParametersNotNull => must_of("RFC 3279", "rsa_key_parameters_not_null", "2.3.1", "tbsCertificate.subjectPublicKeyInfo"),
    RsaPublicKeyMalformed => must_of("RFC 3279", "rsa_public_key_malformed", "2.3.1", "tbsCertificate.subjectPublicKeyInfo"),
    RsaModulusEven => must_of("RFC 8017", "rsa_modulus_even", "3.1", "tbsCertificate.subjectPublicKeyInfo"),
    RsaExponentInvalid => must_of("RFC 8017", "rsa_exponent_invalid", "3.1", "tbsCertificate.subjectPublicKeyInfo"),
    EcParametersNotNamed => must_of("RFC 5480", "ec_parameters_not_named", "2.1.1", "tbsCertificate.subjectPublicKeyInfo"),
    EcPointInvalid => must_of("RFC 5480", "ec_point_invalid", "2.2", "tbsCertificate.subjectPublicKeyInfo"),
    EcKeyUsageInvalid => must_of("RFC 8813", "ec_key_usage_invalid", "3", "tbsCertificate.extensions.keyUsage"),
    EdwardsKeyParametersPresent => must_of("RFC 8410", "edwards_key_parameters_present", "3", "tbsCertificate.subjectPublicKeyInfo"),
    EdwardsKeyLength => must_of("RFC 8410", "edwards_key_length", "4", "tbsCertificate.subjectPublicKeyInfo"),
    EdwardsKeyUsageInvalid => must_of("RFC 9295", "edwards_key_usage_invalid", "3", "tbsCertificate.extensions.keyUsage"),
    MontgomeryKeyWithoutAgreement => must_of("RFC 8410", "montgomery_key_without_agreement", "5", "tbsCertificate.extensions.keyUsage"),
};

impl PublicKeyRule {
    /// How bad it is to break the rule, its name, its section, and its place.
    pub fn entry(self) -> Entry
        ensures { Says result (grammar.public_key_sentence self).wording }
    {
        PUBLIC_KEY_RULES[self as usize].entry
    }
}

impl Group<CertificateInner<Raw>, PublicKeyValues> for PublicKeyRule {
    ghost use Rattle.x509_lint.specs.PublicKey.{public_key_sentence};
    ghost use Rattle.x509_lint.specs.declared.rule.Rule.TheVariants.{PublicKey};

    ghost sentence = { public_key_sentence };

    ghost as_rule = { λ rule. PublicKey rule };

    fn is_broken(&self, certificate: &CertificateInner<Raw>, values: &PublicKeyValues) -> bool {
        let signature = certificate.signature_algorithm();
        let key = certificate.tbs_certificate().subject_public_key_info();
        let octets = key.subject_public_key.raw_bytes();
        match self {
            PublicKeyRule::RsaSignatureParametersNotNull => is_sha_2_rsa(signature.oid)
                && !are_null(&signature.parameters),
            PublicKeyRule::OldRsaSignatureParametersNotNull => is_old_rsa(signature.oid)
                && !are_null(&signature.parameters),
            PublicKeyRule::PssSignatureParametersAbsent => is_pss(signature.oid)
                && !signature.parameters.is_some(),
            PublicKeyRule::EcdsaSignatureParametersPresent => is_sha_2_ecdsa(signature.oid)
                && signature.parameters.is_some(),
            PublicKeyRule::EdwardsSignatureParametersPresent => is_edwards(signature.oid)
                && signature.parameters.is_some(),
            PublicKeyRule::RsaKeyParametersNotNull => is_rsa(key.algorithm.oid)
                && !are_null(&key.algorithm.parameters),
            PublicKeyRule::RsaPublicKeyMalformed => is_rsa(key.algorithm.oid)
                && !are_two(&values.key_numbers),
            PublicKeyRule::RsaModulusEven => is_rsa(key.algorithm.oid)
                && has_even_modulus(&values.key_numbers),
            PublicKeyRule::RsaExponentInvalid => is_rsa(key.algorithm.oid)
                && has_no_exponent(&values.key_numbers),
            PublicKeyRule::EcParametersNotNamed => is_ec(key.algorithm.oid)
                && !are_named(&key.algorithm.parameters),
            PublicKeyRule::EcPointInvalid => is_ec(key.algorithm.oid)
                && has_no_point(&key.algorithm.parameters, octets),
            PublicKeyRule::EcKeyUsageInvalid => is_ec(key.algorithm.oid)
                && passes!(&values.key_usage, usage => enciphers(usage)),
            PublicKeyRule::EdwardsKeyParametersPresent => (is_edwards(key.algorithm.oid)
                || is_montgomery(key.algorithm.oid))
                && key.algorithm.parameters.is_some(),
            PublicKeyRule::EdwardsKeyLength => has_other_length(key.algorithm.oid, octets),
            PublicKeyRule::EdwardsKeyUsageInvalid => is_edwards(key.algorithm.oid)
                && passes!(&values.key_usage, usage => agrees(usage)),
            PublicKeyRule::MontgomeryKeyWithoutAgreement => is_montgomery(key.algorithm.oid)
                && passes!(&values.key_usage, usage => !usage.key_agreement()),
        }
    }

    fn to_rule(&self) -> Rule {
        Rule::PublicKey(*self)
    }
}
