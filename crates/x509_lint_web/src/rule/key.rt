//! Rules on public keys (TLS BR 6.1.1.3, 6.1.5, 6.1.6, 7.1.3.1).

ghost use Rattle.std.specs.Prelude.{◌≡◌};
ghost use Rattle.x509_lint_web.specs.Key as grammar;
ghost use Rattle.x509_lint_web.specs.Seen as seen;
ghost use Rattle.x509_lint_web.specs.Sentence.{IsTold};

use crate::algorithms::{are_curve, are_null, is_ec, is_rsa};
use crate::entry::{WebEntry, entries};
use crate::numbers::{
    has_divided_modulus, has_even_modulus, has_no_exponent, has_outside_exponent,
    has_short_modulus, has_uneven_modulus,
};
use crate::seen::Part;
use crate::values::WebValues;
use x509_base::Raw;
use x509_cert::certificate::CertificateInner;

/// Rules on public keys (TLS BR 6.1.1.3, 6.1.5, 6.1.6, 7.1.3.1).
#[derive(Clone, Copy, PartialEq, Eq)]
pub enum WebKeyRule {
    /// The key is neither one of RSA nor one of an elliptic curve (TLS BR 7.1.3.1, error, from 2020-08-20).
    KeyAlgorithmOther,

    /// The key is one of RSA, and its parameters aren't NULL (TLS BR 7.1.3.1.1, error, from 2020-08-20).
    RsaKeyParametersNotNull,

    /// The key is one of an elliptic curve other than P-256, P-384 and P-521 (TLS BR 6.1.5, error).
    EcCurveOther,

    /// The modulus of an RSA key has fewer than 2048 bits (TLS BR 6.1.5, error, from 2014-01-01).
    RsaModulusShort,

    /// The number of bits of the modulus of an RSA key isn't divisible by 8 (TLS BR 6.1.5, error, from 2020-08-20).
    RsaModulusUneven,

    /// The modulus of an RSA key is even (TLS BR 6.1.6, warning, from 2013-01-01).
    RsaModulusEven,

    /// A prime from 3 to 751 divides the modulus of an RSA key (TLS BR 6.1.6, warning, from 2013-01-01).
    RsaModulusSmallFactor,

    /// Fermat's factorization factors the modulus of an RSA key, of 2,048 octets at most, within 100 rounds (TLS BR 6.1.1.3, error, from 2024-11-15).
    RsaFactorsClose,

    /// The exponent of an RSA key is even, or below 3 (TLS BR 6.1.6, error, from 2013-01-01).
    RsaExponentInvalid,

    /// The exponent of an RSA key isn't between 2^16 + 1 and 2^256 - 1 (TLS BR 6.1.6, warning, from 2013-01-01).
    RsaExponentOutside,

    /// The key is an uncompressed point that isn't on its curve, P-256, P-384 or P-521; a compressed one isn't asked (TLS BR 6.1.6, warning, from 2013-01-01).
    EcPointOffCurve,
}

/// How the rules are told, in the order of their variants.
static ENTRIES: [WebEntry; 11] = entries! {
    KeyAlgorithmOther => must("key_algorithm_other", "7.1.3.1", from_day(2020, 8, 20), "tbsCertificate.subjectPublicKeyInfo"),
    RsaKeyParametersNotNull => must("rsa_key_parameters_not_null", "7.1.3.1.1", from_day(2020, 8, 20), "tbsCertificate.subjectPublicKeyInfo"),
    EcCurveOther => must("ec_curve_other", "6.1.5", None, "tbsCertificate.subjectPublicKeyInfo"),
    RsaModulusShort => must("rsa_modulus_short", "6.1.5", from_day(2014, 1, 1), "tbsCertificate.subjectPublicKeyInfo"),
    RsaModulusUneven => must("rsa_modulus_uneven", "6.1.5", from_day(2020, 8, 20), "tbsCertificate.subjectPublicKeyInfo"),
    RsaModulusEven => should("rsa_modulus_even", "6.1.6", from_day(2013, 1, 1), "tbsCertificate.subjectPublicKeyInfo"),
    RsaModulusSmallFactor => should("rsa_modulus_small_factor", "6.1.6", from_day(2013, 1, 1), "tbsCertificate.subjectPublicKeyInfo"),
    RsaFactorsClose => must("rsa_factors_close", "6.1.1.3", from_day(2024, 11, 15), "tbsCertificate.subjectPublicKeyInfo"),
    RsaExponentInvalid => must("rsa_exponent_invalid", "6.1.6", from_day(2013, 1, 1), "tbsCertificate.subjectPublicKeyInfo"),
    RsaExponentOutside => should("rsa_exponent_outside", "6.1.6", from_day(2013, 1, 1), "tbsCertificate.subjectPublicKeyInfo"),
    EcPointOffCurve => should("ec_point_off_curve", "6.1.6", from_day(2013, 1, 1), "tbsCertificate.subjectPublicKeyInfo"),
};

impl WebKeyRule {
    /// How the rule is told, and since when it is in force.
    pub fn entry(self) -> WebEntry
        ensures { IsTold result (grammar.key_sentence self) }
    {
        ENTRIES[self as usize]
    }

    /// Of which part of a certificate the rule speaks.
    pub(crate) fn part(self) -> Part
        ensures { result ≡ seen.key_part self }
    {
        match self {
            WebKeyRule::KeyAlgorithmOther => Part::KeyAlgorithm,
            WebKeyRule::RsaKeyParametersNotNull | WebKeyRule::EcCurveOther => Part::KeyParameters,
            _ => Part::Key,
        }
    }

    /// Whether the certificate, of which these are the values, breaks the rule.
    pub(crate) fn is_broken(self, certificate: &CertificateInner<Raw>, values: &WebValues) -> bool
        ensures { result ≡ (grammar.key_sentence self).breaks certificate.now values.now }
    {
        let key = certificate.tbs_certificate().subject_public_key_info();
        match self {
            WebKeyRule::KeyAlgorithmOther => !is_rsa(key) && !is_ec(key),
            WebKeyRule::RsaKeyParametersNotNull => is_rsa(key)
                && !are_null(&key.algorithm.parameters),
            WebKeyRule::EcCurveOther => is_ec(key) && !are_curve(&key.algorithm.parameters),
            WebKeyRule::RsaModulusShort => is_rsa(key) && has_short_modulus(&values.rsa_numbers),
            WebKeyRule::RsaModulusUneven => is_rsa(key) && has_uneven_modulus(&values.rsa_numbers),
            WebKeyRule::RsaModulusEven => is_rsa(key) && has_even_modulus(&values.rsa_numbers),
            WebKeyRule::RsaModulusSmallFactor => is_rsa(key)
                && has_divided_modulus(&values.rsa_numbers),
            WebKeyRule::RsaFactorsClose => is_rsa(key) && values.has_close_factors,
            WebKeyRule::RsaExponentInvalid => is_rsa(key) && has_no_exponent(&values.rsa_numbers),
            WebKeyRule::RsaExponentOutside => is_rsa(key)
                && has_outside_exponent(&values.rsa_numbers),
            WebKeyRule::EcPointOffCurve => is_ec(key) && values.has_point_off_curve,
        }
    }
}
