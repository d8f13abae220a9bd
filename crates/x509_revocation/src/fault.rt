//! Why a CRL says nothing of a certificate.

/// Why a CRL says nothing of a certificate (RFC 5280 6.3.3), in the order in which it is asked.
#[derive(Clone, Copy, Debug, PartialEq, Eq)]
pub enum CrlFault {
    /// The moment is before its thisUpdate (RFC 5280 5.1.2.4).
    NotYetValid,

    /// The moment is after its nextUpdate (RFC 5280 5.1.2.5), or it has none, and the settings don't take such a CRL.
    Expired,

    /// It has a critical extension that isn't an IssuingDistributionPoint or a delta CRL indicator, or can't be decoded (RFC
    /// 5280 5.2).
    Critical,

    /// The algorithm in its signed part isn't the one outside it (RFC 5280 5.1.1.2).
    Algorithm,

    /// It is a delta CRL, which says nothing but with a complete one (RFC 5280 5.2.4).
    Delta,

    /// It has an IssuingDistributionPoint that can't be decoded, or several (RFC 5280 5.2.5).
    IssuingPoint,

    /// Its issuer isn't the certificate's, nor in the cRLIssuer of a distribution point for which it is an indirect CRL (RFC 5280
    /// 6.3.3 (b) (1)).
    Issuer,

    /// Its IssuingDistributionPoint says that it isn't about such certificates: it is about those of authorities alone, of end
    /// entities alone, or attribute certificates (RFC 5280 6.3.3 (b) (2) (ii) to (iv)).
    Scope,

    /// It is that of none of the certificate's distribution points, or for none of the reasons there (RFC 5280 6.3.3 (b) (2) (i),
    /// (d)).
    Point,

    /// The signer's name isn't its issuer, or the signer's name and key aren't the encodings of a name and of a key (RFC 5280
    /// 6.3.3 (f)).
    Signer,

    /// The verifier doesn't accept its signature for the signer's key (RFC 5280 6.3.3 (g)).
    Signature,

    /// An entry has a critical extension that isn't a CrlReason or a CertificateIssuer, or can't be decoded; a CertificateIssuer
    /// where the CRL isn't indirect, or without a directory name; or two of them (RFC 5280 5.3).
    Entry,

    /// A newer CRL for the same scope takes its place (RFC 5280 6.3.3 (a)).
    Replaced,
}
