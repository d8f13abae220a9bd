//! The key usages of certificates.

ghost use Rattle.std.specs.Prelude.{◌≡◌};
ghost use Rattle.x509_build.specs.Usages as sets;

use bitflags::Flags;
use x509_ext::pkix::KeyUsages;

/// These key usages, and a further one where it is wanted.
fn with_usage(usages: KeyUsages, further: KeyUsages, wanted: bool) -> KeyUsages
    ensures { result.0 ≡ sets.with_usage wanted further.0 usages.0 }
{
    if wanted {
        usages.union(further)
    } else {
        usages
    }
}

/// The key usages of a certification authority.
pub(crate) fn ca_usages(emits_ocsp_response: bool) -> KeyUsages
    ensures { result.0 ≡ sets.ca_usages emits_ocsp_response }
{
    let usages = KeyUsages::KEY_CERT_SIGN.union(KeyUsages::CRL_SIGN);
    with_usage(usages, KeyUsages::DIGITAL_SIGNATURE, emits_ocsp_response)
}

/// The key usages of a TLS server.
pub(crate) fn subscriber_usages(
    enciphers_data: bool,
    enciphers_keys: bool,
    agrees_on_keys: bool,
) -> KeyUsages
    ensures { result.0 ≡ sets.subscriber_usages enciphers_data enciphers_keys agrees_on_keys }
{
    let usages = with_usage(
        KeyUsages::DIGITAL_SIGNATURE,
        KeyUsages::DATA_ENCIPHERMENT,
        enciphers_data,
    );
    let usages = with_usage(usages, KeyUsages::KEY_ENCIPHERMENT, enciphers_keys);
    with_usage(usages, KeyUsages::KEY_AGREEMENT, agrees_on_keys)
}
