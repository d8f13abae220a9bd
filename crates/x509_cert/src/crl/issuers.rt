//! Who issued the certificates of the entries of an indirect CRL.

ghost use Rattle.std.specs.List.{list_any};
ghost use Rattle.std.specs.Option.{option_copied};
ghost use Rattle.std.specs.Prelude.{◌≡◌, ◌+◌, None, take};
ghost use Rattle.std.specs.Result.{result_map_both};
ghost use Rattle.x509_cert.specs.Issuers.{FindsIssued, NamesIssuer, is_directory_name, is_issued, last_issuers};
ghost use Rattle.x509_cert.specs.Revoked.{entries};

use crate::crl::certificate_list::CertificateList;
use crate::crl::revoked_cert::RevokedCert;
use std::alloc::Global;
use x509_base::{Profile, SerialNumber};
use x509_der::Error;
use x509_ext::pkix::CertificateIssuer;
use x509_ext::pkix::name::{GeneralName, GeneralNames};
use x509_name::name::Name;

impl<P: Profile> CertificateList<P> {
    /// Who issued the certificate of the entry at the index: what the last entry up to there that has the extension
    /// [`CertificateIssuer`] holds in it, and `None` where none has it, so that the issuer of the CRL did (RFC 5280 5.3.3). An index
    /// behind the entries is answered as that of an entry that would follow them without the extension.
    ///
    /// # Errors
    ///
    /// As of [`RevokedCert::get_extension`] on that entry: `Failed` where it has the extension twice or more, else as of
    /// [`from_der`](x509_der::Decode::from_der) on the octets of the one. The other entries' extensions aren't read.
    pub fn issuer_of(&self, alloc: Global, index: usize) -> Result<Option<CertificateIssuer>, Error>
        ensures { NamesIssuer (last_issuers (take (index + 1) (entries self.now.tbs_cert_list.revoked_certificates))) result }
    {
        let entries = self.tbs_cert_list.entries();
        let front = if index < entries.len() {
            &entries[..=index]
        } else {
            entries
        };
        last_issuer(alloc, front)
    }

    /// The first entry with the serial number whose certificate the name issued: it is one of the directory names that
    /// [`issuer_of`](CertificateList::issuer_of) gives, or the issuer of the CRL where that gives `None` (RFC 5280 5.3.3). `None`
    /// exactly where there is no such entry. Names are compared as `==` does, which holds exactly of equal values. In one pass over the
    /// entries, with memory for the extension of one.
    ///
    /// Whether the CRL is an indirect one, and from when until when it speaks, isn't looked at (RFC 5280 6.3.3).
    ///
    /// # Errors
    ///
    /// As of [`RevokedCert::get_extension`] on the first entry, up to the one that is looked for, whose [`CertificateIssuer`] is
    /// refused: `Failed` where it has the extension twice or more, else as of [`from_der`](x509_der::Decode::from_der) on the
    /// octets of the one.
    pub fn find_issued(
        &self,
        alloc: Global,
        issuer: &Name,
        serial_number: &SerialNumber<P>,
    ) -> Result<Option<&RevokedCert<P>>, Error>
        ensures { FindsIssued (is_issued self.now.tbs_cert_list.issuer issuer.now serial_number.now) None
            (entries self.now.tbs_cert_list.revoked_certificates) (result_map_both option_copied (λ e. e) result) }
    {
        let mut is_issuer = self.tbs_cert_list.issuer == *issuer;
        let mut rest = self.tbs_cert_list.entries();
        while let Some((first, others)) = rest.split_first() {
            if let Some((_, found)) = first.get_extension::<CertificateIssuer>(alloc)? {
                is_issuer = has_name(&found.0, issuer);
            }
            if is_issuer && first.serial_number == *serial_number {
                return Ok(Some(first));
            }
            rest = others;
        }
        Ok(None)
    }
}

/// What the last of the entries that has the extension holds in it.
fn last_issuer<P: Profile>(
    alloc: Global,
    entries: &[RevokedCert<P>],
) -> Result<Option<CertificateIssuer>, Error>
    ensures { NamesIssuer (last_issuers entries.now) result }
{
    let mut rest = entries;
    while let Some((last, others)) = rest.split_last() {
        if let Some((_, issuer)) = last.get_extension::<CertificateIssuer>(alloc)? {
            return Ok(Some(issuer));
        }
        rest = others;
    }
    Ok(None)
}

/// Whether the name is among the names.
fn has_name(names: &GeneralNames, name: &Name) -> bool
    ensures { result ≡ list_any (λ general. is_directory_name name.now general) names.now }
{
    names
        .as_slice()
        .iter()
        .any(|general| is_directory_name(general, name))
}

/// Whether it is the name.
fn is_directory_name(general: &GeneralName, name: &Name) -> bool
    ensures { result ≡ is_directory_name name.now general.now }
{
    match general {
        GeneralName::DirectoryName(directory) => directory == name,
        _ => false,
    }
}
