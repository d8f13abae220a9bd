//! The fields that are walked are those of the grammar: they are all read, one behind the other and with nothing behind them, exactly where the content of
//! what they stand in is read. Each law is a function with an empty body, whose contract is the law.

ghost use Rattle.std.specs.Prelude.{◌↔◌, IsOk, List, ℕ};
ghost use Rattle.x509_base.specs.Validity.{validity_contents};
ghost use Rattle.x509_base.specs.declared.profile.Raw.{Raw};
ghost use Rattle.x509_cert.specs.CertReq.{cert_req_contents, cert_req_info_contents};
ghost use Rattle.x509_cert.specs.Certificate.{certificate_contents};
ghost use Rattle.x509_cert.specs.CertificateList.{certificate_list_contents, tbs_cert_list_contents};
ghost use Rattle.x509_cert.specs.Respelling.{no_check};
ghost use Rattle.x509_cert.specs.TbsCertificate.{tbs_certificate_contents};
ghost use Rattle.x509_refusal.specs.Unread.{AreRead};
ghost use Rattle.x509_refusal.specs.declared.field.Field.TheVariants as fields;

/// Those of certificates, signed parts and validities (RFC 5280 4.1).
pub fn fields_of_certificates()
    ensures certificate { (octets : List ℕ) → AreRead fields.Certificate octets ↔ IsOk ((certificate_contents {P = Raw} no_check).reading octets) }
    ensures signed_part { (octets : List ℕ) → AreRead fields.TbsCertificate octets ↔ IsOk ((tbs_certificate_contents {P = Raw} no_check).reading octets) }
    ensures validity { (octets : List ℕ) → AreRead fields.Validity octets ↔ IsOk ((validity_contents {P = Raw}).reading octets) }
{}

/// Those of CRLs and signed parts (RFC 5280 5.1).
pub fn fields_of_crls()
    ensures crl { (octets : List ℕ) → AreRead fields.CertificateList octets ↔ IsOk ((certificate_list_contents {P = Raw} no_check).reading octets) }
    ensures signed_part { (octets : List ℕ) → AreRead fields.TbsCertList octets ↔ IsOk ((tbs_cert_list_contents {P = Raw} no_check).reading octets) }
{}

/// Those of CSRs and signed parts (RFC 2986 4).
pub fn fields_of_requests()
    ensures request { (octets : List ℕ) → AreRead fields.CertificationRequest octets ↔ IsOk (cert_req_contents.reading octets) }
    ensures signed_part { (octets : List ℕ) → AreRead fields.CertificationRequestInfo octets ↔ IsOk (cert_req_info_contents.reading octets) }
{}
