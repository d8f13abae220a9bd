//! What holds of what logs sign. Each law is a function with an empty body, whose contract is the law.

ghost use Rattle.std.specs.Prelude.{◌≡◌, List, ℕ};
ghost use Rattle.x509_cert.specs.declared.certificate.tbs_certificate.TbsCertificateInner as part;
ghost use Rattle.x509_der.specs.Form.{Spells};
ghost use Rattle.x509_log.specs.Logged.{AgreeButFor, without_poison, without_timestamps};

use x509_base::Profile;
use x509_cert::certificate::TbsCertificateInner;
use x509_der::Grammar;

/// Where a certificate and a precertificate agree but for the SCTs and the poison, what a log signs of them are the same bytes, by whichever
/// they were made; and where these are the same bytes, the two agree.
pub fn certificate_and_precertificate_are_signed_alike<P: Profile>()
    ensures same { (certificate precertificate : part.TbsCertificateInner P) (a b : List ℕ) → AgreeButFor certificate precertificate
        → Spells ⟦<TbsCertificateInner<P> as Grammar>⟧.form (without_timestamps certificate) a
        → Spells ⟦<TbsCertificateInner<P> as Grammar>⟧.form (without_poison precertificate) b → a ≡ b }
    ensures only { (certificate precertificate : part.TbsCertificateInner P) (a : List ℕ)
        → Spells ⟦<TbsCertificateInner<P> as Grammar>⟧.form (without_timestamps certificate) a
        → Spells ⟦<TbsCertificateInner<P> as Grammar>⟧.form (without_poison precertificate) a → AgreeButFor certificate precertificate }
{}
