//! Checking, validating and finding a path of certificates.

ghost use Rattle.std.specs.Prelude.{[]};
ghost use Rattle.x509_c_calls.specs.PathFinding.{FindsPath};
ghost use Rattle.x509_c_calls.specs.PathValidation.{ValidatesUnderAnchor, ValidatesUnderCertificate, ValidatesUnderKey};
ghost use Rattle.x509_c_calls.specs.Paths.{ChecksPath};
ghost use Rattle.x509_c_calls.specs.Status.{Tells};

use std::alloc::Global;
use x509_base::{Rfc5280, SubjectPublicKeyInfo};
use x509_c_calls::{
    BadLink, Fault, FoundPath, PathAnswer, PathCertificate, PathQuestion, PathSearch, Span,
    path_check, path_find, path_validate, path_validate_under_anchor, path_validate_under_key,
};
use x509_cert::certificate::CertificateInner;
use x509_der::Grammar;
use x509_ext::pkix::{CertificatePolicies, NameConstraints};
use x509_name::name::Name;

/// Checks a path of certificates at a time, in seconds since 1970-01-01T00:00:00Z, under the subject and the key of an
/// anchor's certificate, apart from the signatures, and fills in its first fault.
#[unsafe(no_mangle)]
pub extern "C" fn x509_path_check(
    alloc: Global,
    anchor: &[u8],
    path: &[u8],
    lens: &[usize],
    moment: u64,
    fault: &mut Fault,
) -> i32
    ensures { Tells (λ status. ChecksPath ⟦<CertificateInner<Rfc5280> as Grammar>⟧.refuses anchor.now path.now lens.now moment fault.old fault.new status)
        result }
{
    path_check(alloc, anchor, path, lens, moment, fault).code()
}

/// Validates a path of certificates apart from the signatures, under what an anchor's certificate gives that is trusted, and
/// fills in its first fault, or where the subject and the key of its last certificate stand; its policies go into the buffer,
/// where they fit.
#[unsafe(no_mangle)]
pub extern "C" fn x509_path_validate(
    alloc: Global,
    anchor: &[u8],
    path: &[u8],
    lens: &[usize],
    name_constraints: &[u8],
    policies: &[u8],
    settings: &[u8],
    room: &mut [u8],
    answer: &mut PathAnswer,
) -> i32
    ensures { Tells (λ status. ValidatesUnderCertificate ⟦<CertificateInner<Rfc5280> as Grammar>⟧.refuses ⟦<NameConstraints as Grammar>⟧.refuses
        ⟦<CertificatePolicies as Grammar>⟧.refuses anchor.now
        (record { path = path.entry; lens = lens.entry; name_constraints = name_constraints.entry; policies = policies.entry; settings = settings.entry })
        (record { room = room.old; answer = answer.old; certificates = [] }) (record { room = room.new; answer = answer.new; certificates = [] }) status)
        result }
{
    let question = PathQuestion {
        path,
        lens,
        name_constraints,
        policies,
        settings,
    };
    path_validate(alloc, anchor, &question, room, answer, &mut []).code()
}

/// Validates a path under a name and a public key that are trusted.
#[unsafe(no_mangle)]
pub extern "C" fn x509_path_validate_under_key(
    alloc: Global,
    name: &[u8],
    key: &[u8],
    path: &[u8],
    lens: &[usize],
    name_constraints: &[u8],
    policies: &[u8],
    settings: &[u8],
    room: &mut [u8],
    answer: &mut PathAnswer,
) -> i32
    ensures { Tells (λ status. ValidatesUnderKey ⟦<Name as Grammar>⟧.refuses ⟦<SubjectPublicKeyInfo as Grammar>⟧.refuses ⟦<NameConstraints as Grammar>⟧.refuses
        ⟦<CertificatePolicies as Grammar>⟧.refuses name.now key.now
        (record { path = path.entry; lens = lens.entry; name_constraints = name_constraints.entry; policies = policies.entry; settings = settings.entry })
        (record { room = room.old; answer = answer.old; certificates = [] }) (record { room = room.new; answer = answer.new; certificates = [] }) status)
        result }
{
    let question = PathQuestion {
        path,
        lens,
        name_constraints,
        policies,
        settings,
    };
    path_validate_under_key(alloc, name, key, &question, room, answer, &mut []).code()
}

/// Validates a path under what a trust anchor gives that is trusted.
#[unsafe(no_mangle)]
pub extern "C" fn x509_path_validate_under_anchor(
    alloc: Global,
    anchor: &[u8],
    path: &[u8],
    lens: &[usize],
    name_constraints: &[u8],
    policies: &[u8],
    settings: &[u8],
    room: &mut [u8],
    answer: &mut PathAnswer,
) -> i32
    ensures { Tells (λ status. ValidatesUnderAnchor ⟦<NameConstraints as Grammar>⟧.refuses ⟦<CertificatePolicies as Grammar>⟧.refuses anchor.now
        (record { path = path.entry; lens = lens.entry; name_constraints = name_constraints.entry; policies = policies.entry; settings = settings.entry })
        (record { room = room.old; answer = answer.old; certificates = [] }) (record { room = room.new; answer = answer.new; certificates = [] }) status)
        result }
{
    let question = PathQuestion {
        path,
        lens,
        name_constraints,
        policies,
        settings,
    };
    path_validate_under_anchor(alloc, anchor, &question, room, answer, &mut []).code()
}

/// As [`x509_path_validate`], and of a valid path what each certificate says, and what is to be verified of it, is filled in where all fit.
#[unsafe(no_mangle)]
pub extern "C" fn x509_path_validate_views(
    alloc: Global,
    anchor: &[u8],
    path: &[u8],
    lens: &[usize],
    name_constraints: &[u8],
    policies: &[u8],
    settings: &[u8],
    room: &mut [u8],
    answer: &mut PathAnswer,
    certificates: &mut [PathCertificate],
) -> i32
    ensures { Tells (λ status. ValidatesUnderCertificate ⟦<CertificateInner<Rfc5280> as Grammar>⟧.refuses ⟦<NameConstraints as Grammar>⟧.refuses
        ⟦<CertificatePolicies as Grammar>⟧.refuses anchor.now
        (record { path = path.entry; lens = lens.entry; name_constraints = name_constraints.entry; policies = policies.entry; settings = settings.entry })
        (record { room = room.old; answer = answer.old; certificates = certificates.old }) (record { room = room.new; answer = answer.new; certificates = certificates.new }) status)
        result }
{
    let question = PathQuestion {
        path,
        lens,
        name_constraints,
        policies,
        settings,
    };
    path_validate(alloc, anchor, &question, room, answer, certificates).code()
}

/// Says what each certificate of a valid path holds, under a name and a public key that are trusted.
#[unsafe(no_mangle)]
pub extern "C" fn x509_path_validate_views_under_key(
    alloc: Global,
    name: &[u8],
    key: &[u8],
    path: &[u8],
    lens: &[usize],
    name_constraints: &[u8],
    policies: &[u8],
    settings: &[u8],
    room: &mut [u8],
    answer: &mut PathAnswer,
    certificates: &mut [PathCertificate],
) -> i32
    ensures { Tells (λ status. ValidatesUnderKey ⟦<Name as Grammar>⟧.refuses ⟦<SubjectPublicKeyInfo as Grammar>⟧.refuses ⟦<NameConstraints as Grammar>⟧.refuses
        ⟦<CertificatePolicies as Grammar>⟧.refuses name.now key.now
        (record { path = path.entry; lens = lens.entry; name_constraints = name_constraints.entry; policies = policies.entry; settings = settings.entry })
        (record { room = room.old; answer = answer.old; certificates = certificates.old }) (record { room = room.new; answer = answer.new; certificates = certificates.new }) status)
        result }
{
    let question = PathQuestion {
        path,
        lens,
        name_constraints,
        policies,
        settings,
    };
    path_validate_under_key(alloc, name, key, &question, room, answer, certificates).code()
}

/// Says what each certificate of a valid path holds, under what a trust anchor gives that is trusted.
#[unsafe(no_mangle)]
pub extern "C" fn x509_path_validate_views_under_anchor(
    alloc: Global,
    anchor: &[u8],
    path: &[u8],
    lens: &[usize],
    name_constraints: &[u8],
    policies: &[u8],
    settings: &[u8],
    room: &mut [u8],
    answer: &mut PathAnswer,
    certificates: &mut [PathCertificate],
) -> i32
    ensures { Tells (λ status. ValidatesUnderAnchor ⟦<NameConstraints as Grammar>⟧.refuses ⟦<CertificatePolicies as Grammar>⟧.refuses anchor.now
        (record { path = path.entry; lens = lens.entry; name_constraints = name_constraints.entry; policies = policies.entry; settings = settings.entry })
        (record { room = room.old; answer = answer.old; certificates = certificates.old }) (record { room = room.new; answer = answer.new; certificates = certificates.new }) status)
        result }
{
    let question = PathQuestion {
        path,
        lens,
        name_constraints,
        policies,
        settings,
    };
    path_validate_under_anchor(alloc, anchor, &question, room, answer, certificates).code()
}

/// Finds a path from one of the anchors over candidates to a certificate, apart from the signatures, of which those are listed that don't
/// hold. All of them are parts of the input.
#[unsafe(no_mangle)]
pub extern "C" fn x509_path_find(
    alloc: Global,
    input: &[u8],
    anchors: &[Span],
    candidates: &[Span],
    leaf: &Span,
    bad: &[BadLink],
    name_constraints: &[u8],
    policies: &[u8],
    settings: &[u8],
    max_depth: u32,
    path: &mut [usize],
    found: &mut FoundPath,
) -> i32
    ensures { Tells (λ status. FindsPath (record {
      certificate = ⟦<CertificateInner<Rfc5280> as Grammar>⟧.refuses;
      key = ⟦<SubjectPublicKeyInfo as Grammar>⟧.refuses;
      constraints = ⟦<NameConstraints as Grammar>⟧.refuses;
      policies = ⟦<CertificatePolicies as Grammar>⟧.refuses;
    }) (record {
      bytes = input.entry;
      anchors = anchors.entry;
      candidates = candidates.entry;
      leaf = leaf.now;
      bad = bad.entry;
      name_constraints = name_constraints.entry;
      policies = policies.entry;
      settings = settings.entry;
      max_depth = max_depth;
    }) (record { path = path.old; found = found.old }) (record { path = path.new; found = found.new }) status) result }
{
    let search = PathSearch {
        bytes: input,
        anchors,
        candidates,
        leaf: *leaf,
        bad,
        name_constraints,
        policies,
        settings,
        max_depth,
    };
    path_find(alloc, &search, path, found).code()
}
