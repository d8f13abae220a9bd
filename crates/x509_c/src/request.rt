//! What a CSR says.

ghost use Rattle.std.specs.Prelude.{◌≡◌, []};
ghost use Rattle.x509_c_calls.specs.AskedExtensions.{LooksUpAsked};
ghost use Rattle.x509_c_calls.specs.Cursor.{Steps};
ghost use Rattle.x509_c_calls.specs.Elements.{IsElement};
ghost use Rattle.x509_c_calls.specs.RequestAttributes.{IsRequestAttribute, LooksUpAttribute};
ghost use Rattle.x509_c_calls.specs.RequestView.{IsRequest};
ghost use Rattle.x509_c_calls.specs.Calls.{Reads};
ghost use Rattle.x509_c_calls.specs.Status.{Tells};
ghost use Rattle.x509_c_calls.specs.declared.status.status.Status.TheVariants.{Refused};
ghost use Rattle.x509_der.specs.declared.error.ErrorKind.TheVariants.{Memory};

use std::alloc::Global;
use x509_c_calls::{
    ElementView, RequestAttributeView, RequestView, Span, member_next, member_under_next,
    request_attribute, request_extensions, request_view,
};
use x509_cert::request::CertReq;
use x509_der::{Any, Decode, Grammar, Tag};
use x509_name::attr::Attribute;

/// Checks a CSR, and fills in what it says and where its parts stand. It takes no memory.
#[unsafe(no_mangle)]
pub extern "C" fn x509_request_view(input: &[u8], view: &mut RequestView) -> i32
    ensures { Tells (λ status. Reads ⟦<CertReq as Grammar>⟧.form ⟦<CertReq as Grammar>⟧.refuses input.now
        (λ request. IsRequest input.now request [] view.new) (view.new ≡ view.old) status × (status ≡ Refused Memory → ⊥)) result }
{
    request_view(input, view).code()
}

/// Fills in the next attribute of the attributes of a CSR.
#[unsafe(no_mangle)]
pub extern "C" fn x509_request_attribute_next(
    alloc: Global,
    input: &[u8],
    at: &mut usize,
    found: &mut RequestAttributeView,
) -> i32
    ensures { Tells (λ status. Steps ⟦<Attribute as Grammar>⟧.form ⟦<Attribute as Grammar>⟧.refuses ⟦<Attribute as Decode>⟧.wants_memory 160 input.now
        at.old at.new (λ attribute behind span. IsRequestAttribute input.now attribute behind found.new) (found.new ≡ found.old) status) result }
{
    member_under_next::<RequestAttributeView>(alloc, 0, input, at, found).code()
}

/// Fills in the next attribute of a SubjectDirectoryAttributes.
#[unsafe(no_mangle)]
pub extern "C" fn x509_subject_directory_attributes_next(
    alloc: Global,
    input: &[u8],
    at: &mut usize,
    found: &mut RequestAttributeView,
) -> i32
    ensures { Tells (λ status. Steps ⟦<Attribute as Grammar>⟧.form ⟦<Attribute as Grammar>⟧.refuses ⟦<Attribute as Decode>⟧.wants_memory 48 input.now
        at.old at.new (λ attribute behind span. IsRequestAttribute input.now attribute behind found.new) (found.new ≡ found.old) status) result }
{
    member_next::<RequestAttributeView>(alloc, Tag::Sequence, input, at, found).code()
}

/// Fills in the next value of a set of values.
#[unsafe(no_mangle)]
pub extern "C" fn x509_attribute_value_next(
    alloc: Global,
    input: &[u8],
    at: &mut usize,
    found: &mut ElementView,
) -> i32
    ensures { Tells (λ status. Steps ⟦<Any as Grammar>⟧.form ⟦<Any as Grammar>⟧.refuses ⟦<Any as Decode>⟧.wants_memory 49 input.now at.old at.new
        (λ value behind span. IsElement input.now value behind found.new) (found.new ≡ found.old) status) result }
{
    member_next::<ElementView>(alloc, Tag::Set, input, at, found).code()
}

/// Decodes a CSR, and fills in its attribute of the type that has an OID with these content octets.
#[unsafe(no_mangle)]
pub extern "C" fn x509_request_attribute_find(
    alloc: Global,
    input: &[u8],
    oid: &[u8],
    found: &mut RequestAttributeView,
) -> i32
    ensures { Tells (λ status. LooksUpAttribute ⟦<CertReq as Grammar>⟧.form ⟦<CertReq as Grammar>⟧.refuses input.now oid.now found.old found.new status)
        result }
{
    request_attribute(alloc, input, oid, found).code()
}

/// Decodes a CSR, and fills in where the extensions stand that it asks for.
#[unsafe(no_mangle)]
pub extern "C" fn x509_request_extensions(alloc: Global, input: &[u8], found: &mut Span) -> i32
    ensures { Tells (λ status. LooksUpAsked ⟦<CertReq as Grammar>⟧.form ⟦<CertReq as Grammar>⟧.refuses input.now found.old found.new status) result }
{
    request_extensions(alloc, input, found).code()
}
