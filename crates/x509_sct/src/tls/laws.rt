//! What holds of all types with a TLS encoding. Each law is a function with an empty body, whose contract is the law.

ghost use Rattle.std.specs.Prelude.{◌≡◌, ◌↔◌, ◌++◌, ◌⊎◌, List, ℕ, true};
ghost use Rattle.x509_sct.specs.declared.tls.error.TlsError.{TlsError};
ghost use Rattle.x509_sct.specs.Form.{AreOctets, Begins};
ghost use Rattle.x509_sct.specs.Lists.{IsList};
ghost use Rattle.x509_sct.specs.Numbers.{uint16};

use crate::tls::error::TlsError;
use crate::tls::list::TlsItem;
use crate::tls::tls::Tls;
use crate::tls::vector::TlsByteVecU16;

/// No value's bytes begin those of another, and no two values have the same bytes.
pub fn one_value_in_front<T: Tls>()
    ensures { (v w : T) (x y : List ℕ) → T.form.good v → T.form.good w → T.form.bytes v ++ x ≡ T.form.bytes w ++ y → (v ≡ w) × (x ≡ y) }
{}

/// Bytes begin with the encoding of a value, or have a first error.
pub fn a_value_or_a_fault<T: Tls>()
    ensures { (input : List ℕ) → AreOctets input → ((x : T × List ℕ) × Begins T.form x.0 x.1 input) ⊎ ((e : TlsError) × T.form.fault input e) }
{}

/// Bytes that begin with the encoding of a value have no first error, and no bytes have two.
pub fn one_fault<T: Tls>()
    ensures none { (input : List ℕ) (v : T) (rest : List ℕ) (e : TlsError) → Begins T.form v rest input → T.form.fault input e → ⊥ }
    ensures one { (input : List ℕ) (d e : TlsError) → T.form.fault input d → T.form.fault input e → d ≡ e }
{}

/// No two lists have the same bytes, and no list has two.
pub fn one_list<T: TlsItem>()
    ensures items { (items others : List T) (bytes : List ℕ) → IsList uint16 T.form items bytes → IsList uint16 T.form others bytes → items ≡ others }
    ensures bytes { (items : List T) (bytes others : List ℕ) → IsList uint16 T.form items bytes → IsList uint16 T.form items others → bytes ≡ others }
{}

/// `==` holds exactly of vectors of the same bytes, and of errors of the same kind.
pub fn equality_of_vectors_is_exact()
    ensures vectors { (a b : List ℕ) → (⟦<TlsByteVecU16 as PartialEq>⟧.eq a b ≡ true) ↔ (a ≡ b) }
    ensures errors { (a b : TlsError) → (⟦<TlsError as PartialEq>⟧.eq a b ≡ true) ↔ (a ≡ b) }
{}
