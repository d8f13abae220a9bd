//! What every builder does.

use crate::Result;
use crate::signer::Signer;
use rand_core::CryptoRng;
use std::alloc::Global;
use x509_der::Encode;
use x509_prim::BitString;

/// A builder of something signed: a certificate, a CRL, or a CSR.
///
/// [`finalize`](Builder::finalize) computes the signed part for a signer and answers the bytes that are to be signed;
/// [`assemble`](Builder::assemble) puts the part and a signature together. [`build`](Builder::build) is both, with a
/// signature of the signer between them.
pub trait Builder: Sized + Drop {
    ghost use Rattle.std.specs.Prelude.{◌≡◌, ◌⊎◌, ℕ, List, IfOk, IfErr, OnOk, OnErr};
    ghost use Rattle.x509_base.specs.declared.algorithm_identifier.AlgorithmIdentifier.{AlgorithmIdentifier};
    ghost use Rattle.x509_base.specs.declared.subject_public_key_info.SubjectPublicKeyInfo.{SubjectPublicKeyInfo};
    ghost use Rattle.x509_prim.specs.BitString.{BitParts};
    ghost use Rattle.x509_build.specs.Answer.{Answer, IsSame};
    ghost use Rattle.x509_build.specs.Parts.{Encodes, PartRefuses};
    ghost use Rattle.x509_build.specs.Refusals.{LacksMemory, ByKey, BySigning};

    /// What is built.
    type Output;

    /// The part of it that is signed.
    type Signed: Encode;

    /// The signed part as it stands: that of the last `finalize` or `finalize_once`, and before any the part with which
    /// the builder was made.
    ghost current: { Self → Self.Signed };

    /// The signed part that `finalize` makes for a signer with that algorithm and that key.
    ghost next: { Self → AlgorithmIdentifier → SubjectPublicKeyInfo → Answer Self.Signed };

    /// What a `finalize` keeps of a builder, beside the current part: what was handed in is unchanged.
    ghost keeps: { Self → Self → Type 0 };

    /// Whether `finalize` asks the signer for its algorithm.
    ghost asks_algorithm: { Type 0 };

    /// Whether `finalize` asks the signer for its public key.
    ghost asks_key: { Type 0 };

    /// Whether `assemble` asks the signer for its algorithm.
    ghost assembles_by_algorithm: { Type 0 };

    /// What is put together of a signed part, the algorithm of the signer and the bits of the signature.
    ghost whole: { Self.Signed → AlgorithmIdentifier → BitParts → Self.Output };

    /// Computes the signed part anew from what was handed in and from the signer's algorithm and key, and answers its
    /// encoding: the bytes that are to be signed. A further call with the same signer gives the same bytes.
    ///
    /// # Errors
    ///
    /// `PublicKey` of the signer's error for its algorithm or its public key, where that is asked for; the profile's
    /// errors; `Asn1` where the signed part can't be made or encoded. `Memory`, within these, when out of memory. On an
    /// error the builder is unchanged.
    fn finalize<S: Signer>(&mut self, alloc: Global, signer: &S) -> Result<Vec<u8>>
        ensures ok { IfOk result (λ bytes. Encodes Self.Signed.form Self.Signed.writing
            (next self.old (S.algorithm_of signer.now) (S.key_of signer.now)) bytes.items) }
        ensures part { OnOk result (current self.new ≡ (next self.old (S.algorithm_of signer.now) (S.key_of signer.now)).value) }
        ensures again { OnOk result ((algorithm : AlgorithmIdentifier) (key : SubjectPublicKeyInfo)
            → IsSame (next self.new algorithm key) (next self.old algorithm key)) }
        ensures kept { OnOk result (keeps self.old self.new) }
        ensures err { IfErr result (λ e. ((asks_algorithm × ByKey (S.may_refuse_algorithm signer.now) e)
            ⊎ (asks_key × ByKey (S.may_refuse_key signer.now) e)) ⊎ PartRefuses Self.Signed.form Self.Signed.writing
            (next self.old (S.algorithm_of signer.now) (S.key_of signer.now)) e) }
        ensures unchanged { OnErr result (self.new ≡ self.old) };

    /// As [`finalize`](Builder::finalize), of a builder that makes nothing else: it may move into the signed part what
    /// `finalize` copies. The builder that comes back has the part and is for [`assemble`](Builder::assemble) alone; what
    /// a further `finalize` of it makes isn't said.
    ///
    /// # Errors
    ///
    /// Those of `finalize`; then the builder is dropped.
    fn finalize_once<S: Signer>(mut self, alloc: Global, signer: &S) -> Result<(Self, Vec<u8>)>
        ensures ok { IfOk result (λ made. Encodes Self.Signed.form Self.Signed.writing
            (next self (S.algorithm_of signer.now) (S.key_of signer.now)) made.1.items) }
        ensures part { IfOk result (λ made. current made.0 ≡ (next self (S.algorithm_of signer.now) (S.key_of signer.now)).value) }
        ensures err { IfErr result (λ e. ((asks_algorithm × ByKey (S.may_refuse_algorithm signer.now) e)
            ⊎ (asks_key × ByKey (S.may_refuse_key signer.now) e)) ⊎ PartRefuses Self.Signed.form Self.Signed.writing
            (next self (S.algorithm_of signer.now) (S.key_of signer.now)) e) }
    {
        let message = self.finalize(alloc, signer)?;
        Ok((self, message))
    }

    /// Puts the signed part of the last `finalize` or `finalize_once` and the signature together; before any that is the
    /// part with which the builder was made. That the signature is one of that part isn't checked.
    ///
    /// # Errors
    ///
    /// `PublicKey` of the signer's error for its algorithm, where that is asked for. `Asn1` of `Memory` when out of
    /// memory.
    fn assemble<S: Signer>(
        self,
        alloc: Global,
        signature: BitString,
        signer: &S,
    ) -> Result<Self::Output>
        ensures ok { IfOk result (λ output. output ≡ whole (current self) (S.algorithm_of signer.now) signature) }
        ensures err { IfErr result (λ e. (assembles_by_algorithm × ByKey (S.may_refuse_algorithm signer.now) e) ⊎ LacksMemory e) };

    /// Computes the signed part for the signer, has it sign the encoding, and puts both together.
    ///
    /// # Errors
    ///
    /// Those of `finalize` and of `assemble`, and `Signature` of the signer's error for the encoding.
    final fn build<S: Signer>(mut self, alloc: Global, signer: &S) -> Result<Self::Output>
        ensures ok { IfOk result (λ output. (message : List ℕ) × (bits : BitParts)
            × Encodes Self.Signed.form Self.Signed.writing (next self (S.algorithm_of signer.now) (S.key_of signer.now)) message
            × S.signs signer.now message bits × (output ≡ whole (next self (S.algorithm_of signer.now) (S.key_of signer.now)).value
            (S.algorithm_of signer.now) bits)) }
        ensures err { IfErr result (λ e. (((asks_algorithm ⊎ assembles_by_algorithm) × ByKey (S.may_refuse_algorithm signer.now) e)
            ⊎ (asks_key × ByKey (S.may_refuse_key signer.now) e)) ⊎ (PartRefuses Self.Signed.form Self.Signed.writing
            (next self (S.algorithm_of signer.now) (S.key_of signer.now)) e
            ⊎ ((message : List ℕ) × Encodes Self.Signed.form Self.Signed.writing (next self (S.algorithm_of signer.now) (S.key_of signer.now)) message
            × BySigning (S.may_refuse_message signer.now message) e))) }
    {
        let (builder, message) = self.finalize_once(alloc, signer)?;
        let signature = signer.try_sign(alloc, message.as_slice())?;
        builder.assemble(alloc, signature, signer)
    }

    /// As `build`, with a signature for which the signer may take random bytes.
    ///
    /// # Errors
    ///
    /// Those of `build`.
    final fn build_with_rng<S: Signer, R: CryptoRng>(
        mut self,
        alloc: Global,
        signer: &S,
        rng: &mut R,
    ) -> Result<Self::Output>
        ensures ok { IfOk result (λ output. (message : List ℕ) × (bits : BitParts)
            × Encodes Self.Signed.form Self.Signed.writing (next self (S.algorithm_of signer.now) (S.key_of signer.now)) message
            × S.signs_with_rng signer.now message bits × (output ≡ whole (next self (S.algorithm_of signer.now) (S.key_of signer.now)).value
            (S.algorithm_of signer.now) bits)) }
        ensures err { IfErr result (λ e. (((asks_algorithm ⊎ assembles_by_algorithm) × ByKey (S.may_refuse_algorithm signer.now) e)
            ⊎ (asks_key × ByKey (S.may_refuse_key signer.now) e)) ⊎ (PartRefuses Self.Signed.form Self.Signed.writing
            (next self (S.algorithm_of signer.now) (S.key_of signer.now)) e
            ⊎ ((message : List ℕ) × Encodes Self.Signed.form Self.Signed.writing (next self (S.algorithm_of signer.now) (S.key_of signer.now)) message
            × BySigning (S.may_refuse_message signer.now message) e))) }
    {
        let (builder, message) = self.finalize_once(alloc, signer)?;
        let signature = signer.try_sign_with_rng(alloc, rng, message.as_slice())?;
        builder.assemble(alloc, signature, signer)
    }
}
