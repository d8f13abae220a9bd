//! Decoding bytes and encoding the value again, names as texts, and paths of certificates.

ghost use Rattle.std.specs.Prelude.{◌≡◌, ◌⊎◌, ℕ, List, Result, Ok, Err, MatchResult};
ghost use Rattle.x509_der.specs.declared.error.ErrorKind.{ErrorKind};
ghost use Rattle.x509_der.specs.declared.error.ErrorKind.TheVariants.{Memory};
ghost use Rattle.x509_codec.specs.declared.profile_name.ProfileName.{ProfileName};

use crate::profile_name::ProfileName;
use crate::signatures::Signatures;
use std::alloc::Global;
use x509_der::Error;

/// The decoders and encoders of the types that have a name.
pub trait Codec {
    /// What the bytes of the type with a name may give under a profile, apart from out of memory: the encoding of the
    /// value that was decoded, or an error.
    ghost reencodes: { List ℕ → ProfileName → List ℕ → Result (List ℕ) ErrorKind → Type 0 };

    /// Decodes the bytes as the type with that name, and encodes the value again.
    ///
    /// # Errors
    ///
    /// Those that `reencodes` has for the bytes; `Memory` when out of memory.
    fn reencode(
        alloc: Global,
        name: &str,
        profile: ProfileName,
        bytes: &[u8],
    ) -> Result<Vec<u8>, Error>
        ensures { MatchResult result
            (λ encoding. reencodes name.now profile bytes.now (Ok encoding.items))
            (λ e. (e.kind ≡ Memory) ⊎ reencodes name.now profile bytes.now (Err e.kind)) };
}

/// The decoder of names to texts, and the encoder of names from texts.
pub trait NameCodec {
    ghost use Rattle.std.specs.Prelude.{string_bytes};
    ghost use Rattle.x509_codec.specs.Answers.{Step};

    /// What the bytes of a name may give, apart from out of memory: the text of the name, or an error.
    ghost prints_name: { Step };

    /// What the text of a name may give, apart from out of memory: the encoding of the name that it says, or an error.
    ghost encodes_name: { Step };

    /// Decodes the bytes as a name, and prints it.
    ///
    /// # Errors
    ///
    /// Those that `prints_name` has for the bytes; `Memory` when out of memory.
    fn print_name(alloc: Global, bytes: &[u8]) -> Result<String, Error>
        ensures { MatchResult result
            (λ text. prints_name bytes.now (Ok (string_bytes text)))
            (λ e. (e.kind ≡ Memory) ⊎ prints_name bytes.now (Err e.kind)) };

    /// Reads a text as a name, and encodes it.
    ///
    /// # Errors
    ///
    /// Those that `encodes_name` has for the text; `Memory` when out of memory.
    fn encode_name(alloc: Global, text: &str) -> Result<Vec<u8>, Error>
        ensures { MatchResult result
            (λ encoding. encodes_name text.now (Ok encoding.items))
            (λ e. (e.kind ≡ Memory) ⊎ encodes_name text.now (Err e.kind)) };
}

/// The checker of paths of certificates.
pub trait PathCodec {
    ghost use Rattle.std.specs.Prelude.{map, string_bytes};
    ghost use Rattle.std.specs.Option.{option_map};
    ghost use Rattle.x509_codec.specs.Answers.{PathStep};
    ghost use Rattle.x509_codec.specs.declared.signatures.Signatures.{Signatures};

    /// What may be said of a path where these signatures are accepted, apart from out of memory: nothing where it holds, else its first
    /// fault; or an error.
    ghost checks_path: { Signatures → PathStep };

    /// The first fault of the certificates, topmost first, at the moment of the text, under the subject and the key of
    /// the anchor's certificate, where these signatures are accepted; `None` where the path holds.
    ///
    /// # Errors
    ///
    /// Those that `checks_path` has; `Memory` when out of memory.
    fn check_path(
        alloc: Global,
        accepted: Signatures,
        moment: &str,
        anchor: &[u8],
        path: &[Vec<u8>],
    ) -> Result<Option<String>, Error>
        ensures { MatchResult result
            (λ fault. checks_path accepted moment.now anchor.now (map (λ certificate. certificate.items) path.now) (Ok (option_map string_bytes fault)))
            (λ e. (e.kind ≡ Memory) ⊎ checks_path accepted moment.now anchor.now (map (λ certificate. certificate.items) path.now) (Err e.kind)) };
}
