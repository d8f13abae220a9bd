//! Pieces of the document of a CRL.

ghost use Rattle.std.specs.Prelude.{◌≡◌, ◌<◌, ◌++◌, length, IfOk, IsOk, string_bytes};
ghost use Rattle.x509_text.specs.Pieces as pieces;
ghost use Rattle.x509_crl_index.specs.Split.{read_entries};

use crate::crls::write_signature;
use crate::line::{Depth, Place, Style, closing, write_opening};
use crate::show::Show;
use std::alloc::{AllocError, Global};
use x509_base::Raw;
use x509_cert::crl::{CertificateList, RevokedCert};
use x509_der::read_field;

/// How many bytes of entries make a piece: no entry is begun behind as many.
const PIECE: usize = 8192;

/// What stands in front of the entries.
pub(crate) fn front_piece(
    alloc: Global,
    style: Style,
    crl: &CertificateList<Raw>,
) -> Result<String, AllocError>
    ensures { IfOk result (λ text. string_bytes text ≡ pieces.front_text style crl.now) }
{
    let mut text = String::new(alloc);
    write_opening(alloc, style, "CRL", &mut text)?;
    let top = Place {
        style,
        depth: Depth::First,
    };
    crl.tbs_cert_list.show(alloc, top, &mut text)?;
    Ok(text)
}

/// What stands behind the entries.
pub(crate) fn behind_piece(
    alloc: Global,
    style: Style,
    crl: &CertificateList<Raw>,
) -> Result<String, AllocError>
    ensures { IfOk result (λ text. string_bytes text ≡ pieces.behind_text style crl.now) }
{
    let mut text = String::new(alloc);
    let top = Place {
        style,
        depth: Depth::First,
    };
    write_signature(alloc, top, crl, &mut text)?;
    text.push_str(closing(style))?;
    Ok(text)
}

/// The lines of some of the entries, the first at least, and the elements of the others.
pub(crate) fn entries_piece(
    alloc: Global,
    at: Place,
    octets: &[u8],
) -> Result<(String, &[u8]), AllocError>
    requires { IsOk (read_entries octets.now) }
    ensures lines { IfOk result (λ piece. pieces.elements_lines at octets.now ≡ string_bytes piece.0 ++ pieces.elements_lines at piece.1.now) }
    ensures others { IfOk result (λ piece. IsOk (read_entries piece.1.now)) }
    ensures fewer { 0 < length octets.now → IfOk result (λ piece. length piece.1.now < length octets.now) }
{
    let mut text = String::new(alloc);
    let mut rest = octets;
    while !rest.is_empty() && text.len() < PIECE {
        match read_field::<RevokedCert<Raw>>(alloc, &mut rest) {
            Ok(entry) => entry.show(alloc, at, &mut text)?,
            // The entries were read before, so there is no memory.
            Err(_) => return Err(AllocError),
        }
    }
    Ok((text, rest))
}
