//! Building certificates with profiles: the bytes to be signed.

ghost use Rattle.std.specs.Prelude.{◌≡◌, ◌⊎◌, None, Some, if◌then◌else◌, nat_eq, not};
ghost use Rattle.x509_base.specs.SubjectPublicKeyInfo.{subject_public_key_info};
ghost use Rattle.x509_c_calls.specs.Built.{FillsUnrepeated};
ghost use Rattle.x509_c_calls.specs.ProfileInputs.{Inputs, IsDevice, IsRoot, IsSubordinate, IsSubscriber, RefusesDevice, RefusesRoot, RefusesSubordinate, RefusesSubscriber};
ghost use Rattle.x509_c_calls.specs.ProfileParts.{ArePartInputs, BuildsProfile, RefusesPartInputs};
ghost use Rattle.x509_c_calls.specs.Status.{Tells};
ghost use Rattle.x509_der.specs.Form.{Spells};
ghost use Rattle.x509_types.specs.Reencoding.{IsRefused};

use std::alloc::Global;
use x509_build::BuilderProfile;
use x509_build::profile::cabf::Root;
use x509_build::profile::cabf::tls::{Subordinate, Subscriber};
use x509_build::profile::devid::DevId;
use x509_c_calls::{SubscriberUses, build_device, build_root, build_subordinate, build_subscriber};
use x509_cert::certificate::TbsCertificate;
use x509_der::Encode;

/// Puts the bytes to be signed of a root's certificate at the front of the room.
#[unsafe(no_mangle)]
pub extern "C" fn x509_build_root(
    alloc: Global,
    serial_number: &[u8],
    algorithm: &[u8],
    not_before: u64,
    not_after: u64,
    subject: &[u8],
    key: &[u8],
    emits_ocsp_response: u32,
    extensions: &[u8],
    room: &mut [u8],
    written: &mut usize,
) -> i32
    ensures { Tells (λ status. FillsUnrepeated (BuildsProfile (record {
      subject_of = ⟦<Root as BuilderProfile>⟧.subject_of;
      issuer_of =
          ⟦<Root as BuilderProfile>⟧.issuer_of;
      extensions_of = ⟦<Root as BuilderProfile>⟧.extensions_of;
    }) ⟦<TbsCertificate as Encode>⟧.writing
        (Inputs (IsRoot subject.now (not (nat_eq emits_ocsp_response 0)))
        (λ key. Unit {0}) (ArePartInputs serial_number.now algorithm.now not_before not_after key.now extensions.now))
        (λ e. RefusesRoot subject.now e ⊎ RefusesPartInputs serial_number.now algorithm.now not_before not_after key.now extensions.now e))
        room.old room.new written.old written.new status) result }
{
    build_root(
        alloc,
        serial_number,
        algorithm,
        not_before,
        not_after,
        subject,
        key,
        emits_ocsp_response != 0,
        extensions,
        room,
        written,
    )
    .code()
}

/// The path length constraint, where `is_told` isn't 0.
fn length_where_told(is_told: u32, path_len: u32) -> Option<u32>
    ensures { result ≡ (if nat_eq is_told 0 then None else Some path_len) }
{
    if is_told == 0 { None } else { Some(path_len) }
}

/// Puts the bytes to be signed of the certificate of a subordinate authority at the front of the room.
#[unsafe(no_mangle)]
pub extern "C" fn x509_build_subordinate(
    alloc: Global,
    serial_number: &[u8],
    algorithm: &[u8],
    issuer: &[u8],
    issuer_key: &[u8],
    not_before: u64,
    not_after: u64,
    subject: &[u8],
    key: &[u8],
    has_path_len: u32,
    path_len: u32,
    emits_ocsp_response: u32,
    client_auth: u32,
    extensions: &[u8],
    room: &mut [u8],
    written: &mut usize,
) -> i32
    ensures { Tells (λ status. FillsUnrepeated (BuildsProfile (record {
      subject_of = ⟦<Subordinate as BuilderProfile>⟧.subject_of;
      issuer_of =
          ⟦<Subordinate as BuilderProfile>⟧.issuer_of;
      extensions_of = ⟦<Subordinate as BuilderProfile>⟧.extensions_of;
    }) ⟦<TbsCertificate as Encode>⟧.writing
        (Inputs (IsSubordinate issuer.now subject.now (if nat_eq has_path_len 0 then None else Some path_len)
        (not (nat_eq emits_ocsp_response 0)) (not (nat_eq client_auth 0)))
        (λ key. Spells subject_public_key_info key issuer_key.now) (ArePartInputs serial_number.now algorithm.now not_before not_after key.now extensions.now))
        (λ e. RefusesSubordinate issuer.now subject.now (if nat_eq has_path_len 0 then None else Some path_len) e
        ⊎ (IsRefused subject_public_key_info (λ e. ⊥) issuer_key.now e
        ⊎ RefusesPartInputs serial_number.now algorithm.now not_before not_after key.now extensions.now e)))
        room.old room.new written.old written.new status) result }
{
    build_subordinate(
        alloc,
        serial_number,
        algorithm,
        issuer,
        issuer_key,
        not_before,
        not_after,
        subject,
        key,
        length_where_told(has_path_len, path_len),
        emits_ocsp_response != 0,
        client_auth != 0,
        extensions,
        room,
        written,
    )
    .code()
}

/// Puts the bytes to be signed of the certificate of a TLS server at the front of the room.
#[unsafe(no_mangle)]
pub extern "C" fn x509_build_subscriber(
    alloc: Global,
    serial_number: &[u8],
    algorithm: &[u8],
    issuer: &[u8],
    issuer_key: &[u8],
    not_before: u64,
    not_after: u64,
    subject: &[u8],
    key: &[u8],
    client_auth: u32,
    key_encipherment: u32,
    key_agreement: u32,
    data_encipherment: u32,
    extensions: &[u8],
    room: &mut [u8],
    written: &mut usize,
) -> i32
    ensures { Tells (λ status. FillsUnrepeated (BuildsProfile (record {
      subject_of = ⟦<Subscriber as BuilderProfile>⟧.subject_of;
      issuer_of =
          ⟦<Subscriber as BuilderProfile>⟧.issuer_of;
      extensions_of = ⟦<Subscriber as BuilderProfile>⟧.extensions_of;
    }) ⟦<TbsCertificate as Encode>⟧.writing
        (Inputs (IsSubscriber issuer.now subject.now (record {
          client_auth = not (nat_eq client_auth 0);
          key_encipherment = not (nat_eq key_encipherment 0);
          key_agreement = not (nat_eq key_agreement 0);
          data_encipherment = not (nat_eq data_encipherment 0);
        }))
        (λ key. Spells subject_public_key_info key issuer_key.now) (ArePartInputs serial_number.now algorithm.now not_before not_after key.now extensions.now))
        (λ e. RefusesSubscriber issuer.now subject.now e ⊎ (IsRefused subject_public_key_info (λ e. ⊥) issuer_key.now e
        ⊎ RefusesPartInputs serial_number.now algorithm.now not_before not_after key.now extensions.now e)))
        room.old room.new written.old written.new status) result }
{
    let uses = SubscriberUses {
        client_auth: client_auth != 0,
        key_encipherment: key_encipherment != 0,
        key_agreement: key_agreement != 0,
        data_encipherment: data_encipherment != 0,
    };
    build_subscriber(
        alloc,
        serial_number,
        algorithm,
        issuer,
        issuer_key,
        not_before,
        not_after,
        subject,
        key,
        uses,
        extensions,
        room,
        written,
    )
    .code()
}

/// Puts the bytes to be signed of a device's certificate at the front of the room.
#[unsafe(no_mangle)]
pub extern "C" fn x509_build_device(
    alloc: Global,
    serial_number: &[u8],
    algorithm: &[u8],
    issuer: &[u8],
    issuer_key: &[u8],
    not_before: u64,
    not_after: u64,
    subject: &[u8],
    key: &[u8],
    names: &[u8],
    extensions: &[u8],
    room: &mut [u8],
    written: &mut usize,
) -> i32
    ensures { Tells (λ status. FillsUnrepeated (BuildsProfile (record {
      subject_of = ⟦<DevId as BuilderProfile>⟧.subject_of;
      issuer_of =
          ⟦<DevId as BuilderProfile>⟧.issuer_of;
      extensions_of = ⟦<DevId as BuilderProfile>⟧.extensions_of;
    }) ⟦<TbsCertificate as Encode>⟧.writing
        (Inputs (IsDevice issuer.now subject.now names.now) (λ key. Spells subject_public_key_info key issuer_key.now)
        (ArePartInputs serial_number.now algorithm.now not_before not_after key.now extensions.now))
        (λ e. RefusesDevice issuer.now subject.now names.now e ⊎ (IsRefused subject_public_key_info (λ e. ⊥) issuer_key.now e
        ⊎ RefusesPartInputs serial_number.now algorithm.now not_before not_after key.now extensions.now e)))
        room.old room.new written.old written.new status) result }
{
    build_device(
        alloc,
        serial_number,
        algorithm,
        issuer,
        issuer_key,
        not_before,
        not_after,
        subject,
        key,
        names,
        extensions,
        room,
        written,
    )
    .code()
}
