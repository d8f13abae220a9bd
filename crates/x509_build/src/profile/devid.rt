//! The profile of devices (IEEE 802.1AR).

ghost use Rattle.std.specs.Option.{option_copied, option_map};
ghost use Rattle.std.specs.Prelude.{◌≡◌, [], ◌∷◌, Some, IfOk, IfErr, MatchResult};
ghost use Rattle.x509_build.specs.Modules as modules;
ghost use Rattle.x509_ext.specs.HardwareModuleName.{IsModuleIn, id_on_hardware_module_name};
ghost use Rattle.x509_ext.specs.declared.pkix.name.general_name.GeneralName.TheVariants as names;
ghost use Rattle.x509_ext.specs.declared.pkix.name.other_name.OtherName as others;

use crate::Result;
use crate::profile::BuilderProfile;
use crate::profile::lists::{push_alternative_names, push_authority_key, push_key_usage};
use std::alloc::Global;
use x509_base::SubjectPublicKeyInfoRef;
use x509_cert::certificate::TbsCertificate;
use x509_der::{Error as DerError, ErrorKind, ObjectIdentifier, SequenceOf, TryClone};
use x509_ext::Extension;
use x509_ext::pkix::name::{
    GeneralName, GeneralNames, HardwareModuleName, ID_ON_HARDWARE_MODULE_NAME, OtherName,
};
use x509_ext::pkix::{KeyUsages, SubjectAltName};
use x509_name::name::Name;
use x509_prim::OctetString;

/// Types of trusted platform modules (Trusted Computing Group).
pub mod tcgtpm {
    use x509_der::{ObjectIdentifier, oid};

    /// A module of version 1.2: tcg-sv-tpm12, 2.23.133.1.0.
    pub const TCG_SV_TPM_12: ObjectIdentifier = oid!(0x67, 0x81, 0x05, 0x01, 0x00);

    /// A module of version 2.0: tcg-sv-tpm20, 2.23.133.1.2.
    pub const TCG_SV_TPM_20: ObjectIdentifier = oid!(0x67, 0x81, 0x05, 0x01, 0x02);
}

/// The version of a trusted platform module.
#[derive(Clone, Copy, Debug, PartialEq, Eq)]
pub enum TpmVersion {
    /// Version 1.2.
    Tpm12,

    /// Version 2.0.
    Tpm20,

    /// Another type of module.
    Other(ObjectIdentifier),
}

impl TpmVersion {
    /// The version as the OID of a type of module.
    #[tactic(auto, unfolding(crate::specs::Modules::tpm_12, crate::specs::Modules::tpm_20, x509_der::specs::Arcs::subidentifier))]
    pub fn to_oid(&self) -> ObjectIdentifier
        ensures { result ≡ modules.type_of_module self.now }
    {
        match self {
            TpmVersion::Tpm12 => tcgtpm::TCG_SV_TPM_12,
            TpmVersion::Tpm20 => tcgtpm::TCG_SV_TPM_20,
            TpmVersion::Other(oid) => *oid,
        }
    }
}

impl TryClone for TpmVersion {
    ghost use Rattle.std.specs.Prelude.{Ok};

    fn try_clone(&self, _alloc: Global) -> std::result::Result<TpmVersion, DerError>
        ensures { result ≡ Ok self.now }
    {
        Ok(*self)
    }
}

/// The profile of a device (IEEE 802.1AR 8).
///
/// Its certificates have these extensions, in this order: AKI of the issuer's key; KeyUsage with digitalSignature; SAN
/// where names were given.
pub struct DevId {
    /// The issuer of the certificate.
    pub issuer: Name,

    subject: Name,

    subject_alt_name: Option<SubjectAltName>,
}

impl Drop for DevId {
    fn drop(self) {
        let DevId {
            issuer: _,
            subject: _,
            subject_alt_name: _,
        } = self;
    }
}

/// The first name whose OID says that it is the name of a hardware module.
fn first_module(mut names: &[GeneralName]) -> Option<&OtherName>
    ensures { option_copied result ≡ modules.first_module names.entry.now }
{
    while let [name, rest @ ..] = names {
        if let GeneralName::OtherName(other) = name
            && other.type_id == ID_ON_HARDWARE_MODULE_NAME
        {
            return Some(other);
        }
        names = rest;
    }
    None
}

/// That the first of these names with that OID is the name of a hardware module.
fn check_module(alloc: Global, names: &[GeneralName]) -> std::result::Result<(), DerError>
    ensures { MatchResult result (λ done. modules.HasModule (modules.first_module names.now)) (λ e. modules.NoModule (modules.first_module names.now) e.kind) }
{
    let Some(other) = first_module(names) else {
        return Err(ErrorKind::Failed.into());
    };
    let _module = HardwareModuleName::from_other_name(alloc, other)?;
    Ok(())
}

impl DevId {
    /// The profile of that device. Where alternative names are given, one of them has to be the name of a hardware
    /// module ([`HardwareModuleName`]): the first [`OtherName`] with its OID decides. Without names it takes no memory.
    ///
    /// # Errors
    ///
    /// `Asn1` of `Failed` where names are given and none has that OID; `Asn1` of `Malformed` exactly where the first
    /// that has it isn't the name of a hardware module. `Asn1` of `Memory` when out of memory.
    pub fn new(
        alloc: Global,
        issuer: Name,
        subject: Name,
        alt_names: Option<GeneralNames>,
    ) -> Result<DevId>
        ensures names { modules.NamesModule alt_names result }
        ensures ok { IfOk result (λ device. device ≡ record {
          issuer = issuer;
          subject = subject;
          subject_alt_name = option_map
              (λ given. record { 0 = given }) alt_names;
        }) }
    {
        let subject_alt_name = match alt_names {
            None => None,
            Some(names) => {
                check_module(alloc, names.as_slice())?;
                Some(SubjectAltName(names))
            }
        };
        Ok(DevId {
            issuer,
            subject,
            subject_alt_name,
        })
    }

    /// The profile of a device whose key is held by a trusted platform module: its one alternative name is that of the
    /// module, with that type and that serial number.
    ///
    /// # Errors
    ///
    /// `Asn1` of `Overlength` exactly where the element of the module's name would be longer than
    /// [`Length::MAX`](x509_der::Length::MAX). `Asn1` of `Memory` when out of memory.
    pub fn idevid_tpm(
        alloc: Global,
        issuer: Name,
        subject: Name,
        hw_type: TpmVersion,
        serial_number: OctetString,
    ) -> Result<DevId>
        ensures ok { IfOk result (λ device. (other : others.OtherName) × (other.type_id ≡ id_on_hardware_module_name)
            × IsModuleIn (modules.tpm_module hw_type serial_number) other.value
            × (device ≡ record { issuer = issuer; subject = subject; subject_alt_name = Some (record { 0 = names.OtherName other ∷ [] }) })) }
        ensures err { IfErr result (λ e. modules.CantName (modules.tpm_module hw_type serial_number) e) }
    {
        let hardware = HardwareModuleName {
            hw_type: hw_type.to_oid(),
            hw_serial_num: serial_number,
        };
        let other = OtherName::from_hardware_module(alloc, &hardware)?;
        let mut names = SequenceOf::new(alloc);
        names.push(GeneralName::OtherName(other))?;
        Ok(DevId {
            issuer,
            subject,
            subject_alt_name: Some(SubjectAltName(names)),
        })
    }
}

impl TryClone for DevId {
    fn try_clone(&self, alloc: Global) -> std::result::Result<DevId, DerError> {
        Ok(DevId {
            issuer: self.issuer.try_clone(alloc)?,
            subject: self.subject.try_clone(alloc)?,
            subject_alt_name: self.subject_alt_name.try_clone(alloc)?,
        })
    }
}

impl BuilderProfile for DevId {
    ghost use Rattle.x509_build.specs.Profiles.{device_list, given};

    ghost issuer_of = { λ device subject. given device.issuer };

    ghost subject_of = { λ device. given device.subject };

    ghost extensions_of = { λ device key issuer_key part. device_list device issuer_key part.subject };

    fn get_issuer(&self, alloc: Global, _subject: &Name) -> Result<Name> {
        Ok(self.issuer.try_clone(alloc)?)
    }

    fn get_subject(&self, alloc: Global) -> Result<Name> {
        Ok(self.subject.try_clone(alloc)?)
    }

    fn build_extensions(
        &self,
        alloc: Global,
        _spk: SubjectPublicKeyInfoRef<'_>,
        issuer_spk: SubjectPublicKeyInfoRef<'_>,
        tbs: &TbsCertificate,
    ) -> Result<Vec<Extension>> {
        let subject = tbs.subject();
        let mut extensions = Vec::new(alloc);
        push_authority_key(alloc, &mut extensions, subject, issuer_spk)?;
        push_key_usage(
            alloc,
            &mut extensions,
            subject,
            KeyUsages::DIGITAL_SIGNATURE,
        )?;
        if let Some(names) = &self.subject_alt_name {
            push_alternative_names(alloc, &mut extensions, subject, names)?;
        }
        Ok(extensions)
    }
}
