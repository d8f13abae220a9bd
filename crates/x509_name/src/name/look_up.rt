//! Look-ups in names.

ghost use Rattle.std.specs.Prelude.{◌≡◌};
ghost use Rattle.std.specs.List.{list_all};
ghost use Rattle.std.specs.Option.{option_copied};
ghost use Rattle.x509_der.specs.declared.tag.Tag.TheVariants as tags;
ghost use Rattle.x509_name.specs.Iterators.{members_of};
ghost use Rattle.x509_name.specs.AttributeTypes as types;
ghost use Rattle.x509_name.specs.LookUp.{LooksUp, LooksUpString, first_of_type};
ghost use Rattle.x509_prim.specs.Alphabet.{is_ia5, is_printable};
ghost use Rattle.x509_prim.specs.Borrowed.{BorrowsTextFrom};

use crate::attr::attribute_types::{
    COMMON_NAME, COUNTRY_NAME, EMAIL_ADDRESS, LOCALITY_NAME, ORGANIZATION_NAME,
    ORGANIZATIONAL_UNIT_NAME, STATE_OR_PROVINCE_NAME,
};
use crate::name::DirectoryString;
use crate::name::name::Name;
use std::alloc::Global;
use x509_der::{Any, Error, FromAny, ObjectIdentifier};
use x509_prim::{Ia5StringRef, PrintableStringRef};

impl Name {
    /// The value of the first attribute of the type, in the order of the encoding.
    fn first_of_type(&self, oid: ObjectIdentifier) -> Option<&Any>
        ensures { option_copied result ≡ first_of_type oid (members_of self.now) }
    {
        for attribute in self.iter() {
            if attribute.oid == oid {
                return Some(&attribute.value);
            }
        }
        None
    }

    /// The value of the first attribute of the type, in the order of the encoding, converted to `T`; `None` exactly
    /// where there is no attribute of the type. [`iter`](Name::iter) has the others.
    ///
    /// # Errors
    ///
    /// Those of the conversion ([`FromAny`]), where there is an attribute of the type.
    pub fn by_oid<'a, T: FromAny<'a>>(
        &'a self,
        alloc: Global,
        oid: ObjectIdentifier,
    ) -> Result<Option<T>, Error>
        ensures { LooksUp T.from_any_gives (first_of_type oid (members_of self.now)) result }
    {
        match self.first_of_type(oid) {
            None => Ok(None),
            Some(value) => Ok(Some(T::from_any(alloc, value)?)),
        }
    }
}

#[tactic(auto, unfolding(x509_der::specs::Arcs::subidentifier))]
impl Name {
    /// The common name, by the first attribute of the type; `None` exactly where there is none.
    ///
    /// # Errors
    ///
    /// `Malformed` exactly where the value is no DirectoryString. `Memory` when out of memory.
    pub fn common_name(&self, alloc: Global) -> Result<Option<DirectoryString>, Error>
        ensures { LooksUpString types.common_name self.now result }
    {
        self.by_oid(alloc, COMMON_NAME)
    }

    /// The state or province, by the first attribute of the type; `None` exactly where there is none.
    ///
    /// # Errors
    ///
    /// `Malformed` exactly where the value is no DirectoryString. `Memory` when out of memory.
    pub fn state_or_province(&self, alloc: Global) -> Result<Option<DirectoryString>, Error>
        ensures { LooksUpString types.state_or_province_name self.now result }
    {
        self.by_oid(alloc, STATE_OR_PROVINCE_NAME)
    }

    /// The locality, by the first attribute of the type; `None` exactly where there is none.
    ///
    /// # Errors
    ///
    /// `Malformed` exactly where the value is no DirectoryString. `Memory` when out of memory.
    pub fn locality(&self, alloc: Global) -> Result<Option<DirectoryString>, Error>
        ensures { LooksUpString types.locality_name self.now result }
    {
        self.by_oid(alloc, LOCALITY_NAME)
    }

    /// The organization, by the first attribute of the type; `None` exactly where there is none.
    ///
    /// # Errors
    ///
    /// `Malformed` exactly where the value is no DirectoryString. `Memory` when out of memory.
    pub fn organization(&self, alloc: Global) -> Result<Option<DirectoryString>, Error>
        ensures { LooksUpString types.organization_name self.now result }
    {
        self.by_oid(alloc, ORGANIZATION_NAME)
    }

    /// The organizational unit, by the first attribute of the type; `None` exactly where there is none.
    ///
    /// # Errors
    ///
    /// `Malformed` exactly where the value is no DirectoryString. `Memory` when out of memory.
    pub fn organization_unit(&self, alloc: Global) -> Result<Option<DirectoryString>, Error>
        ensures { LooksUpString types.organizational_unit_name self.now result }
    {
        self.by_oid(alloc, ORGANIZATIONAL_UNIT_NAME)
    }

    /// The country, by the first attribute of the type; `None` exactly where there is none. It takes no memory.
    ///
    /// # Errors
    ///
    /// `Malformed` exactly where the value is no PrintableString.
    pub fn country(&self, alloc: Global) -> Result<Option<PrintableStringRef<'_>>, Error>
        ensures { LooksUp (BorrowsTextFrom (λ string. string.text.now) tags.PrintableString (list_all is_printable))
            (first_of_type types.country_name (members_of self.now)) result }
    {
        self.by_oid(alloc, COUNTRY_NAME)
    }

    /// The email address, by the first attribute of the type; `None` exactly where there is none. It takes no memory.
    ///
    /// # Errors
    ///
    /// `Malformed` exactly where the value is no IA5String.
    pub fn email_address(&self, alloc: Global) -> Result<Option<Ia5StringRef<'_>>, Error>
        ensures { LooksUp (BorrowsTextFrom (λ string. string.text.now) tags.Ia5String (list_all is_ia5))
            (first_of_type types.email_address (members_of self.now)) result }
    {
        self.by_oid(alloc, EMAIL_ADDRESS)
    }
}
