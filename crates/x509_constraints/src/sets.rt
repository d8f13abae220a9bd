//! The sets of subtrees that apply to a certificate (RFC 5280 6.1.3 (b), (c), 6.1.4 (g)).

ghost use Rattle.std.specs.Prelude.{◌≡◌, ◌==◌, ◌&&◌, ◌||◌, ◌<◌, not, false, List, ℕ, bytes_eq, slice_index_or};
ghost use Rattle.x509_name.specs.AttributeTypes as types;
ghost use Rattle.x509_constraints.specs.Constraints as constraints;
ghost use Rattle.x509_constraints.specs.Notes.{notes};
ghost use Rattle.x509_constraints.specs.SubtreeKeys as keys;

use crate::comparable::{is_comparable, key_of, key_of_directory_name, key_of_email};
use crate::email::is_mailbox;
use crate::form::{
    DIRECTORY_NAME, DNS_NAME, EDI_PARTY_NAME, FORMS, IP_ADDRESS, OTHER_NAME, REGISTERED_ID,
    RFC822_NAME, URI, X400_ADDRESS, form_of, has_form,
};
use crate::key::Key;
use crate::marks::{add_marks, has_marks, has_marks_in_name};
use crate::prefixes::Prefixes;
use crate::stacks::{in_all, in_some};
use crate::subtree_keys::{add_excluded, add_permitted};
use crate::usable::has_unusable;
use std::alloc::{AllocError, Global};
use x509_der::Tag;
use x509_ext::pkix::constraints::name::{GeneralSubtree, GeneralSubtrees};
use x509_ext::pkix::name::GeneralName;
use x509_ext::pkix::{NameConstraints, SubjectAltName};
use x509_name::attr::AttributeTypeAndValue;
use x509_name::attr::attribute_types::EMAIL_ADDRESS;
use x509_name::name::{Name, RelativeDistinguishedName};

/// The name constraints that apply to a certificate: the initial ones, and those of the certificates above it. They are
/// kept as sorted sets of keys, so that a name is asked by a few searches. To apply n subtrees takes O(n log n) steps or a
/// logarithm more, whatever sets they come in.
pub struct ConstraintSets {
    permitted: Vec<Prefixes>,
    excluded: Vec<Prefixes>,

    /// Of excluded directory names, what keeps away attributes that can't be compared.
    marks: Vec<Prefixes>,
    constrained: [bool; FORMS],
    excluding: [bool; FORMS],
    unusable: [bool; FORMS],
    is_whole: bool,
}

impl Drop for ConstraintSets {
    fn drop(self) {
        let ConstraintSets {
            permitted: _,
            excluded: _,
            marks: _,
            constrained: _,
            excluding: _,
            unusable: _,
            is_whole: _,
        } = self;
    }
}

/// The subtrees of a list, which may be absent.
fn listed(subtrees: &Option<GeneralSubtrees>) -> &[GeneralSubtree]
    ensures { result.now ≡ constraints.subtrees_of subtrees.now }
{
    match subtrees {
        None => &[],
        Some(list) => list.as_slice(),
    }
}

/// Whether a set has a subtree of the form.
fn constrains(form: u16, constraints: &NameConstraints) -> bool
    ensures { result ≡ keys.constrains form constraints.now }
{
    has_form(form, listed(&constraints.permitted_subtrees))
        || has_form(form, listed(&constraints.excluded_subtrees))
}

/// Whether a set has an excluded subtree of the form.
fn excludes_form(form: u16, constraints: &NameConstraints) -> bool
    ensures { result ≡ keys.excludes_form form constraints.now }
{
    has_form(form, listed(&constraints.excluded_subtrees))
}

/// Whether a set has a subtree of the form that can't be used.
fn is_unusable_for(form: u16, constraints: &NameConstraints) -> bool
    ensures { result ≡ keys.is_unusable_for form constraints.now }
{
    has_unusable(form, listed(&constraints.permitted_subtrees))
        || has_unusable(form, listed(&constraints.excluded_subtrees))
}

/// What is noted of the forms of names in a set.
#[derive(Clone, Copy)]
enum Note {
    /// There is a subtree of the form.
    Constrained,

    /// There is an excluded one.
    Excluding,

    /// There is one that can't be used.
    Unusable,
}

/// Whether it is to be noted of the form.
fn is_noted(note: Note, form: u16, constraints: &NameConstraints) -> bool
    ensures { result ≡ notes note form constraints.now }
{
    match note {
        Note::Constrained => constrains(form, constraints),
        Note::Excluding => excludes_form(form, constraints),
        Note::Unusable => is_unusable_for(form, constraints),
    }
}

/// Whether it is noted of the form with this set too.
fn is_noted_with(
    before: &[bool; FORMS],
    note: Note,
    form: u16,
    constraints: &NameConstraints,
) -> bool
    requires { form < 9 }
    ensures { result ≡ (slice_index_or before.now form false || notes note form constraints.now) }
{
    before[usize::from(form)] || is_noted(note, form, constraints)
}

/// The forms of which it is noted with this set too.
fn noted_with(before: &[bool; FORMS], note: Note, constraints: &NameConstraints) -> [bool; FORMS]
    ensures { (form : ℕ) → form < 9 → slice_index_or result form false
        ≡ (slice_index_or before.now form false || notes note form constraints.now) }
{
    [
        is_noted_with(before, note, OTHER_NAME, constraints),
        is_noted_with(before, note, RFC822_NAME, constraints),
        is_noted_with(before, note, DNS_NAME, constraints),
        is_noted_with(before, note, X400_ADDRESS, constraints),
        is_noted_with(before, note, DIRECTORY_NAME, constraints),
        is_noted_with(before, note, EDI_PARTY_NAME, constraints),
        is_noted_with(before, note, URI, constraints),
        is_noted_with(before, note, IP_ADDRESS, constraints),
        is_noted_with(before, note, REGISTERED_ID, constraints),
    ]
}

/// Whether the type is emailAddress.
fn is_email_address(oid: &[u8]) -> bool
    ensures { result ≡ bytes_eq oid.now types.email_address }
{
    oid == EMAIL_ADDRESS.as_bytes()
}

/// The address of an emailAddress: the text of an IA5String, and an empty one else.
fn address_of(tag: Tag, octets: &[u8]) -> &[u8]
    ensures { result.now ≡ constraints.address_of tag octets.now }
{
    match tag {
        Tag::Ia5String => octets,
        _ => &[],
    }
}

impl ConstraintSets {
    ghost use Rattle.std.specs.Prelude.{◌≡◌, ◌↔◌, ◌++◌, ◌∷◌, ◌&&◌, ◌||◌, ◌==◌, ◌<◌, not, true, false, [], All, List, IfOk, IsTrue, MatchOption, OnErr, OnOk, option_copied, slice_index_or};
    ghost use Rattle.x509_constraints.specs.Applied.{AllowsNone, AreApplied, IsAskedByKey};
    ghost use Rattle.x509_constraints.specs.Constraints.{AreAllowed, IsAllowed, IsAttributeAllowed, form_of, is_comparable, names_asked, others_asked, subject_asked};
    ghost use Rattle.x509_constraints.specs.Stacks.{in_all, in_some};
    ghost use Rattle.x509_ext.specs.declared.pkix.name.general_name.GeneralName.{GeneralName};
    ghost use Rattle.x509_ext.specs.declared.pkix.name.general_name.GeneralName.TheVariants.{DirectoryName, Rfc822Name};
    ghost use Rattle.x509_ext.specs.declared.pkix.name_constraints.NameConstraints.{NameConstraints};

    /// No sets: every name is allowed. It takes no memory.
    pub fn new(alloc: Global) -> ConstraintSets
        ensures { AreApplied result [] }
    {
        ConstraintSets {
            permitted: Vec::new(alloc),
            excluded: Vec::new(alloc),
            marks: Vec::new(alloc),
            constrained: [false; FORMS],
            excluding: [false; FORMS],
            unusable: [false; FORMS],
            is_whole: true,
        }
    }

    /// Applies a set too (RFC 5280 6.1.4 (g)). It may be one that a certificate may not have ([`is_usable`](crate::is_usable)).
    ///
    /// # Errors
    ///
    /// When out of memory. Then no name is allowed any more.
    pub fn add(&mut self, alloc: Global, constraints: &NameConstraints) -> Result<(), AllocError>
        ensures applied { (sets : List NameConstraints) → AreApplied self.old sets → OnOk result (AreApplied self.new (sets ++ constraints.now ∷ [])) }
        ensures refused { OnErr result (AllowsNone self.new) }
        ensures closed { AllowsNone self.old → AllowsNone self.new }
    {
        let is_whole = self.is_whole;
        self.is_whole = false;
        add_permitted(
            alloc,
            &mut self.permitted,
            listed(&constraints.permitted_subtrees),
        )?;
        add_excluded(
            alloc,
            &mut self.excluded,
            listed(&constraints.excluded_subtrees),
        )?;
        add_marks(
            alloc,
            &mut self.marks,
            listed(&constraints.excluded_subtrees),
        )?;
        self.constrained = noted_with(&self.constrained, Note::Constrained, constraints);
        self.excluding = noted_with(&self.excluding, Note::Excluding, constraints);
        self.unusable = noted_with(&self.unusable, Note::Unusable, constraints);
        self.is_whole = is_whole;
        Ok(())
    }

    /// Whether a name of the form isn't allowed because it can't be compared: where a subtree of the form is excluded, and
    /// of URIs where one is permitted too (RFC 5280 4.2.1.10).
    fn asks_to_compare(&self, form: u16) -> bool
        requires { form < 9 }
        ensures { result ≡ (slice_index_or self.now.excluding form false || (form == 6)) }
    {
        self.excluding[usize::from(form)] || form == URI
    }

    /// The answer for a name of the form, where it needs no key.
    fn known(&self, form: u16, can_be_compared: bool) -> Option<bool>
        requires { form < 9 }
        ensures { (sets : List NameConstraints) (name : GeneralName) → AreApplied self.now sets → form_of name ≡ form
            → is_comparable name ≡ can_be_compared → MatchOption result (IsAskedByKey sets name) (λ b. IsTrue b ↔ IsAllowed sets name) }
    {
        if !self.constrained[usize::from(form)] {
            return Some(true);
        }
        if self.unusable[usize::from(form)] {
            return Some(false);
        }
        if !can_be_compared && self.asks_to_compare(form) {
            return Some(false);
        }
        None
    }

    /// Whether names with the key are permitted and not excluded.
    fn allows_key(&self, key: &Key) -> bool
        ensures { result ≡ (in_all self.now.permitted.items key.now && not (in_some self.now.excluded.items key.now)) }
    {
        in_all(self.permitted.as_slice(), key) && !in_some(self.excluded.as_slice(), key)
    }

    /// Whether all sets allow the name (RFC 5280 6.1.3 (b), (c)). A name that can't be compared isn't allowed where
    /// subtrees of its form are excluded, and elsewhere permitted by an empty subtree alone; of directory names each attribute
    /// is asked, where an excluded one has its type at that place. A wildcard is excluded where a host that it stands for is. A
    /// URI without the name of a host isn't allowed where URIs are constrained, nor is any name where a subtree of its form can't
    /// be used.
    ///
    /// # Errors
    ///
    /// When out of memory.
    pub fn allows(&self, alloc: Global, name: &GeneralName) -> Result<bool, AllocError>
        ensures same { (sets : List NameConstraints) → AreApplied self.now sets → IfOk result (λ b. IsTrue b ↔ IsAllowed sets name.now) }
        ensures closed { AllowsNone self.now → IfOk result (λ b. b ≡ false) }
    {
        if !self.is_whole {
            return Ok(false);
        }
        match self.known(form_of(name), is_comparable(name)) {
            Some(known) => Ok(known),
            None => {
                if has_marks(alloc, self.marks.as_slice(), name)? {
                    return Ok(false);
                }
                let key = key_of(alloc, name)?;
                Ok(self.allows_key(&key))
            }
        }
    }

    /// Whether all sets allow the subject, a directory name.
    fn allows_subject(&self, alloc: Global, subject: &Name) -> Result<bool, AllocError>
        ensures { (sets : List NameConstraints) → AreApplied self.now sets → IfOk result (λ b. IsTrue b ↔ IsAllowed sets (DirectoryName subject.now)) }
    {
        match self.known(DIRECTORY_NAME, true) {
            Some(known) => Ok(known),
            None => {
                if has_marks_in_name(alloc, self.marks.as_slice(), subject)? {
                    return Ok(false);
                }
                let key = key_of_directory_name(alloc, subject)?;
                Ok(self.allows_key(&key))
            }
        }
    }

    /// Whether all sets allow the address of e-mail.
    fn allows_email(&self, alloc: Global, address: &[u8]) -> Result<bool, AllocError>
        ensures { (sets : List NameConstraints) → AreApplied self.now sets → IfOk result (λ b. IsTrue b ↔ IsAllowed sets (Rfc822Name address.now)) }
    {
        match self.known(RFC822_NAME, is_mailbox(address)) {
            Some(known) => Ok(known),
            None => {
                let key = key_of_email(alloc, address)?;
                Ok(self.allows_key(&key))
            }
        }
    }

    /// Whether all sets allow each of the names.
    fn allows_each(&self, alloc: Global, names: &[GeneralName]) -> Result<bool, AllocError>
        ensures { (sets : List NameConstraints) → AreApplied self.now sets → IfOk result (λ b. IsTrue b ↔ AreAllowed sets names.now) }
    {
        for name in names {
            if !self.allows(alloc, name)? {
                return Ok(false);
            }
        }
        Ok(true)
    }

    /// Whether all sets allow the address of the attribute, if it has one.
    fn allows_attribute(
        &self,
        alloc: Global,
        attribute: &AttributeTypeAndValue,
    ) -> Result<bool, AllocError>
        ensures { (sets : List NameConstraints) → AreApplied self.now sets → IfOk result (λ b. IsTrue b ↔ IsAttributeAllowed sets attribute.now) }
    {
        if !is_email_address(attribute.oid.as_bytes()) {
            return Ok(true);
        }
        self.allows_email(
            alloc,
            address_of(attribute.value.tag(), attribute.value.value()),
        )
    }

    /// Whether all sets allow the addresses of the attributes.
    fn allows_attributes(
        &self,
        alloc: Global,
        attributes: &[AttributeTypeAndValue],
    ) -> Result<bool, AllocError>
        ensures { (sets : List NameConstraints) → AreApplied self.now sets → IfOk result (λ b. IsTrue b ↔ All (λ a. IsAttributeAllowed sets a) attributes.now) }
    {
        for attribute in attributes {
            if !self.allows_attribute(alloc, attribute)? {
                return Ok(false);
            }
        }
        Ok(true)
    }

    /// Whether all sets allow the addresses of e-mail in the subject.
    fn allows_emails(
        &self,
        alloc: Global,
        subject: &[RelativeDistinguishedName],
    ) -> Result<bool, AllocError>
        ensures { (sets : List NameConstraints) → AreApplied self.now sets
            → IfOk result (λ b. IsTrue b ↔ All (λ rdn. All (λ a. IsAttributeAllowed sets a) rdn) subject.now) }
    {
        for rdn in subject {
            if !self.allows_attributes(alloc, rdn.as_slice())? {
                return Ok(false);
            }
        }
        Ok(true)
    }

    /// Whether all sets allow the subject, if it isn't empty.
    fn allows_some_subject(&self, alloc: Global, subject: &Name) -> Result<bool, AllocError>
        ensures { (sets : List NameConstraints) → AreApplied self.now sets → IfOk result (λ b. IsTrue b ↔ AreAllowed sets (subject_asked subject.now)) }
    {
        if subject.is_empty() {
            return Ok(true);
        }
        self.allows_subject(alloc, subject)
    }

    /// Whether all sets allow the names of the SAN, or the addresses of e-mail in the subject where there is none.
    fn allows_others(
        &self,
        alloc: Global,
        subject: &Name,
        alternative: Option<&SubjectAltName>,
    ) -> Result<bool, AllocError>
        ensures { (sets : List NameConstraints) → AreApplied self.now sets
            → IfOk result (λ b. IsTrue b ↔ AreAllowed sets (others_asked subject.now (option_copied alternative.entry))) }
    {
        match alternative {
            Some(names) => self.allows_each(alloc, names.as_ref().as_slice()),
            None => self.allows_emails(alloc, subject.as_ref().as_slice()),
        }
    }

    /// Whether all sets allow the names of a certificate (RFC 5280 6.1.3 (b), (c)): its subject if it isn't empty, the
    /// names of its SAN, and where it has none each emailAddress of the subject. One that is no IA5String (RFC 5280 4.1.2.6)
    /// isn't allowed where addresses of e-mail are constrained.
    ///
    /// # Errors
    ///
    /// When out of memory.
    pub fn allows_names(
        &self,
        alloc: Global,
        subject: &Name,
        alternative: Option<&SubjectAltName>,
    ) -> Result<bool, AllocError>
        ensures same { (sets : List NameConstraints) → AreApplied self.now sets
            → IfOk result (λ b. IsTrue b ↔ AreAllowed sets (names_asked subject.now (option_copied alternative.entry))) }
        ensures closed { AllowsNone self.now → IfOk result (λ b. b ≡ false) }
    {
        if !self.is_whole || !self.allows_some_subject(alloc, subject)? {
            return Ok(false);
        }
        self.allows_others(alloc, subject, alternative)
    }
}
