//! What the values of extensions hold, and where: a walk over the members of a list, and what a member says; and values
//! that are encoded of what a caller says of them.

mod access;
mod calls;
mod constraints;
mod cursor;
mod decimal;
mod described;
mod described_access;
mod described_attribute;
mod described_element;
mod described_issuer;
mod described_list;
mod described_mappings;
mod described_moment;
mod described_name;
mod described_numbers;
mod described_octets;
mod described_point;
mod described_policies;
mod described_policy;
mod described_purposes;
mod described_timestamps;
mod element;
mod extension;
mod first;
mod general_name;
mod identifiers;
mod key_identifier;
mod name;
mod notice;
mod number;
mod period;
mod point;
mod policy;
mod status_words;
mod string;
mod subtree;
mod text;
mod universal;
mod walk;

pub use access::AccessView;
pub use calls::{
    View, content, content_next, element_next, member_next, member_under_next, payload,
};
pub use constraints::BasicConstraintsView;
pub(crate) use cursor::left;
pub use cursor::next;
pub use decimal::decimal_text;
pub use described::{Described, encode};
pub use described_access::{access_encode, name_constraints_encode, subtree_encode};
pub use described_attribute::request_attribute_encode;
pub use described_element::element_encode;
pub use described_issuer::authority_key_identifier_encode;
pub use described_list::list_encode;
pub use described_mappings::mappings_encode;
pub use described_name::{general_name_encode, other_name_encode};
pub use described_numbers::numbers_encode;
pub use described_octets::{crl_number_encode, subject_key_identifier_encode};
pub use described_point::{distribution_point_encode, issuing_distribution_point_encode};
pub use described_policies::policies_encode;
pub use described_policy::{
    cps_uri_encode, policy_encode, policy_mapping_encode, policy_qualifier_encode,
    user_notice_encode,
};
pub use described_purposes::extended_key_usage_encode;
pub use described_timestamps::timestamps_encode;
pub use element::ElementView;
pub use extension::ExtensionEntry;
pub(crate) use extension::flag;
pub use first::name_attribute;
pub use general_name::GeneralNameView;
pub use identifiers::{identifiers_next, oid_from_text, oid_text};
pub use key_identifier::AuthorityKeyIdentifierView;
pub use name::AttributeView;
pub use notice::UserNoticeView;
pub use number::{Numbered, optional_number, read_number};
pub use period::{PrivateKeyUsagePeriodView, generalized_time};
pub use point::{DistributionPointView, IssuingDistributionPointView};
pub use policy::{MappingView, PolicyConstraintsView, PolicyView, QualifierView};
pub use status_words::status_text;
pub use string::string_text;
pub use subtree::{NameConstraintsView, SubtreeView};
pub use text::{serial_text, time_from_text, time_text};
pub use walk::{
    NOWHERE, bits_at, content_at, step_content, step_optional, step_optional_content, unused_at,
};
