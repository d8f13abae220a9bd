//! General names, and what stands in them.

pub(crate) mod distribution_point_name;
pub(crate) mod edi_party_name;
pub(crate) mod general_name;
pub(crate) mod hardware_module_name;
pub(crate) mod other_name;

pub use distribution_point_name::DistributionPointName;
pub use edi_party_name::EdiPartyName;
pub use general_name::{GeneralName, GeneralNames, IpAddress};
pub use hardware_module_name::{HardwareModuleName, ID_ON_HARDWARE_MODULE_NAME};
pub use other_name::OtherName;
