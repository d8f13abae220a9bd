//! Tests of certificates, CRLs, CSRs and trust anchors, of what builds them, of what logs sign and of their trees, of paths and of peers, and of runs of the
//! program over files of these.
#![tactic(auto)]

#[cfg(test)]
mod builders;
#[cfg(test)]
mod calls;
#[cfg(test)]
mod certificate;
#[cfg(test)]
mod copies;
#[cfg(test)]
mod embedded;
#[cfg(test)]
mod example;
#[cfg(test)]
mod fakes;
#[cfg(test)]
mod faults;
#[cfg(test)]
mod issuers;
#[cfg(test)]
mod lent;
#[cfg(test)]
mod lints;
#[cfg(test)]
mod long_lists;
#[cfg(test)]
mod look_ups;
#[cfg(test)]
mod matching;
#[cfg(test)]
mod naming;
#[cfg(test)]
mod paths;
#[cfg(test)]
mod peer_names;
#[cfg(test)]
mod peers;
#[cfg(test)]
mod policies;
#[cfg(test)]
mod profiles;
#[cfg(test)]
mod program;
#[cfg(test)]
mod requests;
#[cfg(test)]
mod signers;
#[cfg(test)]
mod signing;
#[cfg(test)]
mod source;
#[cfg(test)]
mod trees;
#[cfg(test)]
mod validated;
#[cfg(test)]
mod vectors;
