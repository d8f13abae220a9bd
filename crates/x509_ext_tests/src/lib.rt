//! Tests of errors and identifiers, of values that take memory, of strings, texts and times; of names and their texts, of extensions and of what
//! these hold, and of signed certificate timestamps.
#![tactic(auto)]

#[cfg(test)]
mod calls;
#[cfg(test)]
mod copies;
#[cfg(test)]
mod directory_strings;
#[cfg(test)]
mod elements;
#[cfg(test)]
mod extensions;
#[cfg(test)]
mod flags;
#[cfg(test)]
mod general_names;
#[cfg(test)]
mod names;
#[cfg(test)]
mod strings;
#[cfg(test)]
mod texts;
#[cfg(test)]
mod times;
#[cfg(test)]
mod timestamps;
#[cfg(test)]
mod types;
