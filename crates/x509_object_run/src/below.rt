//! The inputs that names are of: a directory stands for the files in it.

ghost use Rattle.std.specs.Cow.{cow_str_bytes};
ghost use Rattle.std.specs.List.{ends_with};
ghost use Rattle.std.specs.Prelude.{◌≡◌, ◌||◌, IfOk, OnOk, codes, length, ltb, map, nat_eq, string_bytes};
ghost use Rattle.x509_object_run.specs.Below.{AreAdded, AreEntries, AreListed, AreOf, AreOfAll, MayBeDirectory, entry_path, is_directory, is_input};
ghost use Rattle.x509_object_run.specs.Labels.{is_standard};

use crate::files::{Opener, Place};
use crate::label::is_standard;
use std::alloc::{AllocError, Global};
use std::borrow::CowStr;

/// The inputs of names.
#[derive(Drop)]
pub(crate) struct Inputs<'a> {
    /// What they are named.
    pub names: Vec<CowStr<'a>>,

    /// Whether a directory is among the names.
    pub has_directory: bool,
}

impl Inputs<'_> {
    /// Whether each of them has a heading as one of several.
    pub fn are_several(&self) -> bool
        ensures { result ≡ (self.now.has_directory || ltb 1 (length (map cow_str_bytes self.now.names.items))) }
    {
        self.has_directory || self.names.len() > 1
    }
}

fn is_directory(place: Place) -> bool
    ensures { result ≡ is_directory place }
{
    matches!(place, Place::Directory)
}

/// Whether an entry of a directory is an input.
fn is_input(place: Place) -> bool
    ensures { result ≡ is_input place }
{
    matches!(place, Place::File | Place::Unknown)
}

/// Whether a name is that of a directory; that of standard input is not.
fn is_named_directory<F, O: Opener<F>>(opener: &O, name: &str) -> bool
    ensures { MayBeDirectory (O.stands opener.now) (is_standard name.now) name.now result }
{
    !is_standard(name) && is_directory(opener.place(name))
}

fn ends_with_slash(path: &str) -> bool
    ensures { result ≡ ends_with nat_eq path.now (codes "/") }
{
    path.as_bytes().ends_with(b"/")
}

/// The path of an entry of a directory.
fn entry_path(alloc: Global, directory: &str, name: &str) -> Result<String, AllocError>
    ensures { IfOk result (λ path. string_bytes path ≡ entry_path directory.now name.now) }
{
    if ends_with_slash(directory) {
        return format!(in alloc; "{directory}{name}");
    }
    format!(in alloc; "{directory}/{name}")
}

/// Adds the inputs among entries of a directory.
fn add_entries<'a, F, O: Opener<F>>(
    alloc: Global,
    opener: &O,
    directory: &'a str,
    entries: &[String],
    inputs: &mut Vec<CowStr<'a>>,
) -> Result<(), AllocError>
    ensures { OnOk result (AreAdded (AreEntries (O.stands opener.now) directory.now (map string_bytes entries.now))
        (map cow_str_bytes inputs.old.items) (map cow_str_bytes inputs.new.items)) }
{
    for entry in entries {
        let path = entry_path(alloc, directory, entry.as_str())?;
        if is_input(opener.place(path.as_str())) {
            inputs.push(CowStr::Owned(path))?;
        }
    }
    Ok(())
}

/// Adds the inputs of a directory.
fn add_directory<'a, F, O: Opener<F>>(
    alloc: Global,
    opener: &O,
    directory: &'a str,
    inputs: &mut Vec<CowStr<'a>>,
) -> Result<(), AllocError>
    ensures { OnOk result (AreAdded (AreListed (O.lists opener.now) (O.stands opener.now) directory.now)
        (map cow_str_bytes inputs.old.items) (map cow_str_bytes inputs.new.items)) }
{
    let listed = opener.list(alloc, directory)?;
    let mut entries = listed.names;
    entries.sort()?;
    add_entries::<F, O>(alloc, opener, directory, entries.as_slice(), inputs)?;
    if !listed.is_whole {
        inputs.push(CowStr::Borrowed(directory))?;
    }
    Ok(())
}

/// Adds the inputs of a name, and answers whether it is that of a directory.
fn add_named<'a, F, O: Opener<F>>(
    alloc: Global,
    opener: &O,
    name: &'a str,
    inputs: &mut Vec<CowStr<'a>>,
) -> Result<bool, AllocError>
    ensures { IfOk result (λ directory. AreAdded (λ added. AreOf (O.lists opener.now) (O.stands opener.now) name.now added directory)
        (map cow_str_bytes inputs.old.items) (map cow_str_bytes inputs.new.items)) }
{
    if is_named_directory::<F, O>(opener, name) {
        add_directory::<F, O>(alloc, opener, name, inputs)?;
        return Ok(true);
    }
    inputs.push(CowStr::Borrowed(name))?;
    Ok(false)
}

/// The inputs of names.
///
/// # Errors
///
/// `AllocError` when out of memory.
pub(crate) fn inputs_of<'a, F, O: Opener<F>>(
    alloc: Global,
    opener: &O,
    names: &[&'a str],
) -> Result<Inputs<'a>, AllocError>
    ensures { IfOk result (λ inputs. AreOfAll (O.lists opener.now) (O.stands opener.now) (map (λ name. name.now) names.now)
        (map cow_str_bytes inputs.names.items) inputs.has_directory) }
{
    let mut inputs = Vec::with_capacity(alloc, names.len())?;
    let mut has_directory = false;
    for name in names {
        has_directory |= add_named::<F, O>(alloc, opener, name, &mut inputs)?;
    }
    Ok(Inputs {
        names: inputs,
        has_directory,
    })
}
