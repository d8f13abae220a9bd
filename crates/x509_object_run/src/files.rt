//! Opening files, and looking at directories.

ghost use Rattle.std.specs.Prelude.{ℕ, IfOk, List, Result, map, string_bytes};
ghost use Rattle.x509_object_run.specs.Below.{Lists, Stands};
ghost use Rattle.x509_object_run.specs.declared.fault.OpenError.{OpenError};

use crate::fault::OpenError;
use std::alloc::{AllocError, Global};
use std::fs::OpenFile;
use std::io::ErrorKind;
use std::rt::Files;
use std::{fs, io};

/// What stands at a path, where symbolic links are followed.
#[derive(Clone, Copy)]
pub enum Place {
    /// A regular file.
    File,

    /// A directory.
    Directory,

    /// Something else, as a device or a pipe.
    Special,

    /// Nothing that can be looked at.
    Unknown,
}

/// What a directory lists.
#[derive(Drop)]
pub struct Listed {
    /// The names of its entries, as the system orders them, without `.` and `..`.
    pub names: Vec<String>,

    /// Whether these are all: the directory could be read, and each name is UTF-8.
    pub is_whole: bool,
}

/// What opens a file by its name.
pub trait Opener<F> {
    /// What may come of opening the file of a name.
    ghost opens: { Self → List ℕ → Result F OpenError → Type 0 };

    /// Opens the file of a name, to be read.
    ///
    /// # Errors
    ///
    /// [`OpenError`] where it can't be opened, or is a directory.
    fn open(&self, name: &str) -> Result<F, OpenError>
        ensures { opens self.now name.now result };

    /// What a directory may list.
    ghost lists: { Self → Lists };

    /// Lists the directory at a path, as far as it can be.
    ///
    /// # Errors
    ///
    /// `AllocError` when out of memory.
    fn list(&self, alloc: Global, path: &str) -> Result<Listed, AllocError>
        ensures { IfOk result (λ listed. lists self.now path.now (map string_bytes listed.names.items) listed.is_whole) };

    /// What may stand at a path.
    ghost stands: { Self → Stands };

    /// What stands at a path.
    fn place(&self, path: &str) -> Place
        ensures { stands self.now path.now result };
}

/// What the system's answer says.
fn open_error(e: io::Error) -> OpenError {
    match e.kind() {
        ErrorKind::NotFound => OpenError::NotFound,
        ErrorKind::PermissionDenied => OpenError::Denied,
        ErrorKind::IsADirectory => OpenError::Directory,
        _ => OpenError::Other,
    }
}

/// `false`, unless the error is one of memory.
fn unless_memory(e: io::Error) -> Result<bool, AllocError> {
    match e.kind() {
        ErrorKind::OutOfMemory => Err(AllocError),
        _ => Ok(false),
    }
}

/// Adds the names of the entries of a directory, and answers whether these are all.
fn add_names<R: Files + Alloc + Clone + Drop>(
    alloc: Global,
    runtime: &R,
    path: &str,
    names: &mut Vec<String>,
) -> Result<bool, AllocError> {
    let entries = match fs::read_dir(runtime, path) {
        Ok(entries) => entries,
        Err(e) => return unless_memory(e),
    };
    let mut is_whole = true;
    for entry in entries {
        match entry {
            Ok(entry) => names.push(String::from_str(alloc, entry.file_name())?)?,
            Err(e) => is_whole = unless_memory(e)?,
        }
    }
    Ok(is_whole)
}

/// What std says of files leaves open what they give, and what lies in directories.
impl<R: Files + Alloc + Clone + Drop> Opener<R::File> for R {
    ghost opens = { λ runtime name opened. Unit {0} };

    ghost lists = { λ runtime path names whole. Unit {0} };

    ghost stands = { λ runtime path place. Unit {0} };

    fn list(&self, alloc: Global, path: &str) -> Result<Listed, AllocError> {
        let mut names = Vec::new(alloc);
        let is_whole = add_names(alloc, self, path, &mut names)?;
        Ok(Listed { names, is_whole })
    }

    fn place(&self, path: &str) -> Place {
        match fs::metadata(self, path) {
            Ok(metadata) if metadata.is_file() => Place::File,
            Ok(metadata) if metadata.is_dir() => Place::Directory,
            Ok(_) => Place::Special,
            Err(_) => Place::Unknown,
        }
    }

    fn open(&self, name: &str) -> Result<R::File, OpenError> {
        let file = match fs::open(self, name) {
            Ok(file) => file,
            Err(e) => return Err(open_error(e)),
        };
        match file.metadata() {
            Ok(metadata) if metadata.is_dir() => Err(OpenError::Directory),
            _ => Ok(file),
        }
    }
}
