//! A disk that is a file of the system: the trusted edge. It tells nothing of its content, and only that it has
//! failed where it says so.
ghost use Rattle.std.specs.Prelude.{◌≡◌, ◌≤◌, ℕ, List, []};
ghost use Rattle.pg_io.specs.Causes.{Rose, HasExactCause};

use crate::{Disk, Failed};
use std::fs::{File, Files, OpenFile, OpenOptions};
use std::io;
use std::io::{Read, Seek, SeekFrom, Write};
use std::path::Path;

/// The file at a path. It is opened for reading and writing at the first call, and made empty where there is none.
///
/// Its first sync also makes sure that the folder has the file. Each error of the system is one fault, after which
/// the next call is made as ever.
#[derive(Drop)]
pub struct FileDisk<R: Files> {
    files: R,
    path: String,
    file: Option<R::File>,
    is_entered: bool,
    faults: u64,
}

impl<R: Files> FileDisk<R> {
    /// Nothing is opened yet, and nothing has failed.
    pub fn new(files: R, path: String) -> Self
        ensures { ⟦<FileDisk<R> as Disk>⟧.faults result ≡ 0 }
    {
        FileDisk {
            files,
            path,
            file: None,
            is_entered: false,
            faults: 0,
        }
    }

    // Opens the file, where it isn't open.
    fn open(&mut self) -> io::Result<()>
        ensures { self.new.faults ≡ self.old.faults }
    {
        if self.file.is_none() {
            let file = OpenOptions::new()
                .read(true)
                .write(true)
                .create(true)
                .open(&self.files, self.path.as_str())?;
            self.file = Some(file);
        }
        Ok(())
    }

    fn try_len(&mut self) -> io::Result<u64>
        ensures { self.new.faults ≡ self.old.faults }
    {
        self.open()?;
        match &self.file {
            Some(file) => Ok(file.metadata()?.len()),
            None => Err(io::ErrorKind::NotFound.into()),
        }
    }

    fn try_read(&mut self, at: u64, buf: &mut [u8]) -> io::Result<()>
        ensures { self.new.faults ≡ self.old.faults }
    {
        self.open()?;
        match &mut self.file {
            Some(file) => {
                file.seek(SeekFrom::Start(at))?;
                file.read_exact(buf)
            }
            None => Err(io::ErrorKind::NotFound.into()),
        }
    }

    fn try_write(&mut self, at: u64, bytes: &[u8]) -> io::Result<()>
        ensures { self.new.faults ≡ self.old.faults }
    {
        self.open()?;
        match &mut self.file {
            Some(file) => {
                file.seek(SeekFrom::Start(at))?;
                file.write_all(bytes)
            }
            None => Err(io::ErrorKind::NotFound.into()),
        }
    }

    fn try_cut(&mut self, len: u64) -> io::Result<()>
        ensures { self.new.faults ≡ self.old.faults }
    {
        self.open()?;
        match &self.file {
            Some(file) => file.set_len(len),
            None => Err(io::ErrorKind::NotFound.into()),
        }
    }

    fn try_sync(&mut self) -> io::Result<()>
        ensures { self.new.faults ≡ self.old.faults }
    {
        self.open()?;
        match &self.file {
            Some(file) => file.sync_all()?,
            None => return Err(io::ErrorKind::NotFound.into()),
        }
        if !self.is_entered {
            File::open(&self.files, folder_of(&self.path))?.sync_all()?;
            self.is_entered = true;
        }
        Ok(())
    }

    // Counts a fault where there is an error.
    fn counted<T>(&mut self, outcome: io::Result<T>) -> Result<T, Failed>
        ensures { HasExactCause self.old.faults self.new.faults result }
    {
        match outcome {
            Ok(value) => Ok(value),
            Err(_) => {
                self.faults = self.faults.saturating_add(1);
                Err(Failed)
            }
        }
    }
}

// The folder that a path's last name stands in.
fn folder_of(path: &str) -> Path<'_> {
    match Path::new(path).parent() {
        Some(folder) if !folder.as_os_str().is_empty() => folder,
        _ => Path::new("."),
    }
}

impl<R: Files> Disk for FileDisk<R> {
    ghost tells = { ⊥ };

    ghost seen = { λ _. [] };

    ghost may_leave = { λ _ _. ⊥ };

    ghost moment = { λ _. 0 };

    ghost left_since = { λ _ _ _. ⊥ };

    ghost faults = { λ f. f.faults };

    ghost reads = { λ told _. absurd told };

    ghost counts_now = { λ told _ _ _ _ _. absurd told };

    ghost only_now = { λ told _ _ _. absurd told };

    fn len(&mut self) -> Result<u64, Failed> {
        let outcome = self.try_len();
        self.counted(outcome)
    }

    fn read_at(&mut self, at: u64, buf: &mut [u8]) -> Result<(), Failed> {
        let outcome = self.try_read(at, buf);
        self.counted(outcome)
    }

    fn write_at(&mut self, at: u64, bytes: &[u8]) -> Result<(), Failed> {
        let outcome = self.try_write(at, bytes);
        self.counted(outcome)
    }

    fn cut(&mut self, len: u64) -> Result<(), Failed> {
        let outcome = self.try_cut(len);
        self.counted(outcome)
    }

    fn sync(&mut self) -> Result<(), Failed> {
        let outcome = self.try_sync();
        self.counted(outcome)
    }
}
