// A file that holds an area.
ghost use Rattle.std.specs.Prelude.{◌≤◌, length, IfOk};

use std::fs::{OpenFile, OpenOptions};
use std::io::{ErrorKind, Read, Seek, SeekFrom, Write};
use std::rt::Files;
use std::{fs, io};

/// One file of the current folder, which is opened when it is first needed. One that is absent has no bytes.
#[derive(Drop)]
pub(crate) struct AreaFile<F> {
    name: &'static str,
    file: Option<F>,
}

impl<F: Read + Write + Seek + OpenFile + Drop> AreaFile<F> {
    /// The file of this name. Nothing is touched yet.
    pub(crate) fn new(name: &'static str) -> Self {
        AreaFile { name, file: None }
    }

    /// Opens the file, if it is there and isn't open yet.
    pub(crate) fn open(&mut self, rt: &impl Files<File = F>) -> io::Result<()> {
        if self.file.is_some() {
            return Ok(());
        }
        let mut options = OpenOptions::new();
        options.read(true).write(true);
        match options.open(rt, self.name) {
            Ok(file) => self.file = Some(file),
            Err(error) => {
                if error.kind() != ErrorKind::NotFound {
                    return Err(error);
                }
            }
        }
        Ok(())
    }

    /// Opens the file, if it isn't open yet, and makes it, if it isn't there. Answers whether it was made.
    pub(crate) fn open_or_make(&mut self, rt: &impl Files<File = F>) -> io::Result<bool> {
        self.open(rt)?;
        if self.file.is_some() {
            return Ok(false);
        }
        let mut options = OpenOptions::new();
        options.read(true).write(true).create(true);
        self.file = Some(options.open(rt, self.name)?);
        Ok(true)
    }

    /// How many bytes the file has, where it was opened.
    pub(crate) fn len(&self) -> io::Result<u64> {
        match &self.file {
            Some(file) => Ok(file.metadata()?.len()),
            None => Ok(0),
        }
    }

    /// Reads from a place on, as many bytes as go into the buffer or stand there, where the file was opened.
    pub(crate) fn read(&mut self, at: u64, buf: &mut [u8]) -> io::Result<usize>
        ensures { IfOk result (λ count. count ≤ length buf.new) }
    {
        match &mut self.file {
            Some(file) => {
                file.seek(SeekFrom::Start(at))?;
                fill(file, buf)
            }
            None => Ok(0),
        }
    }

    /// Writes the bytes at a place, where the file was opened.
    pub(crate) fn write(&mut self, at: u64, bytes: &[u8]) -> io::Result<()> {
        match &mut self.file {
            Some(file) => {
                file.seek(SeekFrom::Start(at))?;
                file.write_all(bytes)
            }
            None => Ok(()),
        }
    }

    /// Cuts the file to its first bytes, where it was opened.
    pub(crate) fn cut(&self, len: u64) -> io::Result<()> {
        match &self.file {
            Some(file) => file.set_len(len),
            None => Ok(()),
        }
    }

    /// Puts the file on the disk, where it was opened.
    pub(crate) fn sync(&self) -> io::Result<()> {
        match &self.file {
            Some(file) => file.sync_all(),
            None => Ok(()),
        }
    }
}

/// Puts the current folder on the disk, so that a file that was made in it stays.
pub(crate) fn sync_folder<R: Files>(rt: &R) -> io::Result<()> {
    fs::open(rt, ".")?.sync_all()
}

/// Reads until the buffer is full or nothing more comes.
fn fill(file: &mut impl Read, buf: &mut [u8]) -> io::Result<usize>
    ensures { IfOk result (λ count. count ≤ length buf.new) }
{
    let mut filled = 0;
    while filled < buf.len() {
        let count = file.read(&mut buf[filled..])?;
        if count == 0 {
            break;
        }
        filled += count;
    }
    Ok(filled)
}
