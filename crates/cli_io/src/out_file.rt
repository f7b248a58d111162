//! A file that is made at the first write to it.

use std::fs::{File, OpenOptions};
use std::io;
use std::io::Write;
use std::os::unix::fs::OpenOptionsExt;

/// The permissions of a newly created file: all may read, write and execute it, less those that the user's mask removes.
const EXECUTABLE: u32 = 0o777;

/// The same, but that none may execute it.
const PLAIN: u32 = 0o666;

/// The path that denotes standard output.
const STANDARD: &str = "-";

/// The file at a path, which is made, or emptied, once something is written to it; standard output where the path is `-`.
#[derive(Drop)]
pub struct OutFile<'a> {
    rt: &'a HostRuntime,
    path: &'a str,
    mode: u32,
    file: Option<File>,
}

impl<'a> OutFile<'a> {
    /// An executable file.
    pub fn executable(rt: &'a HostRuntime, path: &'a str) -> Self {
        OutFile {
            rt,
            path,
            mode: EXECUTABLE,
            file: None,
        }
    }

    /// A file that is not executable.
    pub fn plain(rt: &'a HostRuntime, path: &'a str) -> Self {
        OutFile {
            rt,
            path,
            mode: PLAIN,
            file: None,
        }
    }

    /// Makes the file, or empties it.
    fn open(&self) -> io::Result<File> {
        let mut options = OpenOptions::new();
        options
            .write(true)
            .create(true)
            .truncate(true)
            .mode(self.mode);
        options.open(self.rt, self.path)
    }
}

impl<'a> Write for OutFile<'a> {
    fn write(&mut self, buf: &[u8]) -> io::Result<usize> {
        if self.path == STANDARD {
            return self.rt.stdout().write(buf);
        }
        if let Some(file) = &mut self.file {
            return file.write(buf);
        }
        let mut file = self.open()?;
        let count = file.write(buf)?;
        self.file = Some(file);
        Ok(count)
    }

    fn flush(&mut self) -> io::Result<()> {
        match &mut self.file {
            Some(file) => file.flush(),
            None => Ok(()),
        }
    }
}
