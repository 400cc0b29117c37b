use std::fs::{self, File, OpenOptions};
use std::io::{self, Read, Write};

/// Where a node is kept, so that it can be begun again as it was.
pub(crate) trait Journal {
    /// Keeps these bytes at the end: they are on disk when the call returns.
    fn keep(&mut self, bytes: &[u8]) -> io::Result<()>;

    /// Drops all but the first so many bytes.
    fn cut(&mut self, len: u64) -> io::Result<()>;

    /// Keeps these bytes in the place of all others: wherever the call is cut off, the ones or the others are kept.
    fn replace(&mut self, bytes: &[u8]) -> io::Result<()>;
}

/// Nothing is kept.
#[derive(Drop)]
pub(crate) struct NoJournal {}

impl Journal for NoJournal {
    fn keep(&mut self, _bytes: &[u8]) -> io::Result<()> {
        Ok(())
    }

    fn cut(&mut self, _len: u64) -> io::Result<()> {
        Ok(())
    }

    fn replace(&mut self, _bytes: &[u8]) -> io::Result<()> {
        Ok(())
    }
}

/// A file to which bytes are appended.
#[derive(Drop)]
pub(crate) struct FileJournal<'a> {
    rt: &'a HostRuntime,
    path: &'a str,
    file: File,
}

/// The file of this name, which is made where there is none.
fn open_file(rt: &HostRuntime, path: &str) -> io::Result<File> {
    OpenOptions::new()
        .read(true)
        .append(true)
        .create(true)
        .open(rt, path)
}

impl<'a> FileJournal<'a> {
    /// The file of this name, which is made where there is none, and what it has.
    pub(crate) fn open(
        rt: &'a HostRuntime,
        path: &'a str,
    ) -> io::Result<(FileJournal<'a>, Vec<u8>)> {
        let mut file = open_file(rt, path)?;
        let mut kept = Vec::new(rt.alloc());
        file.read_to_end(&mut kept)?;
        Ok((FileJournal { rt, path, file }, kept))
    }
}

impl<'a> Journal for FileJournal<'a> {
    fn keep(&mut self, bytes: &[u8]) -> io::Result<()> {
        self.file.write_all(bytes)?;
        self.file.sync_data()
    }

    fn cut(&mut self, len: u64) -> io::Result<()> {
        self.file.set_len(len)?;
        self.file.sync_data()
    }

    fn replace(&mut self, bytes: &[u8]) -> io::Result<()> {
        let path = format!(in self.rt.alloc(); "{}.new", self.path)?;
        let mut file = File::create(self.rt, path.as_str())?;
        file.write_all(bytes)?;
        file.sync_data()?;
        fs::rename(self.rt, path.as_str(), self.path)?;
        self.file = open_file(self.rt, self.path)?;
        Ok(())
    }
}
