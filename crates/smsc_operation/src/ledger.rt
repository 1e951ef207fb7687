//! A file of lines that grows at its end.
ghost use Rattle.std.specs.Prelude.{ℕ, List, OnOk};

use std::fs::{File, OpenOptions};
use std::io::{self, Read, Seek, SeekFrom, Write};
use std::os::unix::fs::OpenOptionsExt;

// Its owner alone may read and write it.
const PRIVATE: u32 = 0o600;

/// A file of lines that grows at its end.
pub trait Ledger {
    /// The line was written to it.
    ghost has: { Self → List ℕ → Type 0 };

    /// The line is there still after a stop.
    ghost keeps: { Self → List ℕ → Type 0 };

    /// Writes a line at its end.
    fn append(&mut self, line: &[u8]) -> io::Result<()>
        ensures taken { OnOk result (has self.new line.now) }
        ensures others { (other : List ℕ) → has self.old other → has self.new other }
        ensures kept { (other : List ℕ) → keeps self.old other → keeps self.new other };

    /// Writes what it has to where that outlasts a stop.
    fn sync(&mut self) -> io::Result<()>
        ensures synced { OnOk result ((line : List ℕ) → has self.old line → keeps self.new line) }
        ensures kept { (line : List ℕ) → keeps self.old line → keeps self.new line };
}

/// A file of lines of this machine.
#[derive(Drop)]
pub struct LineFile {
    file: File,
    // It ends within a line, which a full disk or a loss of power has cut off.
    is_cut: bool,
}

fn is_cut(file: &mut File) -> io::Result<bool> {
    if file.seek(SeekFrom::End(0))? == 0 {
        return Ok(false);
    }
    file.seek(SeekFrom::End(-1))?;
    let mut last = [0u8; 1];
    let count = file.read(&mut last)?;
    Ok(count == 1 && last[0] != b'\n')
}

fn folder_of(path: &str) -> &str {
    match path.rsplit_once('/') {
        Some(("", _)) => "/",
        Some((folder, _)) => folder,
        None => ".",
    }
}

// A new file is there after a loss of power only if the disk has its folder. Some file systems refuse to be asked for that.
fn sync_folder(rt: &HostRuntime, path: &str) {
    if let Ok(folder) = File::open(rt, folder_of(path)) {
        let _ = folder.sync_all();
    }
}

impl LineFile {
    /// The file at the path, which is made where it is missing. What is there stays.
    pub fn open(rt: &HostRuntime, path: &str) -> io::Result<LineFile> {
        let mut file = OpenOptions::new()
            .read(true)
            .append(true)
            .create(true)
            .mode(PRIVATE)
            .open(rt, path)?;
        let is_cut = is_cut(&mut file)?;
        sync_folder(rt, path);
        Ok(LineFile { file, is_cut })
    }

    // A line that was cut off ends here.
    fn end_line(&mut self) -> io::Result<()> {
        if self.is_cut {
            return self.file.write_all(b"\n");
        }
        Ok(())
    }
}

/// What a file of this machine has, no contract can say.
impl Ledger for LineFile {
    ghost use Rattle.std.specs.Prelude.{⊤};

    ghost has = { λ file line. ⊤ };

    ghost keeps = { λ file line. ⊤ };

    fn append(&mut self, line: &[u8]) -> io::Result<()> {
        self.end_line()?;
        self.is_cut = true;
        self.file.write_all(line)?;
        self.is_cut = false;
        Ok(())
    }

    fn sync(&mut self) -> io::Result<()> {
        self.file.sync_all()
    }
}
