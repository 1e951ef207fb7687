//! Whether the files of a run are those that it opened.
ghost use Rattle.std.specs.Prelude.{◌≡◌, ◌↔◌, IfNone, IfSome, IsTrue, Option};
ghost use Rattle.sms_store_files.specs.declared.watching.FileNumber.{FileNumber as FileNumberOf};
ghost use Rattle.sms_store_files.specs.declared.watching.OpenedFiles.{OpenedFiles as OpenedFilesOf};
ghost use Rattle.sms_store_files.specs.Watching.{AreOpened, AreStill, IsOpened};

/// A file as the system numbers it: its device, and its number there.
#[derive(Clone, Copy)]
pub struct FileNumber {
    pub device: u64,
    pub number: u64,
}

/// What the system says of a store's two files: their numbers, where they are there, and how long the log is.
#[derive(Clone, Copy)]
pub struct FilesLook {
    pub file: Option<FileNumber>,
    pub log: Option<FileNumber>,
    pub log_octets: u64,
}

/// The two files that a run opened.
#[derive(Clone, Copy)]
pub struct OpenedFiles {
    pub file: FileNumber,
    pub log: FileNumber,
}

fn is_same(file: FileNumber, other: FileNumber) -> bool
    ensures { IsTrue result ↔ file ≡ other }
{
    file.device == other.device && file.number == other.number
}

// Whether it is there, and is this one.
fn is_there(file: Option<FileNumber>, wanted: FileNumber) -> bool
    ensures { IsTrue result ↔ file ≡ Some wanted }
{
    match file {
        Some(file) => is_same(file, wanted),
        None => false,
    }
}

// The file that was opened between two looks at it, if it is one.
fn opened_between(before: Option<FileNumber>, after: Option<FileNumber>) -> Option<FileNumber>
    ensures found { IfSome result (IsOpened before after) }
    ensures none { IfNone result ((opened : FileNumberOf) → ¬ IsOpened before after opened) }
{
    let after = after?;
    match before {
        Some(before) if !is_same(before, after) => None,
        _ => Some(after),
    }
}

/// The two files that were opened between two looks. A file that was there before has to be there after; one that was not there
/// was made. None where one of them is missing after, or is another one than before.
pub fn opened_of(before: &FilesLook, after: &FilesLook) -> Option<OpenedFiles>
    ensures found { IfSome result (AreOpened before.now after.now) }
    ensures none { IfNone result ((opened : OpenedFilesOf) → ¬ AreOpened before.now after.now opened) }
{
    let file = opened_between(before.file, after.file)?;
    let log = opened_between(before.log, after.log)?;
    Some(OpenedFiles { file, log })
}

/// Whether both are still the files that were opened, and the log is no shorter than so many octets.
pub fn are_still(opened: &OpenedFiles, least: u64, look: &FilesLook) -> bool
    ensures { IsTrue result ↔ AreStill opened.now least look.now }
{
    is_there(look.file, opened.file) && is_there(look.log, opened.log) && least <= look.log_octets
}
