//! Why a disk over files failed.
ghost use Rattle.std.specs.Prelude.{◌≡◌, Ok, Err, IfErr};
ghost use Rattle.std.specs.IoError.{raw_os_error};

use std::{fmt, io};

/// What was asked of a file.
#[derive(Clone, Copy, Debug, PartialEq, Eq)]
pub enum FileCall {
    /// To be opened, and made where it is absent.
    Open,
    /// How long it is.
    Metadata,
    /// To read a page.
    Read,
    /// To write pages that lie side by side.
    Write,
    /// To make sure of what was written.
    Sync,
}

/// A call on a file that failed.
#[derive(Clone, Copy, Debug, PartialEq, Eq)]
pub struct Failure {
    /// The file's name in the working folder, which is itself `.`.
    pub file: &'static str,
    /// What was asked of it.
    pub call: FileCall,
    /// The system's number for the error. None where the system was not asked, or gave none.
    pub code: Option<i32>,
}

impl Failure {
    /// The answer of the system to a call on this file.
    pub(crate) fn unless<T>(
        file: &'static str,
        call: FileCall,
        answer: io::Result<T>,
    ) -> Result<T, Failure>
        ensures ok { (value : T) → result ≡ Ok value → answer ≡ Ok value }
        ensures err { (error : _) → answer ≡ Err error → IfErr result (λ failure.
            (failure.file.now ≡ file.now) × ((failure.call ≡ call) × (failure.code ≡ raw_os_error error))) }
    {
        match answer {
            Ok(value) => Ok(value),
            Err(error) => Err(Failure {
                file,
                call,
                code: error.raw_os_error(),
            }),
        }
    }
}

impl fmt::Display for FileCall {
    fn fmt<W: fmt::Write>(&self, f: &mut fmt::Formatter<W>) -> fmt::Result {
        f.write_str(match self {
            FileCall::Open => "open",
            FileCall::Metadata => "metadata",
            FileCall::Read => "read",
            FileCall::Write => "write",
            FileCall::Sync => "sync",
        })
    }
}

impl fmt::Display for Failure {
    fn fmt<W: fmt::Write>(&self, f: &mut fmt::Formatter<W>) -> fmt::Result {
        write!(f, "{}: {} failed", self.file, self.call)?;
        match self.code {
            Some(code) => write!(f, ", error {code}"),
            None => Ok(()),
        }
    }
}
