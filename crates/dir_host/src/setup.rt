// What a program is asked: the words of its command line, and which data folder it is run on.
ghost use Rattle.std.specs.Prelude.{◌≡◌, ◌⊎◌, ◌++◌, drop, codes, string_bytes, Err, IfOk, IfErr, IsErrOf, OnErr};
ghost use Rattle.std.specs.IoError.{error_kind};
ghost use Rattle.dir_host.specs.Setup.{IsSetupErrorOf, AreBehindFirst, words_error, named_path, is_absolute};
ghost use Rattle.dir_host.specs.declared.setup.SetupError.TheVariants.{NoMemory};

use host_files::join;
use std::alloc::{AllocError, Global};
use std::env::{Args, VarError};
use std::io::ErrorKind;
use std::rt::Env;
use std::{env, io};

/// Why a program ends before its command.
#[derive(Clone, Copy, Debug, PartialEq, Eq)]
pub enum SetupError {
    /// A word of the command line isn't UTF-8.
    Usage,
    /// The data folder, the clock or the random bytes can't be had.
    DirFault,
    /// Memory ran out.
    NoMemory,
}

impl From<AllocError> for SetupError {
    ghost from_gives = { λ _ error. error ≡ NoMemory };

    fn from(_error: AllocError) -> SetupError {
        SetupError::NoMemory
    }
}

impl From<io::Error> for SetupError {
    ghost from_gives = { IsSetupErrorOf };

    fn from(error: io::Error) -> SetupError {
        match error.kind() {
            ErrorKind::OutOfMemory => SetupError::NoMemory,
            _ => SetupError::DirFault,
        }
    }
}

/// Why the words of the command line can't be had.
fn words_error(error: io::Error) -> SetupError
    ensures { result ≡ words_error (error_kind error) }
{
    match error.kind() {
        ErrorKind::InvalidData => SetupError::Usage,
        ErrorKind::OutOfMemory => SetupError::NoMemory,
        _ => SetupError::DirFault,
    }
}

/// The words behind the program's name, which is the first, where there is one.
fn behind_name(given: Vec<String>) -> Vec<String>
    ensures { result.items ≡ drop 1 given.items }
{
    let mut words = given;
    if !words.is_empty() {
        let _name = words.remove(0);
    }
    words
}

/// All words that the system has to give, but the program's name.
fn words_of(alloc: Global, given: Args) -> Result<Vec<String>, AllocError>
    ensures { IfOk result (λ words. AreBehindFirst ⟦<Args as Iterator>⟧.next_gives given words.items) }
{
    Ok(behind_name(given.collect(alloc)?))
}

/// The words of the command line, without the program's name. `Usage` where one isn't UTF-8.
pub fn read_words<R: Env + AllocGlobal>(rt: &R) -> Result<Vec<String>, SetupError> {
    let given = env::args(rt).map_err(words_error)?;
    Ok(words_of(rt.alloc(), given)?)
}

/// The path that a variable names: `rkt` where it is unset or empty.
fn named_of(alloc: Global, given: Result<String, VarError>) -> Result<String, SetupError>
    ensures named { IfOk given (λ text. IfOk result (λ named. string_bytes named ≡ named_path (string_bytes text))) }
    ensures unset { OnErr given (IfOk result (λ named. string_bytes named ≡ codes "rkt")) }
    ensures fault { IsErrOf given VarError.NotUnicode → result ≡ Err SetupError.DirFault }
    ensures short { IsErrOf given VarError.OutOfMemory → result ≡ Err SetupError.NoMemory }
    ensures only { IfErr result (λ e. (e ≡ SetupError.NoMemory) ⊎ IsErrOf given VarError.NotUnicode) }
{
    match given {
        Ok(named) if !named.is_empty() => Ok(named),
        Ok(_) | Err(VarError::NotPresent) => match String::from_str(alloc, "rkt") {
            Ok(named) => Ok(named),
            Err(_) => Err(SetupError::NoMemory),
        },
        Err(VarError::OutOfMemory) => Err(SetupError::NoMemory),
        Err(VarError::NotUnicode) => Err(SetupError::DirFault),
    }
}

fn is_absolute(path: &str) -> bool
    ensures { result ≡ is_absolute path.now }
{
    path.starts_with('/')
}

/// The absolute path of the data folder: that of `RKT_DIR`, or `rkt` where it is unset or empty,
/// seen from the current folder.
pub fn find_root<R: Env + AllocGlobal>(rt: &R) -> Result<String, SetupError>
    ensures { IsErrOf result SetupError.Usage → ⊥ }
{
    let named = named_of(rt.alloc(), env::var(rt, "RKT_DIR"))?;
    if is_absolute(named.as_str()) {
        return Ok(named);
    }
    let current = env::current_dir(rt)?;
    Ok(join(rt.alloc(), current.as_str(), named.as_str())?)
}
