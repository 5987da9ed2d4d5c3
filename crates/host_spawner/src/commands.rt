// How a program of an app is started.
ghost use Rattle.std.specs.Prelude.{◌≡◌, ◌↔◌, ◌++◌, ◌∷◌, ℕ, List, [], true, Some, IsOk, IfOk, OnOk, drop};
ghost use Rattle.std.specs.List.{slice_get};
ghost use Rattle.std.specs.Process.{command_program, command_args, command_dir, command_var, clears_env, SameProgramAndArgs, SameDir, SameEnv};
ghost use Rattle.host_spawner.specs.Roots.{below_root};
ghost use Rattle.host_spawner.specs.Programs.{is_absolute, with_text, last_variable_value, IsProgramInRoot};

use crate::place::path_below;
use crate::refusals::short;
use spawner::{SpawnError, Words};
use std::alloc::Global;
use std::process::Command;

/// Fails where the path isn't seen from the root.
fn check_absolute(path: &str) -> Result<(), SpawnError>
    ensures { IsOk result ↔ (is_absolute path.now ≡ true) }
{
    if path.starts_with('/') {
        Ok(())
    } else {
        Err(SpawnError::Failed)
    }
}

/// The program that the first word names.
fn program_of(alloc: Global, root: &str, argv: &Words) -> Result<Command, SpawnError>
    ensures program { IfOk result (λ c. IsProgramInRoot root.now argv.now (command_program c)) }
    ensures args { IfOk result (λ c. command_args c ≡ []) }
{
    let Some(word) = argv.get(0) else {
        return Err(SpawnError::Failed);
    };
    check_absolute(word)?;
    let program = path_below(alloc, root, word).map_err(short)?;
    Command::new(alloc, program.as_str()).map_err(short)
}

fn add_word(command: &mut Command, word: &str) -> Result<(), SpawnError>
    ensures args { OnOk result (command_args command.new ≡ command_args command.old ++ word.now ∷ []) }
    ensures program { OnOk result (command_program command.new ≡ command_program command.old) }
{
    command.arg(word).map_err(short)?;
    Ok(())
}

/// Adds the words behind the first.
fn add_words(command: &mut Command, argv: &Words) -> Result<(), SpawnError>
    ensures args { OnOk result (command_args command.new ≡ command_args command.old ++ drop 1 argv.now) }
    ensures program { OnOk result (command_program command.new ≡ command_program command.old) }
{
    'words: for place in 1..argv.len() {
        let Some(word) = argv.get(place) else {
            return Err(SpawnError::Failed);
        };
        add_word(command, word)?;
    }
    Ok(())
}

/// Sets what a text `NAME=VALUE` says.
fn set_variable(command: &mut Command, text: &str) -> Result<(), SpawnError>
    ensures set { OnOk result ((name : List ℕ) → command_var command.new name ≡ with_text name (command_var command.old name) text.now) }
    ensures call { OnOk result (SameProgramAndArgs command.old command.new) }
    ensures clears { OnOk result (clears_env command.new ≡ clears_env command.old) }
{
    let Some((name, value)) = text.split_once('=') else {
        return Err(SpawnError::Failed);
    };
    command.env(name, value).map_err(short)?;
    Ok(())
}

/// Sets these variables, and no others.
fn set_environment(command: &mut Command, env: &Words) -> Result<(), SpawnError>
    ensures vars { OnOk result ((name : List ℕ) → command_var command.new name ≡ last_variable_value env.now name) }
    ensures clears { OnOk result (clears_env command.new ≡ true) }
    ensures call { OnOk result (SameProgramAndArgs command.old command.new) }
{
    command.env_clear();
    'variables: for place in 0..env.len() {
        let Some(text) = env.get(place) else {
            return Err(SpawnError::Failed);
        };
        set_variable(command, text)?;
    }
    Ok(())
}

/// Sets the working directory.
fn set_directory(
    command: &mut Command,
    alloc: Global,
    root: &str,
    cwd: &str,
) -> Result<(), SpawnError>
    ensures dir { OnOk result (command_dir command.new ≡ Some (below_root root.now cwd.now)) }
    ensures call { OnOk result (SameProgramAndArgs command.old command.new) }
    ensures env { OnOk result (SameEnv command.old command.new) }
{
    check_absolute(cwd)?;
    let path = path_below(alloc, root, cwd).map_err(short)?;
    command.current_dir(path.as_str()).map_err(short)?;
    Ok(())
}

/// The program that the first word names in the root, with the further words, this environment alone and
/// this working directory in the root. Fails where there is no first word, where it or the working
/// directory isn't an absolute path, and where a variable has no name and value parted by `=`.
pub fn command_of(
    alloc: Global,
    root: &str,
    argv: &Words,
    env: &Words,
    cwd: &str,
) -> Result<Command, SpawnError>
    ensures program { IfOk result (λ c. IsProgramInRoot root.now argv.now (command_program c)) }
    ensures args { IfOk result (λ c. command_args c ≡ drop 1 argv.now) }
    ensures alone { IfOk result (λ c. clears_env c ≡ true) }
    ensures vars { IfOk result (λ c. (name : List ℕ) → command_var c name ≡ last_variable_value env.now name) }
    ensures dir { IfOk result (λ c. command_dir c ≡ Some (below_root root.now cwd.now)) }
{
    let mut command = program_of(alloc, root, argv)?;
    add_words(&mut command, argv)?;
    set_environment(&mut command, env)?;
    set_directory(&mut command, alloc, root, cwd)?;
    Ok(command)
}
